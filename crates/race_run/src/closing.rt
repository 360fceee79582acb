ghost use Rattle.std.specs.Prelude.{◌≡◌, ◌≤◌, [], List, IfOk, Some, vec_capacity};
ghost use Rattle.std.specs.Slots.{slots_items, slots_len, IsFull};
ghost use Rattle.gpt_descriptors.specs.Places.{word_count};
ghost use Rattle.core_machine.specs.declared.caller.Caller.{Caller as TheCaller};
ghost use Rattle.race_run.specs.Closing.{AreAll, HasClosed};
ghost use Rattle.race_run.specs.InnerRule.{AreOf, joined_back};

use crate::field::{Field, Pass};
use crate::rule::{BothPasses, Entering, WhatIsSeen};
use crate::view::View;
use atomic_table::{Closed, Seat};
use std::alloc::{AllocError, Global};

impl Field {
    /// The shared words at the end, and a pass that has seen the whole history. The passes are all that this
    /// field's `open` made, possibly after turns, in their order. AllocError where the memory for the
    /// words isn't found: the field and the passes are given up.
    pub fn close(self, alloc: Global, passes: Vec<Pass>) -> Result<(Vec<u64>, Pass), AllocError>
        requires all { (callers : List TheCaller) × AreAll self passes.items callers }
        ensures { (callers : List TheCaller) → AreAll self passes.items callers
            → IfOk result (λ closed. HasClosed self passes.items callers closed.0.items closed.1) }
    {
        let words = Vec::with_capacity(alloc, self.word_count())?;
        Ok(self.close_into(passes, words))
    }

    /// As `close`, with the room for the words.
    pub(crate) fn close_into(self, passes: Vec<Pass>, words: Vec<u64>) -> (Vec<u64>, Pass)
        requires all { (callers : List TheCaller) × AreAll self passes.items callers }
        requires room { word_count self.opening.geometry ≤ vec_capacity words }
        requires empty { words.items ≡ [] }
        ensures { (callers : List TheCaller) → AreAll self passes.items callers
            → HasClosed self passes.items callers result.0.items result.1 }
    {
        let mut words = words;
        let count = self.word_count();
        let (_, mut seat) = self.table.shared.load_new_seat::<Entering>(0);
        self.join(&mut seat, passes);
        let seen = self.table.shared.split_seat::<WhatIsSeen>(&mut seat);
        let closed = self.table.close_with(seat);
        give_back(&closed, count, &mut words);
        closed.free();
        (words, Pass { seat: seen })
    }

    /// Takes all these passes into one.
    fn join(&self, seat: &mut Seat<u64, View>, passes: Vec<Pass>)
        requires seat { (seat.old.table_id ≡ self.now.id) × (seat.old.me.1 ≡ [])
            × (seat.old.me.0.opening ≡ Some self.now.opening) }
        requires passes { AreOf self.now passes.items }
        ensures seat { (seat.new.table_id ≡ seat.old.table_id) × (seat.new.id ≡ seat.old.id)
            × (seat.new.me ≡ (joined_back seat.old.me.0 passes.items, [])) }
    {
        let mut passes = passes;
        while let Some(pass) = passes.pop() {
            self.table.shared.join_seat::<BothPasses>(seat, pass.seat);
        }
    }
}

/// The words of a field that no pass shares any more.
fn give_back(closed: &Closed<u64, Global>, count: usize, words: &mut Vec<u64>)
    requires words { IsFull closed.now.words × (slots_len closed.now.words ≡ count) }
    requires room { count ≤ vec_capacity words.old }
    requires empty { words.old.items ≡ [] }
    ensures { words.new.items ≡ slots_items closed.now.words }
{
    for place in 0..count {
        words.push_reserved(closed.word(place));
    }
}
