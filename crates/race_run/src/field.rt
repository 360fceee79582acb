ghost use Rattle.std.specs.Prelude.{◌≡◌, ◌≤◌, ℕ, [], List, length, map, Some, None, IfOk, vec_capacity};
ghost use Rattle.std.specs.List.{All};
ghost use Rattle.gpi_values.specs.declared.gpi.Gpi.{Gpi};
ghost use Rattle.gpt_descriptors.specs.Places.{IsGeometry, l1_words, word_count};
ghost use Rattle.shared_words.specs.declared.act.Act.{Act as TheAct};
ghost use Rattle.shared_words.specs.Start.{start_words};
ghost use Rattle.core_machine.specs.declared.caller.Caller.{Caller as TheCaller};
ghost use Rattle.core_machine.specs.InnerCallers.{IsFresh, caller_next, caller_took};
ghost use Rattle.core_machine.specs.InnerInvariant.{NumbersDiffer};
ghost use Rattle.core_machine.specs.InnerOpening.{AreStarting};
ghost use Rattle.race_run.specs.Passes.{AreOpened, IsPassOf};
ghost use Rattle.race_run.specs.Turns.{HasActed};
ghost use Rattle.race_run.specs.InnerRule.{whole as whole_view, numbered, seen_of, fresh_seen};

use crate::rule::{FieldKey, FirstCaller, Running};
use crate::step::act_on;
use crate::view::View;
use atomic_table::{Seat, Table};
use core_machine::Caller;
use gpt_descriptors::Geometry;
use shared_words::{Act, PlainWords};
use std::alloc::{AllocError, Global};
use std::marker::Model;
use std::snapshot::Snapshot;
use table_build::Tables;

/// The shared words of callers, each an atomic word of 64 bits. Every act on them is sequentially
/// consistent.
#[derive(Drop)]
pub struct Field {
    pub(crate) table: Table<u64, View, FieldKey, Running, Global>,
}

impl Model for Field {
    ghost use Rattle.std.specs.Prelude.{◌≡◌};
    ghost use Rattle.gpt_descriptors.specs.Places.{word_count};
    ghost use Rattle.race_run.specs.Passes.{FieldData};
    ghost use Rattle.race_run.specs.InnerRule.{opening_of};

    ghost Value = { FieldData };

    ghost view = { λ f. record {
      id = f.table.shared.table_id;
      opening = opening_of f.table.shared.key;
    } };

    ghost invariant = { λ f. (f.table.shared.table_id.words
        ≡ word_count f.table.shared.key.geometry) × (f.table.shared.table_id.slots ≡ 0) };
}

/// What one caller, or several that were joined, know of the shared words. It has no bytes.
#[derive(Drop)]
pub struct Pass {
    pub(crate) seat: Seat<u64, View>,
}

impl Model for Pass {
    ghost use Rattle.std.specs.Prelude.{◌≡◌, []};
    ghost use Rattle.race_run.specs.Passes.{PassData};

    ghost Value = { PassData };

    ghost view = { λ p. record {
      id = p.seat.table_id;
      number = p.seat.id;
      view = p.seat.me.0;
    } };

    ghost invariant = { λ p. p.seat.me.1 ≡ [] };
}

impl Field {
    /// The shared words of callers before their first act, and a pass for each of them, in their order. The
    /// geometry has the setup and the level 0 words of the tables, whose level 1 words are the canonical ones of
    /// the map that they mean. The callers were made with this geometry and have made no act, and no two
    /// processors among them have one number. AllocError where the memory for the words or the passes isn't
    /// found.
    pub fn open(
        alloc: Global,
        geometry: Geometry,
        tables: &Tables,
        callers: &Vec<Caller>,
    ) -> Result<(Field, Vec<Pass>), AllocError>
        requires size { length tables.now.l1 ≡ l1_words geometry }
        requires starting { (first : List Gpi)
            × AreStarting geometry first (start_words geometry tables.now.l1) }
        requires fresh { All (IsFresh geometry) callers.now.items }
        requires numbers { NumbersDiffer callers.now.items }
        ensures opening { IfOk result (λ opened. opened.0.opening ≡ record {
          geometry = geometry;
          words = start_words geometry tables.now.l1;
          callers = callers.now.items;
        }) }
        ensures passes { IfOk result
            (λ opened. AreOpened opened.0 opened.1.items callers.now.items) }
    {
        let words = PlainWords::new(alloc, &geometry, tables.l1())?;
        let mut passes = Vec::with_capacity(alloc, callers.len())?;
        let key = FieldKey {
            geometry,
            words: Snapshot::of(&words),
            callers: Snapshot::of(callers),
        };
        let (table, seat) = Table::of_words(alloc, words.words(), &key)?;
        let field = Field { table };
        field.deal(seat, callers.len(), &mut passes);
        Ok((field, passes))
    }

    /// The number of the shared words.
    pub fn word_count(&self) -> usize
        ensures { result ≡ word_count self.now.opening.geometry }
    {
        self.table.word_count()
    }

    /// A pass for each caller, out of the seat that has them all.
    fn deal(&self, whole: Seat<u64, View>, count: usize, passes: &mut Vec<Pass>)
        requires seat { (whole.table_id ≡ self.now.id) × (whole.me ≡ (whole_view self.now.opening, [])) }
        requires count { count ≡ length self.now.opening.callers }
        requires room { count ≤ vec_capacity passes.old }
        requires empty { passes.old.items ≡ [] }
        ensures { map seen_of passes.new.items
            ≡ map (fresh_seen self.now) (numbered 0 self.now.opening.callers) }
    {
        let mut whole = whole;
        for _ in 0..count {
            let seat = self.table.shared.split_seat::<FirstCaller>(&mut whole);
            passes.push_reserved(Pass { seat });
        }
    }

    /// The next act of a caller as one step on the shared words; nothing where it has none. It takes no
    /// memory and waits for nobody: where the act finds a lock held, or a processor inside an access, the
    /// caller's next act is the same again. The pass is one that this field's `open` made, possibly after
    /// turns, and the caller is the one in its view.
    pub fn turn(&self, pass: &mut Pass, caller: &mut Caller)
        requires pass { (c : ℕ) × IsPassOf self.now pass.old c caller.old }
        ensures pass { (pass.new.id ≡ pass.old.id) × (pass.new.number ≡ pass.old.number) }
        ensures none { caller_next caller.old ≡ None
            → (caller.new ≡ caller.old) × (pass.new ≡ pass.old) }
        ensures acted { (c : ℕ) (t : TheAct) → IsPassOf self.now pass.old c caller.old
            → caller_next caller.old ≡ Some t
            → (old : ℕ) × (caller.new ≡ caller_took caller.old old)
            × HasActed self.now.opening c caller.old old pass.old.view pass.new.view }
        ensures again { (c : ℕ) → IsPassOf self.now pass.old c caller.old
            → IsPassOf self.now pass.new c caller.new }
    {
        if let Some(act) = caller.next() {
            self.make(pass, caller, act);
        }
    }

    /// The act that is a caller's next.
    #[inline(always)]
    pub(crate) fn make(&self, pass: &mut Pass, caller: &mut Caller, act: Act)
        requires pass { (c : ℕ) × IsPassOf self.now pass.old c caller.old }
        requires next { caller_next caller.old ≡ Some act }
        ensures pass { (pass.new.id ≡ pass.old.id) × (pass.new.number ≡ pass.old.number) }
        ensures acted { (c : ℕ) → IsPassOf self.now pass.old c caller.old
            → (old : ℕ) × (caller.new ≡ caller_took caller.old old)
            × HasActed self.now.opening c caller.old old pass.old.view pass.new.view }
        ensures again { (c : ℕ) → IsPassOf self.now pass.old c caller.old
            → IsPassOf self.now pass.new c caller.new }
    {
        let old = act_on(&self.table.shared, &mut pass.seat, act);
        caller.took(old);
    }
}

#[cfg(test)]
impl Field {
    /// One of the shared words, or 0 beyond the last.
    pub fn word(&self, place: usize) -> u64 {
        if place < self.table.word_count() {
            self.table.shared.peek(place)
        } else {
            0
        }
    }
}
