ghost use Rattle.std.specs.Prelude.{◌≡◌, ◌<◌, None};
ghost use Rattle.gpt_descriptors.specs.Places.{IsGeometry};
ghost use Rattle.delegate_ops.specs.Deciding.{idle_answer};
ghost use Rattle.delegate_ops.specs.InnerTransition.{places_of, generation_place, clean_by};

use crate::deciding::address_of;
use alias_clean::line_mask;
use bit_locks::{Bit, lock_of};
use gpi_values::Space;
use gpt_descriptors::{Geometry, Size};
use history::Task;
use shared_words::Act;

/// Where the acts of one transition are made: places among the shared words.
#[derive(Clone, Copy, Debug, PartialEq, Eq)]
pub struct Places {
    /// Its lock bit.
    pub lock: Bit,
    /// The L1 word of its granule.
    pub word: usize,
    /// The granule's field in that word, 0 to 15.
    pub field: u64,
    /// Its line word.
    pub line: usize,
    /// The generations of the 2, 32 and 512 MB around it.
    pub two: usize,
    pub thirty_two: usize,
    pub five_twelve: usize,
}

impl Places {
    /// The places of a task with acts.
    #[inline(always)]
    #[tactic(auto, using(crate::proofs::DecidingLemmas::acts_inside))]
    pub fn new(geometry: &Geometry, task: Task) -> Places
        requires { idle_answer geometry.now task ≡ None }
        ensures places { result ≡ places_of geometry.now task }
        ensures field { result.field < 16 }
        ensures known { IsGeometry geometry.now }
    {
        let pa = address_of(task);
        let setup = geometry.setup();
        Places {
            lock: lock_of(geometry, pa),
            word: geometry.l1_place(pa).unwrap_or(0),
            field: pa / setup.granule_bytes() % 16,
            line: geometry.line_place(pa).unwrap_or(0),
            two: geometry.gen_place(Size::Two, pa),
            thirty_two: geometry.gen_place(Size::ThirtyTwo, pa),
            five_twelve: geometry.gen_place(Size::FiveTwelve, pa),
        }
    }

    /// The place of the generation of a size.
    pub fn generation(&self, size: Size) -> usize
        ensures { result ≡ generation_place self.now size }
    {
        match size {
            Size::Two => self.two,
            Size::ThirtyTwo => self.thirty_two,
            Size::FiveTwelve => self.five_twelve,
        }
    }

    /// The act that cleans the line of its granule and a space.
    pub fn clean(&self, space: Space) -> Act
        requires { self.now.field < 16 }
        ensures { result ≡ clean_by self.now space }
    {
        Act::And(self.line, !line_mask(self.field, space))
    }
}
