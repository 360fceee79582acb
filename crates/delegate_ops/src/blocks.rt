ghost use Rattle.std.specs.Prelude.{◌≡◌, ◌<◌, None};
ghost use Rattle.gpt_descriptors.specs.Places.{l1_index_of, l1_place_of};
ghost use Rattle.fuse.specs.Merging.{fuse_of};
ghost use Rattle.delegate_ops.specs.Deciding.{address_of, idle_answer};
ghost use Rattle.delegate_ops.specs.Changing.{splitting_of};
ghost use Rattle.delegate_ops.specs.InnerAgents.{number_of};

use crate::deciding::address_of;
use fuse::Fuse;
use gpt_descriptors::{Geometry, Gpi, Size};
use history::Task;
use shatter::Splitting;

/// The number of the L1 word of a task with acts among the L1 words.
#[tactic(auto, using(crate::proofs::DecidingLemmas::acts_inside))]
fn l1_index_of(geometry: &Geometry, task: Task) -> usize
    requires { idle_answer geometry.now task ≡ None }
    ensures value { result ≡ number_of (l1_index_of geometry.now (address_of task)) }
    ensures range { result < 262144 }
{
    match geometry.l1_index(address_of(task)) {
        Some(index) => index as usize,
        None => 0,
    }
}

/// The splitting of the block of this size and GPI around the L1 word of a task with acts.
pub fn splitting_of(geometry: &Geometry, task: Task, size: Size, gpi: Gpi) -> Splitting
    requires { idle_answer geometry.now task ≡ None }
    ensures { result ≡ splitting_of geometry.now (address_of task)
        (number_of (l1_place_of geometry.now (address_of task))) size gpi }
{
    let setup = geometry.setup();
    let index = l1_index_of(geometry, task);
    let words = setup.words_of(size) as usize;
    let own = index % words;
    let two = setup.words_of(Size::Two) as usize;
    Splitting::new(
        geometry.first_l1_word() + (index - own),
        own,
        gpi,
        words,
        two,
    )
}

/// Merging around the L1 word of a task with acts, which it wrote last as this word.
#[tactic(auto, using(crate::proofs::DecidingLemmas::acts_inside))]
pub fn merging_of(geometry: &Geometry, task: Task, word: u64) -> Fuse
    requires { idle_answer geometry.now task ≡ None }
    ensures { result ≡ fuse_of geometry.now
        (number_of (l1_index_of geometry.now (address_of task))) word }
{
    Fuse::new(geometry, address_of(task), word)
}
