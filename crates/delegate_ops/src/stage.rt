ghost use Rattle.std.specs.Prelude.{◌≡◌};
ghost use Rattle.delegate_ops.specs.InnerStages.{kept_read, answer_for};

use gpt_descriptors::{Generations, Gpi, Size};
use history::Answer;

/// Which of its changes a transition makes. A delegate makes the last one alone, an undelegate goes
/// through no access first.
#[derive(Clone, Copy, Debug, PartialEq, Eq)]
pub enum Change {
    First,
    Last,
}

/// A line of its granule that a transition cleans after a change: that of the space which its former
/// GPI permits, and, where an undelegate has gone to no access, after it the Non-secure one.
#[derive(Clone, Copy, Debug, PartialEq, Eq)]
pub enum Line {
    Former,
    NonSecure,
}

/// What a transition keeps while it holds its lock: the L1 word and the generations around the
/// granule as it has last loaded or written them. A generation that isn't loaded yet is kept as 0.
#[derive(Clone, Copy, Debug, PartialEq, Eq)]
pub struct Kept {
    pub word: u64,
    pub generations: Generations,
}

impl Kept {
    /// The loaded L1 word, and no generation yet.
    pub fn new(word: u64) -> Kept
        ensures { result ≡ record {
          word = word;
          generations = record { two = 0; thirty_two = 0; five_twelve = 0 };
        } }
    {
        Kept {
            word,
            generations: Generations {
                two: 0,
                thirty_two: 0,
                five_twelve: 0,
            },
        }
    }

    /// Keeps the generation of a size, as it was loaded or stored.
    pub fn note(&mut self, size: Size, value: u64)
        ensures { self.new ≡ kept_read size value self.old }
    {
        match size {
            Size::Two => self.generations.two = value,
            Size::ThirtyTwo => self.generations.thirty_two = value,
            Size::FiveTwelve => self.generations.five_twelve = value,
        }
    }
}

/// What a transition will be answered, with the generations that it keeps.
#[derive(Clone, Copy, Debug, PartialEq, Eq)]
pub enum Ending {
    /// It found this GPI, which isn't the one that it needs.
    Refused(Gpi),
    /// The generation of this size is exhausted.
    Worn(Size),
    /// The granule is changed.
    Done,
}

impl Ending {
    /// The answer of a transition that keeps these generations.
    pub fn answer(self, generations: Generations) -> Answer
        ensures { result ≡ answer_for self generations }
    {
        match self {
            Ending::Refused(found) => Answer::Perm(found),
            Ending::Worn(size) => Answer::Worn(size, generations.get(size)),
            Ending::Done => Answer::Done(generations),
        }
    }
}

/// How far the call under way of an agent has come.
#[derive(Clone, Copy, Debug, PartialEq, Eq)]
pub enum Phase {
    /// The next act takes the lock.
    Locking,
    /// The lock wasn't free. The next act tries to take it again.
    Waiting,
    /// The lock is held. The next act looks at the L1 word.
    Looking,
    /// The granule has the needed GPI. The next act loads the generation of this size.
    Reading(Size),
    /// The granule is in a contiguous block of this size. The next act is a store of its splitting.
    Splitting(Size),
    /// The granule may be delegated. The next act cleans the line of its target's space.
    Preparing,
    /// The next act writes the L1 word with this change of the granule.
    Changing(Change),
    /// The granule is changed. The next act raises the generation of this size.
    Raising(Change, Size),
    /// This change is complete. The next act loads a processor's duty word.
    Passing(Change),
    /// That duty word wasn't 0. The next act loads it again.
    Blocked(Change),
    /// Every processor has ended the access that it made before this change. The next act cleans
    /// this line.
    Cleaning(Change, Line),
    /// The granule has its last GPI. The next act is a load or a store of merging.
    Merging,
    /// The next act releases the lock, and the call is answered so.
    Releasing(Ending),
}
