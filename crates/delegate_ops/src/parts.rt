ghost use Rattle.std.specs.Prelude.{◌≡◌, ◌≤◌, ◌*◌, ◌^◌, ◌<◌, None};
ghost use Rattle.delegate_ops.specs.Deciding.{idle_answer};
ghost use Rattle.delegate_ops.specs.InnerAgents.{raises_from, raises_after};
ghost use Rattle.delegate_ops.specs.Parts.{is_move, is_change_of, is_prepared, is_cleaned};
ghost use Rattle.delegate_ops.specs.Parts.{can_rise, has_room, is_raising, has_next, is_phase, is_sound};

use crate::changing::first_change;
use crate::deciding::idle_answer;
use crate::stage::{Change, Kept, Line, Phase};
use fuse::{Fusing, is_counted};
use gpt_descriptors::{GEN_LAST, Generations, Geometry, Gpi, Size, decode_l1};
use history::Task;

/// What a transition keeps that can't be worked out of its task and the geometry. Where its phase
/// doesn't use a number, that number means nothing.
#[derive(Clone, Copy, Debug, PartialEq, Eq)]
pub struct Parts {
    pub task: Task,
    pub phase: Phase,
    pub kept: Kept,
    /// The GPI of the block that it splits, and how many stores of that were made.
    pub split_gpi: Gpi,
    pub split_made: u64,
    /// The processors that its barrier has passed.
    pub passed: u32,
    /// The GPI around which it merges, and where that is.
    pub merge_gpi: Gpi,
    pub merge_step: Fusing,
}

fn is_move(task: Task) -> bool
    ensures { result ≡ is_move task }
{
    matches!(task, Task::Delegate(..) | Task::Undelegate(..))
}

fn is_change_of(task: Task, change: Change) -> bool
    ensures { result ≡ is_change_of task change }
{
    match (task, change) {
        (Task::Delegate(..), Change::Last) | (Task::Undelegate(..), _) => true,
        _ => false,
    }
}

fn is_prepared(task: Task) -> bool
    ensures { result ≡ is_prepared task }
{
    matches!(task, Task::Delegate(..))
}

fn is_cleaned(task: Task, change: Change, line: Line) -> bool
    ensures { result ≡ is_cleaned task change line }
{
    match (task, change, line) {
        (Task::Delegate(..), Change::Last, Line::Former)
        | (Task::Undelegate(..), Change::First, _) => true,
        _ => false,
    }
}

fn raises_from(change: Change) -> u64
    ensures value { result ≡ raises_from change }
    ensures range { result ≤ 2 }
{
    match change {
        Change::First => 2,
        Change::Last => 1,
    }
}

fn raises_after(change: Change) -> u64
    ensures value { result ≡ raises_after change }
    ensures range { result ≤ 2 }
{
    match change {
        Change::First => 1,
        Change::Last => 0,
    }
}

fn can_rise(raises: u64, generation: u64) -> bool
    requires { raises ≤ 2 }
    ensures { result ≡ can_rise raises generation }
{
    generation <= GEN_LAST - raises
}

fn has_room(kept: Generations, two: u64, thirty_two: u64, five_twelve: u64) -> bool
    requires two { two ≤ 2 }
    requires thirty_two { thirty_two ≤ 2 }
    requires five_twelve { five_twelve ≤ 2 }
    ensures { result ≡ has_room kept two thirty_two five_twelve }
{
    can_rise(two, kept.two)
        && can_rise(thirty_two, kept.thirty_two)
        && can_rise(five_twelve, kept.five_twelve)
}

fn is_raising(change: Change, size: Size, kept: Generations) -> bool
    ensures { result ≡ is_raising change size kept }
{
    let from = raises_from(change);
    let after = raises_after(change);
    match size {
        Size::Two => has_room(kept, from, from, from),
        Size::ThirtyTwo => has_room(kept, after, from, from),
        Size::FiveTwelve => has_room(kept, after, after, from),
    }
}

fn has_next(two: usize, step: Fusing) -> bool
    requires { 16 * (16 * two) < 2 ^ 64 }
    ensures { result ≡ has_next two step }
{
    match step {
        Fusing::Ended(_) => false,
        Fusing::Testing(..) | Fusing::Storing(..) => is_counted(two, step),
    }
}

fn is_phase(geometry: &Geometry, parts: &Parts) -> bool
    ensures { result ≡ is_phase geometry.now parts.now parts.now.phase }
{
    let task = parts.task;
    let kept = parts.kept.generations;
    let setup = geometry.setup();
    match parts.phase {
        Phase::Locking | Phase::Waiting | Phase::Looking | Phase::Releasing(_) => true,
        Phase::Reading(_) => decode_l1(parts.kept.word).is_some(),
        Phase::Splitting(size) => {
            let first = first_change(task);
            parts.split_made < setup.words_of(size)
                && is_change_of(task, first)
                && is_raising(first, Size::Two, kept)
        }
        Phase::Preparing => is_prepared(task) && is_raising(Change::Last, Size::Two, kept),
        Phase::Changing(change) => {
            is_change_of(task, change) && is_raising(change, Size::Two, kept)
        }
        Phase::Raising(change, size) => {
            is_change_of(task, change) && is_raising(change, size, kept)
        }
        Phase::Passing(change) | Phase::Blocked(change) => {
            let after = raises_after(change);
            is_change_of(task, change)
                && parts.passed < geometry.cpus()
                && has_room(kept, after, after, after)
        }
        Phase::Cleaning(change, line) => {
            let after = raises_after(change);
            is_cleaned(task, change, line) && has_room(kept, after, after, after)
        }
        Phase::Merging => has_next(setup.words_of(Size::Two) as usize, parts.merge_step),
    }
}

/// Whether these are the parts of a transition on this geometry.
pub fn is_sound(geometry: &Geometry, parts: &Parts) -> bool
    ensures { result ≡ is_sound geometry.now parts.now }
{
    is_move(parts.task) && idle_answer(geometry, parts.task).is_none() && is_phase(geometry, parts)
}
