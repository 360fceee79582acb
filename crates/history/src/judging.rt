ghost use Rattle.std.specs.Prelude.{◌≡◌, ◌↔◌, IsTrue};
ghost use Rattle.gpt_descriptors.specs.Sizes.{small_granule};
ghost use Rattle.history.specs.Legality.{granule_of, needed, is_transition, is_done, is_still, IsRefusal, IsChange, IsLookIn, IsSeen, CallAllows};

use crate::call::{Answer, Task, Via};
use crate::entry::Entry;
use gpi_values::{Gpi, Space, own, permits};
use gpt_descriptors::small_granule;

/// The granule of a task's address.
pub fn granule_of(task: Task) -> Option<u64>
    ensures { result ≡ granule_of small_granule task }
{
    match task {
        Task::Delegate(pa, _) | Task::Undelegate(pa, _) | Task::Look(pa, _) => {
            Some(pa / small_granule())
        }
        Task::Unknown => None,
    }
}

/// The GPI that a transition needs: Non-secure for a delegate, the source's own for an undelegate.
pub fn needed(task: Task) -> Option<Gpi>
    ensures { result ≡ needed task }
{
    match task {
        Task::Delegate(..) => Some(Gpi::NonSecure),
        Task::Undelegate(_, source) => Some(own(source)),
        Task::Unknown | Task::Look(..) => None,
    }
}

fn is_transition(task: Task) -> bool
    ensures { result ≡ is_transition task }
{
    matches!(task, Task::Delegate(..) | Task::Undelegate(..))
}

fn is_done(answer: Answer) -> bool
    ensures { result ≡ is_done answer }
{
    matches!(answer, Answer::Done(_))
}

/// Whether a transition that found this GPI is refused so.
fn refuses(task: Task, found: Gpi, answer: Answer) -> bool
    ensures { IsTrue result ↔ IsRefusal task found answer }
{
    match answer {
        Answer::Perm(given) => is_transition(task) && needed(task) != Some(found) && given == found,
        Answer::Worn(..) => needed(task) == Some(found),
        Answer::Inval | Answer::Unknown | Answer::Done(_) | Answer::Seen(_) => false,
    }
}

/// Whether a transition makes this change.
fn changes(task: Task, from: Gpi, to: Gpi) -> bool
    ensures { IsTrue result ↔ IsChange task from to }
{
    match task {
        Task::Delegate(_, source) => from == Gpi::NonSecure && to == own(source),
        Task::Undelegate(_, source) => {
            (from == own(source) && to == Gpi::NoAccess)
                || (from == Gpi::NoAccess && to == Gpi::NonSecure)
        }
        Task::Unknown | Task::Look(..) => false,
    }
}

/// Whether the task is an access in this space.
fn is_look_in(task: Task, space: Space) -> bool
    ensures { IsTrue result ↔ IsLookIn task space }
{
    match task {
        Task::Look(_, asked) => asked == space,
        Task::Delegate(..) | Task::Undelegate(..) | Task::Unknown => false,
    }
}

/// Whether the answer is of an access at an L1 table with this GPI and this permission.
fn is_seen(answer: Answer, gpi: Gpi, allowed: bool) -> bool
    ensures { IsTrue result ↔ IsSeen answer gpi allowed }
{
    match answer {
        Answer::Seen(access) => {
            access.gpi == gpi
                && access.allowed == allowed
                && access.level == 1
                && !matches!(access.via, Via::Still)
        }
        Answer::Inval | Answer::Unknown | Answer::Perm(_) | Answer::Worn(..) | Answer::Done(_) =>
            false,
    }
}

/// Whether the task and the answer of its call allow the entry.
pub fn call_allows(task: Task, answer: Answer, entry: &Entry) -> bool
    ensures { IsTrue result ↔ CallAllows task answer entry.now }
{
    match *entry {
        Entry::Refused { found, .. } => refuses(task, found, answer),
        Entry::Changed { from, to, .. } => is_done(answer) && changes(task, from, to),
        Entry::Settled { .. } => is_done(answer) && is_transition(task),
        Entry::Looked {
            space,
            gpi,
            allowed,
            ..
        } => {
            is_look_in(task, space)
                && allowed == permits(gpi, space)
                && is_seen(answer, gpi, allowed)
        }
    }
}
