ghost use Rattle.std.specs.Prelude.{◌≡◌, ◌<◌};
ghost use Rattle.gpi_values.specs.Values.{value_of};
ghost use Rattle.gpt_descriptors.specs.Fields.{with_field};
ghost use Rattle.delegate_ops.specs.Changing.{first_change, to_of, own_space, target_space};
ghost use Rattle.delegate_ops.specs.Changing.{former_space, space_of_line};

use crate::stage::{Change, Line};
use gpi_values::{Gpi, Source, Space, nibble, own};
use gpt_descriptors::with_field;
use history::Task;

/// The first change that a transition makes.
pub fn first_change(task: Task) -> Change
    ensures { result ≡ first_change task }
{
    match task {
        Task::Undelegate(..) => Change::First,
        Task::Delegate(..) | Task::Unknown | Task::Look(..) => Change::Last,
    }
}

/// The GPI to which a change takes the granule.
fn to_of(task: Task, change: Change) -> Gpi
    ensures { result ≡ to_of task change }
{
    match (task, change) {
        (Task::Delegate(_, source), _) => own(source),
        (Task::Undelegate(..), Change::First) => Gpi::NoAccess,
        _ => Gpi::NonSecure,
    }
}

/// The L1 word after a change of its granule, which has this field in it.
pub fn changed_word(task: Task, change: Change, field: u64, word: u64) -> u64
    requires { field < 16 }
    ensures { result ≡ with_field word field (value_of (to_of task change)) }
{
    with_field(word, field, nibble(to_of(task, change)))
}

/// The space of a source.
fn own_space(source: Source) -> Space
    ensures { result ≡ own_space source }
{
    match source {
        Source::Realm => Space::Realm,
        Source::Secure => Space::Secure,
    }
}

/// The space whose line a delegate cleans before its change.
pub fn target_space(task: Task) -> Space
    ensures { result ≡ target_space task }
{
    match task {
        Task::Delegate(_, source) => own_space(source),
        Task::Undelegate(..) | Task::Unknown | Task::Look(..) => Space::NonSecure,
    }
}

/// The space that the former GPI of a change permits. For the last change of an undelegate,
/// which is from no access, the value isn't used.
fn former_space(task: Task, change: Change) -> Space
    ensures { result ≡ former_space task change }
{
    match (task, change) {
        (Task::Undelegate(_, source), Change::First) => own_space(source),
        _ => Space::NonSecure,
    }
}

/// The space of a line that is cleaned after a change.
pub fn space_of_line(task: Task, change: Change, line: Line) -> Space
    ensures { result ≡ space_of_line task change line }
{
    match line {
        Line::Former => former_space(task, change),
        Line::NonSecure => Space::NonSecure,
    }
}
