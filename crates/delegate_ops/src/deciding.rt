ghost use Rattle.std.specs.Prelude.{◌≡◌, IsTrue};
ghost use Rattle.history.specs.Legality.{needed};
ghost use Rattle.delegate_ops.specs.Deciding.{address_of, is_unusable, idle_answer, is_needed, worn_size};
ghost use Rattle.delegate_ops.specs.InnerTransition.{IsMove};

use gpi_values::{Gpi, nibble};
use gpt_descriptors::{Generations, Geometry, Size, is_worn};
use history::{Answer, Task, needed};

/// The byte address of a task.
pub fn address_of(task: Task) -> u64
    ensures { result ≡ address_of task }
{
    match task {
        Task::Delegate(pa, _) | Task::Undelegate(pa, _) | Task::Look(pa, _) => pa,
        Task::Unknown => 0,
    }
}

/// Whether a task moves the granule at this byte address.
pub fn moves_at(task: Task, at: u64) -> bool
    ensures { IsTrue result → IsMove task × (address_of task ≡ at) }
{
    match task {
        Task::Delegate(pa, _) | Task::Undelegate(pa, _) => pa == at,
        Task::Unknown | Task::Look(_, _) => false,
    }
}

/// Whether the address isn't aligned to a granule, isn't in the protected space, or has an L0
/// block.
fn is_unusable(geometry: &Geometry, pa: u64) -> bool
    ensures { result ≡ is_unusable geometry.now pa }
{
    pa % geometry.setup().granule_bytes() != 0
        || !geometry.inside(pa)
        || geometry.block_gpi(pa).is_some()
}

/// The answer of a task that has no acts.
pub fn idle_answer(geometry: &Geometry, task: Task) -> Option<Answer>
    ensures { result ≡ idle_answer geometry.now task }
{
    match task {
        Task::Unknown => Some(Answer::Unknown),
        Task::Delegate(pa, _) | Task::Undelegate(pa, _) | Task::Look(pa, _) => {
            if is_unusable(geometry, pa) {
                Some(Answer::Inval)
            } else {
                None
            }
        }
    }
}

/// Whether this GPI is the one that the transition needs.
pub fn is_needed(task: Task, found: Gpi) -> bool
    ensures { result ≡ is_needed (needed task) found }
{
    match needed(task) {
        Some(gpi) => nibble(found) == nibble(gpi),
        None => false,
    }
}

/// The first size whose generation is exhausted, or `None` where none is.
pub fn worn_size(generations: Generations) -> Option<Size>
    ensures { result ≡ worn_size generations }
{
    if is_worn(generations.two) {
        Some(Size::Two)
    } else if is_worn(generations.thirty_two) {
        Some(Size::ThirtyTwo)
    } else if is_worn(generations.five_twelve) {
        Some(Size::FiveTwelve)
    } else {
        None
    }
}
