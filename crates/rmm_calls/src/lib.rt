//! The granule calls that the monitor offers to the Realm world (TF-A, RMMD): who may make them,
//! and with which code they return. No call takes memory.
#![tactic(auto)]

ghost use Rattle.std.specs.Prelude.{◌≡◌, false};
ghost use Rattle.history.specs.Legality.{is_seen};
ghost use Rattle.rmm_calls.specs.Codes.{is_admitted, code_of};

use gpi_values::World;
use history::Answer;

#[cfg(test)]
mod tests;

/// Whether a granule call of this world is known: that of the Realm world alone is.
pub fn admits(world: World) -> bool
    ensures { result ≡ is_admitted world }
{
    matches!(world, World::Realm)
}

/// The code that a granule call returns with (TF-A, `rmmd_svc.h`): 0 where it is done, -1 where it
/// isn't known, -2 for a bad address, -3 where the granule has another GPI than the needed one.
/// -100, for a worn generation, is this project's own. An access returns no code.
pub fn code(answer: &Answer) -> i32
    requires { is_seen answer.now ≡ false }
    ensures { result ≡ code_of answer.now }
{
    match answer {
        Answer::Done(_) | Answer::Seen(_) => 0,
        Answer::Unknown => -1,
        Answer::Inval => -2,
        Answer::Perm(_) => -3,
        Answer::Worn(..) => -100,
    }
}
