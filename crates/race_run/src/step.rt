ghost use Rattle.std.specs.Prelude.{◌≡◌, ℕ};
ghost use Rattle.core_machine.specs.declared.caller.Caller.{Caller};
ghost use Rattle.race_run.specs.Turns.{HasActed};
ghost use Rattle.race_run.specs.InnerRule.{IsReady, opening_of};

use crate::rule::{FieldKey, NextAct, Running};
use crate::view::View;
use atomic_table::{Seat, Shared};
use shared_words::Act;

/// The next act of the one caller of a seat, made on the shared words, and what it answers.
pub(crate) fn act_on(
    shared: &Shared<u64, View, FieldKey, Running>,
    seat: &mut Seat<u64, View>,
    act: Act,
) -> u64
    requires seat { seat.old.table_id ≡ shared.now.table_id }
    requires ready { (c : ℕ) × (x : Caller)
        × IsReady shared.now.table_id.words (opening_of shared.now.key) seat.old.me.0 c x act }
    ensures seat { (seat.new.table_id ≡ seat.old.table_id) × (seat.new.id ≡ seat.old.id)
        × (seat.new.me.1 ≡ seat.old.me.1) }
    ensures acted { (c : ℕ) (x : Caller)
        → IsReady shared.now.table_id.words (opening_of shared.now.key) seat.old.me.0 c x act
        → HasActed (opening_of shared.now.key) c x result seat.old.me.0 seat.new.me.0 }
{
    match act {
        Act::Load(place) => shared.load::<NextAct>(seat, place),
        Act::Store(place, value) => {
            shared.store::<NextAct>(seat, place, value);
            0
        }
        Act::Or(place, value) => shared.fetch_or::<NextAct>(seat, place, value),
        Act::And(place, value) => shared.fetch_and::<NextAct>(seat, place, value),
    }
}
