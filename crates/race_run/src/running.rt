ghost use Rattle.std.specs.Prelude.{◌≡◌, ◌++◌, ℕ, List, None};
ghost use Rattle.history.specs.declared.entry.Entry.{Entry};
ghost use Rattle.core_machine.specs.InnerCallers.{caller_next};
ghost use Rattle.race_run.specs.Passes.{IsPassOf};

use crate::field::{Field, Pass};
use crate::gate::Gate;
use core_machine::Caller;
use crossbeam_utils::Backoff;
use std::sync::Wait;

impl Field {
    /// Turns of a caller until it has no act. After a turn that left it waiting it pauses for a moment. It may wait
    /// for other callers. The pass and the caller are as for `turn`; the gate is given `number`.
    pub fn run<R: Wait, G: Gate>(
        &self,
        rt: &R,
        number: u32,
        pass: &mut Pass,
        caller: &mut Caller,
        gate: &G,
    )
        requires pass { (c : ℕ) × IsPassOf self.now pass.old c caller.old }
        ensures same { (pass.new.id ≡ pass.old.id) × (pass.new.number ≡ pass.old.number) }
        ensures seen { (rest : List Entry) × (pass.new.view.seen ≡ pass.old.view.seen ++ rest) }
        ensures pass { (c : ℕ) → IsPassOf self.now pass.old c caller.old
            → IsPassOf self.now pass.new c caller.new }
        ensures ended { caller_next caller.new ≡ None }
    {
        let pause = Backoff::new();
        let mut acts = 0u32;
        for _ in rt.forever() {
            let Some(act) = caller.next() else {
                return;
            };
            let call = caller.answers().len();
            if acts == 0 {
                gate.before(number, u32::try_from(call).unwrap_or(u32::MAX));
            }
            self.make(pass, caller, act);
            acts = acts.saturating_add(1);
            gate.between(number, acts);
            if caller.waits() {
                pause.snooze();
                continue;
            }
            pause.reset();
            if caller.answers().len() > call {
                acts = 0;
            }
        }
    }
}
