ghost use Rattle.std.specs.Prelude.{◌≡◌, ◌<◌, length, IfOk};
ghost use Rattle.scenario_text.specs.Spelling.{WellFormed};
ghost use Rattle.table_build.specs.Built.{tables_of};
ghost use Rattle.core_machine.specs.InnerPlay.{callers_from};
ghost use Rattle.core_machine.specs.InnerOpening.{AreStarting};
ghost use Rattle.core_machine.specs.Scenarios.{IsAccepted, first_map, first_words, geometry_of};
ghost use Rattle.race_run.specs.Passes.{AreOn, AreOpened};

use crate::field::{Field, Pass};
use core_machine::{Caller, callers, geometry_of};
use scenario_text::Scenario;
use std::alloc::{AllocError, Global};
use std::marker::Model;
use table_build::Tables;

/// Callers on their field, each with its pass.
#[derive(Drop)]
pub struct Opened {
    field: Field,
    passes: Vec<Pass>,
    callers: Vec<Caller>,
}

impl Model for Opened {
    ghost use Rattle.race_run.specs.Passes.{OpenedData, AreOn};

    ghost Value = { OpenedData };

    ghost view = { λ o. record {
      field = o.field;
      passes = o.passes.items;
      callers = o.callers.items;
    } };

    ghost invariant = { λ o. AreOn o.field o.passes.items o.callers.items };
}

impl Opened {
    /// The callers of a scenario on its built tables, before their first act, each with its pass. AllocError
    /// where the memory for the callers, the shared words or the passes isn't found.
    pub fn of_scenario(
        alloc: Global,
        scenario: &Scenario,
        tables: &Tables,
    ) -> Result<Opened, AllocError>
        requires wellformed { WellFormed scenario.now }
        requires accepted { IsAccepted scenario.now }
        requires built { tables.now ≡ tables_of scenario.now.setup scenario.now.regions }
        ensures callers { IfOk result (λ opened. opened.callers
            ≡ callers_from (geometry_of scenario.now) 0 scenario.now.scripts) }
        ensures opening { IfOk result (λ opened. opened.field.opening ≡ record {
          geometry = geometry_of scenario.now;
          words = first_words scenario.now;
          callers = opened.callers;
        }) }
        ensures starting { IfOk result (λ opened. AreStarting opened.field.opening.geometry
            (first_map scenario.now) opened.field.opening.words) }
        ensures passes { IfOk result
            (λ opened. AreOpened opened.field opened.passes opened.callers) }
    {
        let geometry = geometry_of(scenario, tables);
        // The number of level 1 words is that of the geometry.
        let _words = tables.l1();
        let callers = callers(alloc, scenario, geometry)?;
        let (field, passes) = Field::open(alloc, geometry, tables, &callers)?;
        Ok(Opened {
            field,
            passes,
            callers,
        })
    }

    /// The callers, as they are now.
    pub fn callers(&self) -> &[Caller]
        ensures { result.now ≡ self.now.callers }
    {
        self.callers.as_slice()
    }

    /// The field, the passes and the callers, in their order.
    pub fn into_parts(self) -> (Field, Vec<Pass>, Vec<Caller>)
        ensures field { result.0 ≡ self.field }
        ensures passes { result.1.items ≡ self.passes }
        ensures callers { result.2.items ≡ self.callers }
        ensures on { AreOn result.0 result.1.items result.2.items }
    {
        (self.field, self.passes, self.callers)
    }

    /// A turn of a caller, by its pass.
    pub(crate) fn turn(&mut self, caller: usize)
        requires { caller < length self.old.callers }
        ensures field { self.new.field ≡ self.old.field }
        ensures many { length self.new.callers ≡ length self.old.callers }
    {
        self.field
            .turn(&mut self.passes[caller], &mut self.callers[caller]);
    }
}

#[cfg(test)]
impl Opened {
    /// The field.
    pub fn field(&self) -> &Field
        ensures { result.now ≡ self.now.field }
    {
        &self.field
    }
}
