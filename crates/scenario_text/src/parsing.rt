ghost use Rattle.std.specs.Prelude.{◌≡◌, List, [], IfOk, MatchResult, None};
ghost use Rattle.scenario_text.specs.declared.scenario.Scenario.{Scenario};
ghost use Rattle.scenario_text.specs.declared.scenario.TextError.TheVariants.{Memory};
ghost use Rattle.scenario_text.specs.Spelling.{WellFormed, text_of};
ghost use Rattle.scenario_text.specs.Faults.{first_bad, rest_fault, IsFault};
ghost use Rattle.scenario_text.specs.InnerReading.{Reads, unless, read_all};
ghost use Rattle.scenario_text.specs.InnerDrafts.{nothing_read, scenario_with};

use crate::context::{Context, Place};
use crate::draft::Draft;
use crate::reading::line_of;
use crate::scenario::{Fault, Scenario, TextError};
use line_text::next_line;
use std::alloc::Global;

/// Whether the text may end here, with these bytes after its last line feed.
fn end(place: Place, number: u64, rest: &[u8]) -> Result<(), TextError>
    ensures { Reads (λ x. []) result (unless (rest_fault place number rest.now)) }
{
    match place {
        Place::Ended if rest.is_empty() => Ok(()),
        Place::Ended => Err(TextError::Line(number, Fault::After)),
        _ => Err(TextError::Line(number, Fault::End)),
    }
}

/// The scenario of a text, line by line.
fn scenario(alloc: Global, bytes: &[u8]) -> Result<Scenario, TextError>
    ensures { Reads (λ s. s) result (scenario_with nothing_read (read_all bytes.now)) }
{
    let mut draft = Draft::new(alloc);
    let mut context = Context::START;
    let mut number = 1;
    let mut rest = bytes;
    while let Some((line, more)) = next_line(rest) {
        let said = match line_of(context, line) {
            Ok(said) => said,
            Err(fault) => return Err(TextError::Line(number, fault)),
        };
        draft.take(alloc, said)?;
        context = context.after(said);
        number += 1;
        rest = more;
    }
    end(context.place, number, rest)?;
    Ok(draft.finish())
}

/// The scenario that a text is of, or the first bad line with its fault. Time is linear in the
/// text, and memory is taken for what the scenario holds alone.
pub fn parse(alloc: Global, bytes: &[u8]) -> Result<Scenario, TextError>
    // What is read has this text.
    ensures text { IfOk result (λ s. WellFormed s × (bytes.now ≡ text_of s)) }
    // What has this text is read, unless memory runs out.
    ensures only { (s : Scenario) → WellFormed s → bytes.now ≡ text_of s
        → MatchResult result (λ r. r ≡ s) (λ e. e ≡ TextError.Memory) }
    // The first bad line, and its fault.
    ensures fault { MatchResult result (λ _. first_bad bytes.now ≡ None)
        (λ e. IsFault e (first_bad bytes.now)) }
{
    scenario(alloc, bytes)
}
