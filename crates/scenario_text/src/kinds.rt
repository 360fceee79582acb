ghost use Rattle.std.specs.Prelude.{◌≡◌, ◌≤◌, IfOk};
ghost use Rattle.line_text.specs.InnerRows.{kind_in, fields_left, FitsPrefix, ok_padded, read_row};
ghost use Rattle.scenario_text.specs.Faults.{setting_kind, kinds_of};

use crate::context::Context;
use crate::forming::TURN_LIMIT;
use crate::word::{Setting, Word};
use gpt_descriptors::{GEN_LAST, REGION_BYTES};
use line_text::{FieldKind, Range, RowFault, row};

const ADDRESS: FieldKind = FieldKind::Address(Range::Any);

const TURNS: FieldKind = FieldKind::Count(Range::Between(1, TURN_LIMIT));

const KIND: FieldKind = FieldKind::Name(&["block", "granule"]);

const GPI: FieldKind = FieldKind::Name(&["none", "secure", "nonsecure", "root", "realm", "any"]);

const SPACE: FieldKind = FieldKind::Name(&["secure", "nonsecure", "root", "realm"]);

const SOURCE: FieldKind = FieldKind::Name(&["realm", "secure"]);

const WORLD: FieldKind = FieldKind::Name(&["realm", "secure", "nonsecure"]);

const VERB: FieldKind = FieldKind::Name(&["delegate", "undelegate"]);

static REGION: [FieldKind; 4] = [ADDRESS, ADDRESS, KIND, GPI];

static CALL: [FieldKind; 2] = [ADDRESS, SOURCE];

static MONITOR_CALL: [FieldKind; 3] = [VERB, ADDRESS, WORLD];

static ROUND: [FieldKind; 2] = [TURNS, TURNS];

/// What the value of a setting has to be.
fn setting_kind(setting: Setting) -> FieldKind
    ensures { kind_in result ≡ setting_kind setting }
{
    match setting {
        Setting::Gpt => FieldKind::Count(Range::Among(&[1])),
        Setting::Space => FieldKind::Count(Range::Among(&[4, 64])),
        Setting::Max => FieldKind::Count(Range::Among(&[0, 2, 32, 512])),
        Setting::Locks => FieldKind::Count(Range::Among(&[0, 1, 2, 4, 8])),
        Setting::First => FieldKind::Count(Range::Between(0, GEN_LAST)),
        Setting::Ring => FieldKind::Count(Range::Between(1, 64)),
        Setting::Tables => FieldKind::Count(Range::Between(0, 16)),
        Setting::Base => ADDRESS,
    }
}

/// The values of the fields after a word, which are of these kinds.
pub fn values_of(context: Context, word: Word, rest: Option<&[u8]>) -> Result<[u64; 4], RowFault>
    requires { context.gigabytes ≤ 64 }
    ensures read { result ≡ ok_padded (read_row (kinds_of context word) (fields_left rest.entry)) }
    ensures fits { IfOk result (λ values. FitsPrefix (kinds_of context word) values) }
{
    match word {
        Word::Setting(setting) => row(&[setting_kind(setting)], rest),
        Word::Region => row(&REGION, rest),
        Word::Delegate | Word::Undelegate => row(&CALL, rest),
        Word::Smc => row(&MONITOR_CALL, rest),
        Word::Look => {
            let space = Range::Below(context.gigabytes * REGION_BYTES);
            row(&[FieldKind::Address(space), SPACE], rest)
        }
        Word::Turn => {
            let callers = Range::Below(context.callers);
            row(&[FieldKind::Count(callers), TURNS], rest)
        }
        Word::Round => row(&ROUND, rest),
        Word::Agent | Word::Cpu | Word::End => row(&[], rest),
    }
}
