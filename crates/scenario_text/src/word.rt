ghost use Rattle.std.specs.Prelude.{◌≡◌, IfSome, IfNone};
ghost use Rattle.scenario_text.specs.declared.word.Word.{Word};
ghost use Rattle.scenario_text.specs.Faults.{word_text, word_of};

/// The settings of the head, in the order of their lines.
#[derive(Clone, Copy, Debug, PartialEq, Eq)]
pub enum Setting {
    Gpt,
    Space,
    Max,
    Locks,
    First,
    Ring,
    Tables,
    Base,
}

/// The words that begin lines.
#[derive(Clone, Copy, Debug, PartialEq, Eq)]
pub enum Word {
    Setting(Setting),
    Region,
    Agent,
    Delegate,
    Undelegate,
    Smc,
    Cpu,
    Look,
    Turn,
    Round,
    End,
}

/// The word of this text.
fn word_spelled(field: &[u8]) -> Option<Word>
    ensures found { IfSome result (λ word. field.now ≡ word_text word) }
    ensures none { IfNone result ((word : Word) → field.now ≡ word_text word → ⊥) }
{
    match field {
        b"look" => Some(Word::Look),
        b"turn" => Some(Word::Turn),
        b"round" => Some(Word::Round),
        b"delegate" => Some(Word::Delegate),
        b"undelegate" => Some(Word::Undelegate),
        b"smc" => Some(Word::Smc),
        b"region" => Some(Word::Region),
        b"agent" => Some(Word::Agent),
        b"cpu" => Some(Word::Cpu),
        b"end" => Some(Word::End),
        b"gpt" => Some(Word::Setting(Setting::Gpt)),
        b"space" => Some(Word::Setting(Setting::Space)),
        b"max" => Some(Word::Setting(Setting::Max)),
        b"locks" => Some(Word::Setting(Setting::Locks)),
        b"first" => Some(Word::Setting(Setting::First)),
        b"ring" => Some(Word::Setting(Setting::Ring)),
        b"tables" => Some(Word::Setting(Setting::Tables)),
        b"base" => Some(Word::Setting(Setting::Base)),
        _ => None,
    }
}

/// The word that a field is.
pub fn word_of_field(field: &[u8]) -> Option<Word>
    ensures { result ≡ word_of field.now }
{
    word_spelled(field)
}
