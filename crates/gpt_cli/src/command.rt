ghost use Rattle.std.specs.Prelude.{◌≡◌, ◌≢◌, ◌<◌, ◌^◌, ℕ, map, Some, ◌↔◌, IfSome, IfNone};
ghost use Rattle.line_text.specs.Lines.{count};
ghost use Rattle.gpt_cli.specs.Runs.{IsCommandOf, IsLoadOf};
ghost use Rattle.gpt_cli.specs.declared.command.Command.{Command as TheCommand};
ghost use Rattle.gpt_cli.specs.declared.command.Request.TheVariants.{Read, Load};

use line_text::count_of;

/// What the program is to do with the scenario that it reads.
#[derive(Clone, Copy, Debug, PartialEq, Eq)]
pub enum Command {
    /// Writes the canonical tables.
    Tables,
    /// Runs the schedule on one thread.
    Play,
}

/// What the program is to do.
#[derive(Clone, Copy, Debug, PartialEq, Eq)]
pub enum Request {
    /// It reads a scenario.
    Read(Command),
    /// It reads nothing, and runs the scenario of this number on one thread.
    Load(u32),
}

/// The number of a load: a count of at most 4294967295.
fn load_number(word: &str) -> Option<u32>
    ensures found { IfSome result (λ number. (word.now ≡ count number) × (number < 2 ^ 32)) }
    ensures none { IfNone result ((number : ℕ) → number < 2 ^ 32 → word.now ≢ count number) }
{
    match count_of(word.as_bytes()) {
        Some(number) if number < 1 << 32 => Some(number as u32),
        _ => None,
    }
}

/// What the words ask for, if they are a command.
pub fn request_of(words: &[&str]) -> Option<Request>
    ensures command { (command : TheCommand)
        → (result ≡ Some (Read command)) ↔ IsCommandOf (map (λ word. word.now) words.now) command }
    ensures load { (number : ℕ)
        → (result ≡ Some (Load number)) ↔ IsLoadOf (map (λ word. word.now) words.now) number }
{
    match words {
        ["tables"] => Some(Request::Read(Command::Tables)),
        ["play"] => Some(Request::Read(Command::Play)),
        ["load", number] => match load_number(number) {
            Some(number) => Some(Request::Load(number)),
            None => None,
        },
        _ => None,
    }
}
