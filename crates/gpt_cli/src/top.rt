ghost use Rattle.std.specs.Prelude.{◌≡◌, ◌≢◌, ℕ, ◌+◌, ◌≤◌, ◌⊎◌, ◌↔◌, List, map, length, IsTrue};
ghost use Rattle.std.specs.Io.KnownBytes.{Keeps, Consumes, IsAtEnd};
ghost use Rattle.gpt_io.specs.Counts.{Rose};
ghost use Rattle.gpt_cli.specs.Statuses.{code_of};
ghost use Rattle.gpt_cli.specs.Replies.{usage, Replies, RepliesToLoad};
ghost use Rattle.gpt_cli.specs.Races.{IsRace, Races};
ghost use Rattle.gpt_cli.specs.Runs.{IsCommandOf, IsCommand, IsLoadOf, IsLoad, Delivers};
ghost use Rattle.gpt_cli.specs.declared.command.Command.{Command as TheCommand};
ghost use Rattle.gpt_cli.specs.declared.reply.Reply.{Reply as TheReply};
ghost use Rattle.gpt_cli.specs.declared.status.Status.TheVariants as status;

use crate::program::{send, still};
use crate::raced::reply_to_race;
use crate::status::Status;
use gpt_io::{Sink, Source};
use gpt_stream::{INPUT_LIMIT, InputError, read_input};
use race_run::Gate;
use std::alloc::{AllocError, Global};
use std::sync::Wait;
use std::thread::Threads;

/// Whether the words are `race` alone.
fn is_race(words: &[&str]) -> bool
    ensures { IsTrue result ↔ IsRace (map (λ word. word.now) words.now) }
{
    matches!(words, ["race"])
}

/// Reads a scenario, runs its callers beside each other and writes the report.
fn run_race<R: Threads + Wait + Sync, S: Source, K: Sink, G: Gate + Sync>(
    rt: &R,
    alloc: Global,
    source: &mut S,
    sink: &mut K,
    gate: &G,
) -> u8
    ensures reply { result ≢ code_of status.ReadFailed → result ≢ code_of status.NoMemory
        → (bytes : List ℕ) × (reply : TheReply)
        × Consumes (S.left source.old) (S.left source.new) bytes
        × ((length bytes ≡ INPUT_LIMIT + 1) ⊎ IsAtEnd (S.left source.new))
        × (S.faults source.new ≡ S.faults source.old)
        × Races bytes reply
        × Delivers (K.held sink.old) (K.held sink.new)
        (K.faults sink.old) (K.faults sink.new) reply result }
    ensures read_fault { result ≡ code_of status.ReadFailed
        → Rose (S.faults source.old) (S.faults source.new) }
    ensures memory { result ≡ code_of status.NoMemory
        → S.faults source.new ≡ S.faults source.old }
    ensures silent { (result ≡ code_of status.ReadFailed) ⊎ (result ≡ code_of status.NoMemory)
        → Keeps (K.held sink.old) (K.held sink.new) × (K.faults sink.new ≡ K.faults sink.old) }
    ensures limit { (bytes : List ℕ) × (length bytes ≤ INPUT_LIMIT + 1)
        × Consumes (S.left source.old) (S.left source.new) bytes }
{
    match read_input(alloc, source) {
        Err(InputError::Fault) => Status::ReadFailed.code(),
        Err(InputError::Memory) => Status::NoMemory.code(),
        Ok(bytes) => match reply_to_race(rt, alloc, bytes, gate) {
            Ok(reply) => send(sink, reply.status, reply.text.as_slice()).code(),
            Err(AllocError) => Status::NoMemory.code(),
        },
    }
}

/// All that the shipped program does. Every command but `race` is done by `still`, with its clauses; `race`
/// runs the callers of a scenario beside each other, and may wait. The answer is the code of a `Status`,
/// which says what was written.
pub fn top<R: Threads + Wait + Sync, S: Source, K: Sink, G: Gate + Sync>(
    rt: &R,
    alloc: Global,
    words: &[&str],
    source: &mut S,
    sink: &mut K,
    gate: &G,
) -> u8
    // The headline: what `race` writes is the report of one legal history.
    ensures race { IsRace (map (λ word. word.now) words.now)
        → result ≢ code_of status.ReadFailed → result ≢ code_of status.NoMemory
        → (bytes : List ℕ) × (reply : TheReply)
        × Consumes (S.left source.old) (S.left source.new) bytes
        × ((length bytes ≡ INPUT_LIMIT + 1) ⊎ IsAtEnd (S.left source.new))
        × (S.faults source.new ≡ S.faults source.old)
        × Races bytes reply
        × Delivers (K.held sink.old) (K.held sink.new)
        (K.faults sink.old) (K.faults sink.new) reply result }

    // The other commands, and words that are none, as `still` says.
    ensures usage { ¬ IsCommand (map (λ word. word.now) words.now)
        → ¬ IsLoad (map (λ word. word.now) words.now)
        → ¬ IsRace (map (λ word. word.now) words.now)
        → Delivers (K.held sink.old) (K.held sink.new)
        (K.faults sink.old) (K.faults sink.new) usage result }
    ensures unread { ¬ IsCommand (map (λ word. word.now) words.now)
        → ¬ IsRace (map (λ word. word.now) words.now)
        → Keeps (S.left source.old) (S.left source.new)
        × (S.faults source.new ≡ S.faults source.old) }
    ensures load { (number : ℕ) → IsLoadOf (map (λ word. word.now) words.now) number
        → result ≢ code_of status.NoMemory
        → (reply : TheReply) × RepliesToLoad number reply
        × Delivers (K.held sink.old) (K.held sink.new)
        (K.faults sink.old) (K.faults sink.new) reply result }
    ensures reply { (command : TheCommand)
        → IsCommandOf (map (λ word. word.now) words.now) command
        → result ≢ code_of status.ReadFailed → result ≢ code_of status.NoMemory
        → (bytes : List ℕ) × (reply : TheReply)
        × Consumes (S.left source.old) (S.left source.new) bytes
        × ((length bytes ≡ INPUT_LIMIT + 1) ⊎ IsAtEnd (S.left source.new))
        × (S.faults source.new ≡ S.faults source.old)
        × Replies command bytes reply
        × Delivers (K.held sink.old) (K.held sink.new)
        (K.faults sink.old) (K.faults sink.new) reply result }

    // Where it has no reply, nothing is written, and a failed read is reported as one.
    ensures read_fault { result ≡ code_of status.ReadFailed
        → Rose (S.faults source.old) (S.faults source.new) }
    ensures memory { result ≡ code_of status.NoMemory
        → S.faults source.new ≡ S.faults source.old }
    ensures silent { (result ≡ code_of status.ReadFailed) ⊎ (result ≡ code_of status.NoMemory)
        → (IsCommand (map (λ word. word.now) words.now)
        ⊎ (IsLoad (map (λ word. word.now) words.now) ⊎ IsRace (map (λ word. word.now) words.now)))
        × Keeps (K.held sink.old) (K.held sink.new) × (K.faults sink.new ≡ K.faults sink.old) }
    ensures limit { (bytes : List ℕ) × (length bytes ≤ INPUT_LIMIT + 1)
        × Consumes (S.left source.old) (S.left source.new) bytes }
    ensures limit_number { INPUT_LIMIT ≡ 1048576 }
{
    if is_race(words) {
        run_race(rt, alloc, source, sink, gate)
    } else {
        still(alloc, words, source, sink)
    }
}
