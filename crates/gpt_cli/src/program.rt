ghost use Rattle.std.specs.Prelude.{◌≡◌, ◌≢◌, ℕ, ◌+◌, ◌≤◌, ◌⊎◌, List, map, length, IfOk};
ghost use Rattle.std.specs.Io.KnownBytes.{Keeps, Consumes, IsAtEnd};
ghost use Rattle.gpt_io.specs.Counts.{Rose};
ghost use Rattle.gpt_cli.specs.Statuses.{code_of};
ghost use Rattle.gpt_cli.specs.Replies.{usage, Replies, RepliesToLoad};
ghost use Rattle.gpt_cli.specs.Races.{IsRace};
ghost use Rattle.gpt_cli.specs.Runs.{IsCommandOf, IsCommand, IsLoadOf, IsLoad, Delivers};
ghost use Rattle.gpt_cli.specs.declared.command.Command.{Command as TheCommand};
ghost use Rattle.gpt_cli.specs.declared.reply.Reply.{Reply as TheReply};
ghost use Rattle.gpt_cli.specs.declared.status.Status.TheVariants as status;

use crate::accepted::reply_to_prepared;
use crate::command::{Command, Request, request_of};
use crate::loaded::reply_to_load;
use crate::prepare::prepare;
use crate::refusal::refusal_text;
use crate::reply::Reply;
use crate::status::Status;
use gpt_io::{Sink, Source};
use gpt_stream::{INPUT_LIMIT, InputError, deliver, read_input};
use std::alloc::{AllocError, Global};

/// What is written where the words are no command.
const USAGE: &[u8] = b"usage: gpt_cli tables | play | race | load N\n";

/// The reply to the bytes that were read.
fn reply_to(alloc: Global, command: Command, bytes: Vec<u8>) -> Result<Reply, AllocError>
    ensures replies { IfOk result (λ reply. Replies command bytes.items reply) }
    ensures status { IfOk result (λ reply. (code_of reply.status ≢ code_of status.ReadFailed)
        × (code_of reply.status ≢ code_of status.NoMemory)) }
{
    match prepare(alloc, bytes) {
        Ok(prepared) => reply_to_prepared(alloc, command, prepared),
        Err(refusal) => refusal_text(alloc, &refusal),
    }
}

/// Writes the text and answers the status, or that a write failed.
pub(crate) fn send<K: Sink>(sink: &mut K, status: Status, text: &[u8]) -> Status
    ensures { Delivers (K.held sink.old) (K.held sink.new) (K.faults sink.old) (K.faults sink.new)
        (record { status = status; text = text.now }) (code_of result) }
{
    if deliver(sink, text) {
        status
    } else {
        Status::WriteFailed
    }
}

/// All that the program does but for `race`: reads an input, unless the words are a load, and writes its reply.
/// It waits for nobody and always returns. The answer is the code of a `Status`, which says what was
/// written.
pub fn still<S: Source, K: Sink>(alloc: Global, words: &[&str], source: &mut S, sink: &mut K) -> u8
    requires { ¬ IsRace (map (λ word. word.now) words.now) }
    // Words that are no command, and a load, read nothing.
    ensures usage { ¬ IsCommand (map (λ word. word.now) words.now)
        → ¬ IsLoad (map (λ word. word.now) words.now)
        → Delivers (K.held sink.old) (K.held sink.new)
        (K.faults sink.old) (K.faults sink.new) usage result }
    ensures unread { ¬ IsCommand (map (λ word. word.now) words.now)
        → Keeps (S.left source.old) (S.left source.new)
        × (S.faults source.new ≡ S.faults source.old) }

    // A load replies by its number alone.
    ensures load { (number : ℕ) → IsLoadOf (map (λ word. word.now) words.now) number
        → result ≢ code_of status.NoMemory
        → (reply : TheReply) × RepliesToLoad number reply
        × Delivers (K.held sink.old) (K.held sink.new)
        (K.faults sink.old) (K.faults sink.new) reply result }

    // Any other command replies to the bytes that it takes, which are all that are left or one more than
    // the limit.
    ensures reply { (command : TheCommand)
        → IsCommandOf (map (λ word. word.now) words.now) command
        → result ≢ code_of status.ReadFailed → result ≢ code_of status.NoMemory
        → (bytes : List ℕ) × (reply : TheReply)
        × Consumes (S.left source.old) (S.left source.new) bytes
        × ((length bytes ≡ INPUT_LIMIT + 1) ⊎ IsAtEnd (S.left source.new))
        × (S.faults source.new ≡ S.faults source.old)
        × Replies command bytes reply
        × Delivers (K.held sink.old) (K.held sink.new)
        (K.faults sink.old) (K.faults sink.new) reply result }

    // Where it has no reply, nothing is written, and a failed read is reported as one.
    ensures read_fault { result ≡ code_of status.ReadFailed
        → Rose (S.faults source.old) (S.faults source.new) }
    ensures memory { result ≡ code_of status.NoMemory
        → S.faults source.new ≡ S.faults source.old }
    ensures silent { (result ≡ code_of status.ReadFailed) ⊎ (result ≡ code_of status.NoMemory)
        → (IsCommand (map (λ word. word.now) words.now) ⊎ IsLoad (map (λ word. word.now) words.now))
        × Keeps (K.held sink.old) (K.held sink.new) × (K.faults sink.new ≡ K.faults sink.old) }
    ensures limit { (bytes : List ℕ) × (length bytes ≤ INPUT_LIMIT + 1)
        × Consumes (S.left source.old) (S.left source.new) bytes }
    ensures limit_number { INPUT_LIMIT ≡ 1048576 }
{
    let Some(request) = request_of(words) else {
        return send(sink, Status::Usage, USAGE).code();
    };
    let command = match request {
        Request::Read(command) => command,
        Request::Load(number) => {
            return match reply_to_load(alloc, number) {
                Ok(loaded) => send(sink, loaded.status, loaded.text.as_slice()).code(),
                Err(AllocError) => Status::NoMemory.code(),
            };
        }
    };
    match read_input(alloc, source) {
        Err(InputError::Fault) => Status::ReadFailed.code(),
        Err(InputError::Memory) => Status::NoMemory.code(),
        Ok(bytes) => match reply_to(alloc, command, bytes) {
            Ok(reply) => send(sink, reply.status, reply.text.as_slice()).code(),
            Err(AllocError) => Status::NoMemory.code(),
        },
    }
}
