//! The program: reads a scenario from standard input, or makes one from a number, and writes its
//! report to standard output.
#![tactic(auto)]

mod accepted;
mod command;
#[cfg(test)]
mod held;
mod loaded;
mod prepare;
mod program;
mod raced;
mod refusal;
mod reply;
mod status;
#[cfg(test)]
mod tests;
mod top;

use gpt_io::{StdSink, StdSource};
pub use program::still;
use race_run::OpenGate;
pub use reply::Reply;
pub use status::Status;
use std::alloc::{AllocError, Global};
use std::env;
use std::io::{ErrorKind, Read, Write};
use std::process::ExitCode;
use std::sync::Wait;
use std::thread::Threads;
pub use top::top;

/// The words after the program's name. A word that isn't UTF-8 counts as no words at all.
///
/// They are pushed, since `collect` goes on where its first room is refused.
fn words(rt: &HostRuntime, alloc: Global) -> Result<Vec<String>, AllocError> {
    match env::args(rt) {
        Ok(arguments) => {
            let mut words = Vec::new(alloc);
            for word in arguments.skip(1) {
                words.push(word)?;
            }
            Ok(words)
        }
        Err(error) if error.kind() == ErrorKind::OutOfMemory => Err(AllocError),
        Err(_) => Ok(Vec::new(alloc)),
    }
}

/// Runs the program over these streams.
fn run<R: Threads + Wait + Sync, I: Read + Drop, O: Write + Drop>(
    rt: &R,
    alloc: Global,
    words: &[String],
    input: I,
    output: O,
) -> Result<u8, AllocError> {
    let mut texts = Vec::new(alloc);
    for word in words {
        texts.push(word.as_str())?;
    }
    let mut source = StdSource::new(input);
    let mut sink = StdSink::new(output);
    Ok(top(rt, alloc, &texts, &mut source, &mut sink, &OpenGate))
}

fn main(rt: HostRuntime) -> ExitCode {
    let alloc = rt.alloc();
    let Ok(words) = words(&rt, alloc) else {
        return ExitCode::from(Status::NoMemory.code());
    };
    let code = run(&rt, alloc, &words, rt.stdin(), rt.stdout());
    ExitCode::from(code.unwrap_or(Status::NoMemory.code()))
}
