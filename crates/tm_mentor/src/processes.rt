ghost use Rattle.std.specs.Prelude.{◌≡◌, ◌↔◌, drop, IfErr, IfOk, IsErr};
ghost use Rattle.std.specs.IoError.{error_kind};
ghost use Rattle.std.specs.Process.{exit_status};
ghost use Rattle.std.specs.Vec.Iter.{into_iter_items};
ghost use Rattle.std.specs.declared.io.ErrorKind.TheVariants.{OutOfMemory};
ghost use Rattle.tm_mentor.specs.Outside.{input_of, output_of};
ghost use Rattle.tm_mentor.specs.Processes.{words_of, process_status, EndsProcess};

use crate::outcomes::Outcome;
use crate::top_calls::mentor_alone;
use std::alloc::Global;
use std::env::Args;
use std::io;
use std::io::ErrorKind;
use std::process::ExitCode;
use tm_base::NoMemory;
use tm_outside::{Sink, Source};
use tm_watch::Watcher;

/// Does what a process's arguments say, as `std::env::args` hands them out, and answers the status that
/// the process ends with.
pub fn run_process<S: Source, K: Sink>(
    alloc: Global,
    arguments: io::Result<Args>,
    source: &mut S,
    sink: &mut K,
    watchers: &mut Vec<Box<dyn Watcher>>,
) -> ExitCode
    ensures { EndsProcess (words_of arguments) (record {
      source_before = input_of S.left S.fault_count source.old;
      source_after = input_of S.left S.fault_count source.new;
      sink_before = output_of K.written K.fault_count sink.old;
      sink_after = output_of K.written K.fault_count sink.new;
    })
        (exit_status result) }
{
    match command_words(alloc, arguments) {
        Ok(words) => exit_code(Ok(mentor_alone(alloc, words.as_slice(), source, sink, watchers))),
        Err(NoMemory) => exit_code(Err(NoMemory)),
    }
}

/// The words of a command line: a process's arguments after the first, which is the program's name.
/// Where one of them is no text there are no words, so that the command is refused. `NoMemory` only
/// where memory runs out, here or before.
pub fn command_words(alloc: Global, arguments: io::Result<Args>) -> Result<Vec<String>, NoMemory>
    ensures words { IfOk result (λ words. words.items ≡ words_of arguments) }
    ensures without_arguments { IfErr arguments (λ error. IsErr result ↔ (error_kind error ≡ OutOfMemory)) }
{
    match arguments {
        Ok(arguments) => after_first(alloc, arguments),
        Err(error) if error.kind() == ErrorKind::OutOfMemory => Err(NoMemory),
        Err(_) => Ok(Vec::new(alloc)),
    }
}

/// The arguments after the first.
fn after_first(alloc: Global, mut arguments: Args) -> Result<Vec<String>, NoMemory>
    ensures { IfOk result (λ words. words.items ≡ drop 1 (into_iter_items arguments)) }
{
    let _name = arguments.next();
    let mut words = Vec::new(alloc);
    for word in arguments {
        words.push(word)?;
    }
    Ok(words)
}

/// The status that a process ends with: the outcome's, or 9 where memory ran out before there were
/// words.
pub fn exit_code(outcome: Result<Outcome, NoMemory>) -> ExitCode
    ensures { exit_status result ≡ process_status outcome }
{
    match outcome {
        Ok(outcome) => ExitCode::from(outcome.status),
        Err(NoMemory) => ExitCode::from(9),
    }
}
