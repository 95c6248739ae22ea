ghost use Rattle.std.specs.Prelude.{◌≤◌, map};
ghost use Rattle.tm_lines.specs.declared.limits.TheConstants.{MOST_BYTES};
ghost use Rattle.tm_mentor.specs.Answers.{HaveWatched};
ghost use Rattle.tm_mentor.specs.Outside.{input_of, output_of};
ghost use Rattle.tm_mentor.specs.RunCommand.{RunAnswers};
ghost use Rattle.tm_mentor.specs.Sources.{ReadsAtMost};

use crate::answers::Answer;
use crate::readings::{ReadError, read_exercise};
use crate::refusals::refuse;
use std::alloc::Global;
use tm_base::{MOST_CALLS, Rules};
use tm_outside::{Sink, Source};
use tm_session::alone;
use tm_watch::Watcher;

/// Runs the exercise whose text the source has, under these rules, and writes the rows of its alone run and the
/// last line.
pub(crate) fn run<S: Source, K: Sink>(
    alloc: Global,
    rules: Rules,
    source: &mut S,
    sink: &mut K,
    watchers: &mut Vec<Box<dyn Watcher>>,
) -> Answer
    requires limit { rules.limit ≤ MOST_CALLS }
    ensures answers { RunAnswers rules (record {
      source_before = input_of S.left S.fault_count source.old;
      source_after = input_of S.left S.fault_count source.new;
      sink_before = output_of K.written K.fault_count sink.old;
      sink_after = output_of K.written K.fault_count sink.new;
    }) result }
    ensures watched { HaveWatched (map (λ b. watch b) watchers.old.items) result (map (λ b. watch b) watchers.new.items) }
    ensures taken { ReadsAtMost MOST_BYTES (S.left source.old) (S.left source.new) }
    ensures source_never_falls { S.fault_count source.old ≤ S.fault_count source.new }
    ensures sink_never_falls { K.fault_count sink.old ≤ K.fault_count sink.new }
{
    match read_exercise(alloc, source) {
        Ok(exercise) => {
            match alone(
                alloc,
                &exercise,
                rules.schedule,
                rules.limit,
                sink,
                watchers,
            ) {
                Ok(finished) => Answer::Ran(finished),
                Err(_) => Answer::NoMemory,
            }
        }
        Err(ReadError::Refused(refusal)) => refuse(alloc, refusal, sink),
        Err(ReadError::NoMemory) => Answer::NoMemory,
    }
}
