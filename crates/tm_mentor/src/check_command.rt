ghost use Rattle.std.specs.Prelude.{◌≤◌, List};
ghost use Rattle.tm_trace_texts.specs.declared.limits.TheConstants.{MOST_TRACE_BYTES};
ghost use Rattle.tm_watch.specs.Watchers.{Watch};
ghost use Rattle.tm_mentor.specs.Answers.{HaveWatched};
ghost use Rattle.tm_mentor.specs.CheckCommand.{CheckAnswers, JudgeAnswers};
ghost use Rattle.tm_mentor.specs.Outside.{input_of, output_of};
ghost use Rattle.tm_mentor.specs.Sources.{ReadsAtMost};

use crate::answers::Answer;
use crate::readings::{ReadError, read_recorded};
use crate::refusals::{refuse, send_lines};
use std::alloc::Global;
use tm_base::NoMemory;
use tm_legal_rows::write_legal;
use tm_outside::{Sink, Source};
use tm_refusal_lines::refusal_lines;
use tm_trace::{JudgeFault, Trace, judge};

/// Judges the trace whose text the source has. Where some order of its events is a legal run it writes the rows of
/// the one by rising stamp and then thread number, and `legal` with their number; else three lines that say why.
pub(crate) fn check<S: Source, K: Sink>(alloc: Global, source: &mut S, sink: &mut K) -> Answer
    ensures answers { CheckAnswers (record {
      source_before = input_of S.left S.fault_count source.old;
      source_after = input_of S.left S.fault_count source.new;
      sink_before = output_of K.written K.fault_count sink.old;
      sink_after = output_of K.written K.fault_count sink.new;
    }) result }
    ensures untold { (ws : List Watch) → HaveWatched ws result ws }
    ensures taken { ReadsAtMost MOST_TRACE_BYTES (S.left source.old) (S.left source.new) }
    ensures source_never_falls { S.fault_count source.old ≤ S.fault_count source.new }
    ensures sink_never_falls { K.fault_count sink.old ≤ K.fault_count sink.new }
{
    match read_recorded(alloc, source) {
        Ok(trace) => judged(alloc, &trace, sink),
        Err(ReadError::Refused(refusal)) => refuse(alloc, refusal, sink),
        Err(ReadError::NoMemory) => Answer::NoMemory,
    }
}

/// Judges the trace, and sends its rows, or why it isn't legal.
fn judged<K: Sink>(alloc: Global, trace: &Trace, sink: &mut K) -> Answer
    ensures answers { JudgeAnswers trace.now.exercise trace.now.entries (output_of K.written K.fault_count sink.old)
        (output_of K.written K.fault_count sink.new) result }
    ensures untold { (ws : List Watch) → HaveWatched ws result ws }
    ensures never_falls { K.fault_count sink.old ≤ K.fault_count sink.new }
{
    match judge(alloc, trace) {
        Ok(order) => match write_legal(alloc, trace.exercise(), order.as_slice(), sink) {
            Ok(write_fault) => Answer::Wrote { write_fault },
            Err(NoMemory) => Answer::NoMemory,
        },
        Err(JudgeFault::NoMemory) => Answer::NoMemory,
        Err(fault) => match refusal_lines(alloc, trace, &fault) {
            Ok(lines) => Answer::Illegal {
                write_fault: send_lines(sink, lines.as_slice()),
            },
            Err(NoMemory) => Answer::NoMemory,
        },
    }
}
