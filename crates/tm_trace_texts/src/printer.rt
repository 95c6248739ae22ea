ghost use Rattle.std.specs.Prelude.{◌≡◌, ◌≤◌, ◌++◌, IfOk, OnOk, length};
ghost use Rattle.tm_lines.specs.declared.limits.TheConstants.{MOST_BYTES};
ghost use Rattle.tm_event_lines.specs.EventTexts.{HasLongValues};
ghost use Rattle.tm_text.specs.CanonicalTexts.{canonical_text};
ghost use Rattle.tm_timeline.specs.TraceableEvents.{IsTraceable};
ghost use Rattle.tm_trace_texts.specs.PrintedTraces.{event_line, trace_text};
ghost use Rattle.tm_trace_texts.specs.TraceTexts.{IsTraceText};

use crate::limits::MOST_TRACE_BYTES;
use std::alloc::Global;
use tm_base::{Bytes, Entry, NoMemory};
use tm_event_lines::event_texts_read_back;
use tm_text::{Exercise, print};
use tm_timeline::append_event;
use tm_trace::Trace;

/// The text of the trace: the canonical text of its exercise, the line `trace`, and the text of each event with LF,
/// in the order of the trace. It reads as the same trace, where neither it nor the text of its exercise is longer
/// than it may be. `NoMemory` only where memory runs out.
pub fn print_trace(alloc: Global, trace: &Trace) -> Result<Bytes, NoMemory>
    ensures text { IfOk result (λ bytes. bytes ≡ trace_text trace.now.exercise trace.now.entries) }
    ensures reads_back { IfOk result (λ bytes.
        length bytes ≤ MOST_TRACE_BYTES → length (canonical_text trace.now.exercise) ≤ MOST_BYTES
        → IsTraceText bytes trace.now.exercise trace.now.entries) }
{
    // That the text of each event is read back is known from this call, and what holds of every exercise from the next.
    event_texts_read_back();
    let exercise = trace.exercise();
    let _threads = exercise.threads();
    let mut out = print(alloc, exercise)?.into_vec();
    out.extend_from_slice(b"trace\n")?;
    for entry in trace.entries() {
        append_line(&mut out, exercise, *entry)?;
    }
    Ok(Bytes::from_vec(out))
}

/// Appends the event's text and LF.
fn append_line(out: &mut Vec<u8>, exercise: &Exercise, entry: Entry) -> Result<(), NoMemory>
    requires { IsTraceable exercise.now entry }
    ensures text { OnOk result (out.new.items ≡ out.old.items ++ event_line exercise.now entry) }
    ensures long { HasLongValues entry }
{
    append_event(out, exercise, &entry)?;
    out.push(b'\n')?;
    Ok(())
}
