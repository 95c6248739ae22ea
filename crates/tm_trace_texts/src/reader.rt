ghost use Rattle.std.specs.Prelude.{IfErr, IfOk};
ghost use Rattle.tm_trace_texts.specs.TraceFaults.{IsRefusal};
ghost use Rattle.tm_trace_texts.specs.TraceTexts.{IsTraceText};

use crate::event_reader::read_events;
use crate::limits::MOST_TRACE_BYTES;
use crate::parts::Parts;
use crate::trace_faults::TraceFault;
use std::alloc::Global;
use tm_lines::Fault;
use tm_text::read;
use tm_trace::Trace;

/// The trace of the text. Otherwise the first thing that is wrong with it: it is too long; none of its lines is
/// `trace`; the exercise before the first such line is too long or has a faulty line; or a line behind it, which is
/// no line to be passed over, says no event. `NoMemory` only where memory runs out.
pub fn read_trace(alloc: Global, bytes: &[u8]) -> Result<Trace, TraceFault>
    ensures read { IfOk result (λ trace. IsTraceText bytes.now trace.exercise trace.entries) }
    ensures refused { IfErr result (IsRefusal bytes.now) }
{
    if MOST_TRACE_BYTES < bytes.len() {
        return Err(TraceFault::Line {
            line: 0,
            kind: Fault::Size,
        });
    }
    match Parts::of_text(bytes) {
        Err(lines) => Err(TraceFault::NoTraceLine { lines }),
        Ok(parts) => {
            let exercise = read(alloc, parts.exercise)?;
            let entries = read_events(alloc, &exercise, parts.number, parts.events)?;
            Ok(Trace::make(exercise, entries))
        }
    }
}
