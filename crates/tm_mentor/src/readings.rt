ghost use Rattle.std.specs.Prelude.{◌≡◌, ◌≤◌, MatchResult};
ghost use Rattle.tm_mentor.specs.CheckCommand.{HasNoTrace, HasTrace};
ghost use Rattle.tm_mentor.specs.Outside.{input_of};
ghost use Rattle.tm_mentor.specs.RunCommand.{HasExercise, HasNoExercise};
ghost use Rattle.tm_mentor.specs.Sources.{IsReadError, ReadsAtMost, read_error};

use crate::refusals::Refusal;
use std::alloc::Global;
use tm_lines::{FaultyLine, MOST_BYTES};
use tm_outside::{ReadFault, Source, read_all};
use tm_text::{Exercise, TextFault, read};
use tm_trace::Trace;
use tm_trace_texts::{MOST_TRACE_BYTES, TraceFault, read_trace};

/// Why no text was read.
#[derive(Clone, Copy, Debug, PartialEq, Eq)]
pub(crate) enum ReadError {
    /// The command is refused.
    Refused(Refusal),
    /// Memory ran out.
    NoMemory,
}

impl From<ReadFault> for ReadError {
    ghost from_gives = { λ fault error. error ≡ read_error fault };

    fn from(fault: ReadFault) -> ReadError {
        match fault {
            ReadFault::Failed => ReadError::Refused(Refusal::ReadFault),
            ReadFault::NoMemory => ReadError::NoMemory,
        }
    }
}

/// The exercise whose text the source has.
pub(crate) fn read_exercise<S: Source>(alloc: Global, source: &mut S) -> Result<Exercise, ReadError>
    ensures found { MatchResult result
        (λ exercise. HasExercise (input_of S.left S.fault_count source.old) (input_of S.left S.fault_count source.new) exercise)
        (λ error. IsReadError MOST_BYTES HasNoExercise error (input_of S.left S.fault_count source.old)
        (input_of S.left S.fault_count source.new)) }
    ensures taken { ReadsAtMost MOST_BYTES (S.left source.old) (S.left source.new) }
    ensures never_falls { S.fault_count source.old ≤ S.fault_count source.new }
{
    let bytes = read_all(alloc, source, MOST_BYTES as u64)?;
    match read(alloc, bytes.as_slice()) {
        Ok(exercise) => Ok(exercise),
        Err(TextFault::Line { line, kind }) => {
            Err(ReadError::Refused(Refusal::Text(FaultyLine { line, kind })))
        }
        Err(TextFault::NoMemory) => Err(ReadError::NoMemory),
    }
}

/// The trace whose text the source has.
pub(crate) fn read_recorded<S: Source>(alloc: Global, source: &mut S) -> Result<Trace, ReadError>
    ensures found { MatchResult result
        (λ trace. HasTrace (input_of S.left S.fault_count source.old) (input_of S.left S.fault_count source.new)
        trace.exercise trace.entries)
        (λ error. IsReadError MOST_TRACE_BYTES HasNoTrace error (input_of S.left S.fault_count source.old)
        (input_of S.left S.fault_count source.new)) }
    ensures taken { ReadsAtMost MOST_TRACE_BYTES (S.left source.old) (S.left source.new) }
    ensures never_falls { S.fault_count source.old ≤ S.fault_count source.new }
{
    let bytes = read_all(alloc, source, MOST_TRACE_BYTES as u64)?;
    match read_trace(alloc, bytes.as_slice()) {
        Ok(trace) => Ok(trace),
        Err(TraceFault::Line { line, kind }) => {
            Err(ReadError::Refused(Refusal::Text(FaultyLine { line, kind })))
        }
        Err(TraceFault::NoTraceLine { lines }) => {
            Err(ReadError::Refused(Refusal::NoTrace { line: lines + 1 }))
        }
        Err(TraceFault::NoMemory) => Err(ReadError::NoMemory),
    }
}
