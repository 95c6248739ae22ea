ghost use Rattle.std.specs.Prelude.{◌≡◌, ◌++◌, IfOk, OnOk, codes};
ghost use Rattle.tm_refusal_lines.specs.KnownNames.{IsCauseOf, IsFaultOf, IsHoldOf, IsIllegalOf, IsPlaceOf, IsRefusedOf};
ghost use Rattle.tm_refusal_lines.specs.RefusalTexts.{expected_text, held_text, illegal_text, line_of, pair_text, place_text, refusal_text, refused_text};
ghost use Rattle.tm_timeline.specs.Rows.{event_text};
ghost use Rattle.tm_timeline.specs.TraceableEvents.{IsTraceable};
ghost use Rattle.tm_trace.specs.Judging.{IsFault};

use crate::expected::{append_expected, append_place};
use std::alloc::Global;
use tm_base::{Bytes, Entry, NoMemory};
use tm_joint::{Cause, Illegal};
use tm_merge::{Hold, Missing, Refused};
use tm_text::Exercise;
use tm_timeline::append_event;
use tm_trace::{JudgeFault, Trace};

/// The three lines that say why the events of the trace can't have been a run: `refused` and what the fault is; then
/// an event as a line of a trace says it; then a second event, the place that is missing, or what was expected in
/// place of the event. Where memory ran out when the trace was judged the text is empty. `NoMemory` only where it
/// runs out here.
pub fn refusal_lines(alloc: Global, trace: &Trace, fault: &JudgeFault) -> Result<Bytes, NoMemory>
    requires fault { IsFault trace.now.exercise trace.now.entries fault.now }
    ensures lines { IfOk result (λ bytes. bytes ≡ refusal_text trace.now.exercise fault.now) }
{
    let exercise = trace.exercise();
    // Known of the trace: its exercise is well formed, and a line of a trace can say each of its events.
    let _threads = exercise.threads();
    let _entries = trace.entries();
    let mut out = Vec::new(alloc);
    append_fault(&mut out, exercise, fault)?;
    Ok(Bytes::from_vec(out))
}

/// Appends the lines of the fault. `NoMemory` only where memory runs out, as in the calls below.
fn append_fault(out: &mut Vec<u8>, exercise: &Exercise, fault: &JudgeFault) -> Result<(), NoMemory>
    requires known { IsFaultOf exercise.now fault.now }
    ensures { OnOk result (out.new.items ≡ out.old.items ++ refusal_text exercise.now fault.now) }
{
    match fault {
        JudgeFault::Refused(refused) => append_refused(out, exercise, refused),
        JudgeFault::Held(hold) => append_held(out, exercise, hold),
        JudgeFault::Illegal(illegal) => append_illegal(out, exercise, illegal),
        JudgeFault::NoMemory => Ok(()),
    }
}

/// Appends the lines of an event that is refused as it arrives.
fn append_refused(out: &mut Vec<u8>, exercise: &Exercise, refused: &Refused) -> Result<(), NoMemory>
    requires known { IsRefusedOf exercise.now refused.now }
    ensures { OnOk result (out.new.items ≡ out.old.items ++ refused_text exercise.now refused.now) }
{
    match refused {
        Refused::TwicePlace(kept, new) => {
            append_head(out, b"twice")?;
            append_pair(out, exercise, kept, new)
        }
        Refused::StampOrder(kept, new) => {
            append_head(out, b"stamps")?;
            append_pair(out, exercise, kept, new)
        }
        // No event of a trace is out of range, and want of memory is a fault of its own.
        Refused::OutOfRange(_) | Refused::NoMemory => unreachable!(),
    }
}

/// Appends the lines of the event that is kept and of the new one.
fn append_pair(
    out: &mut Vec<u8>,
    exercise: &Exercise,
    kept: &Entry,
    new: &Entry,
) -> Result<(), NoMemory>
    requires kept { IsTraceable exercise.now kept.now }
    requires new { IsTraceable exercise.now new.now }
    ensures { OnOk result (out.new.items ≡ out.old.items ++ pair_text exercise.now kept.now new.now) }
{
    append_event_line(out, exercise, b"kept", kept)?;
    append_event_line(out, exercise, b"new", new)
}

/// Appends the lines of an event that is held.
fn append_held(out: &mut Vec<u8>, exercise: &Exercise, hold: &Hold) -> Result<(), NoMemory>
    requires known { IsHoldOf exercise.now hold.now }
    ensures { OnOk result (out.new.items ≡ out.old.items ++ held_text exercise.now hold.now) }
{
    append_head(out, b"missing")?;
    append_event_line(out, exercise, b"held", &hold.entry)?;
    append_missing_line(out, exercise, &hold.missing)
}

/// Appends the lines of an event that can't happen.
fn append_illegal(out: &mut Vec<u8>, exercise: &Exercise, illegal: &Illegal) -> Result<(), NoMemory>
    requires known { IsIllegalOf exercise.now illegal.now }
    ensures { OnOk result (out.new.items ≡ out.old.items ++ illegal_text exercise.now illegal.now) }
{
    append_head(out, b"illegal")?;
    append_event_line(out, exercise, b"event", &illegal.entry)?;
    append_expected_line(out, exercise, &illegal.cause)
}

/// Appends the first line.
fn append_head(out: &mut Vec<u8>, word: &[u8]) -> Result<(), NoMemory>
    ensures { OnOk result (out.new.items ≡ out.old.items ++ line_of (codes "refused") word.now) }
{
    out.extend_from_slice(b"refused ")?;
    out.extend_from_slice(word)?;
    out.extend_from_slice(b"\n")?;
    Ok(())
}

/// Appends a line that says an event.
fn append_event_line(
    out: &mut Vec<u8>,
    exercise: &Exercise,
    word: &[u8],
    entry: &Entry,
) -> Result<(), NoMemory>
    requires known { IsTraceable exercise.now entry.now }
    ensures { OnOk result (out.new.items ≡ out.old.items ++ line_of word.now (event_text exercise.now entry.now)) }
{
    out.extend_from_slice(word)?;
    out.extend_from_slice(b" ")?;
    append_event(out, exercise, entry)?;
    out.extend_from_slice(b"\n")?;
    Ok(())
}

/// Appends the line of the place that is missing.
fn append_missing_line(
    out: &mut Vec<u8>,
    exercise: &Exercise,
    missing: &Missing,
) -> Result<(), NoMemory>
    requires known { IsPlaceOf exercise.now missing.now }
    ensures { OnOk result (out.new.items ≡ out.old.items ++ line_of (codes "missing") (place_text exercise.now missing.now)) }
{
    out.extend_from_slice(b"missing ")?;
    append_place(out, exercise, missing)?;
    out.extend_from_slice(b"\n")?;
    Ok(())
}

/// Appends the line of what was expected.
fn append_expected_line(
    out: &mut Vec<u8>,
    exercise: &Exercise,
    cause: &Cause,
) -> Result<(), NoMemory>
    requires known { IsCauseOf exercise.now cause.now }
    ensures { OnOk result (out.new.items ≡ out.old.items ++ line_of (codes "expected") (expected_text exercise.now cause.now)) }
{
    out.extend_from_slice(b"expected ")?;
    append_expected(out, exercise, cause)?;
    out.extend_from_slice(b"\n")?;
    Ok(())
}
