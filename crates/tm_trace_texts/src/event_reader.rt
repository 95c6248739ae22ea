ghost use Rattle.std.specs.Prelude.{◌≡◌, ◌+◌, ◌<◌, ◌^◌, IfErr, IfOk, OnOk, length};
ghost use Rattle.tm_lines.specs.TextFaults.{text_lines};
ghost use Rattle.tm_trace.specs.Traces.{AreTraceable};
ghost use Rattle.tm_trace_texts.specs.Readings.{AreRead, Reads, Refuses, RefusesLine};
ghost use Rattle.tm_trace_texts.specs.TraceFaults.{first_event_fault};

use crate::trace_faults::TraceFault;
use crate::trace_lines::is_passed_over;
use std::alloc::Global;
use tm_base::Entry;
use tm_event_lines::EventReader;
use tm_lines::{first_line, without_cr};
use tm_text::Exercise;

/// The events of the lines behind the line `trace`, in their order. The first of these lines has this number.
pub fn read_events(
    alloc: Global,
    exercise: &Exercise,
    first: u64,
    text: &[u8],
) -> Result<Vec<Entry>, TraceFault>
    requires { first + length text.now < 2 ^ 64 }
    ensures read { IfOk result (λ entries. AreRead exercise.now first (text_lines text.now) entries.items) }
    ensures refused { IfErr result
        (λ why. Refuses why (first_event_fault exercise.now first (text_lines text.now))) }
{
    let reader = EventReader::make(alloc, exercise)?;
    let mut entries = Vec::new(alloc);
    let mut number = first;
    let mut rest = text;
    while !rest.is_empty() {
        let (line, behind) = first_line(rest);
        read_line(&mut entries, &reader, number, without_cr(line))?;
        number += 1;
        rest = behind;
    }
    Ok(entries)
}

/// Appends the event that the line says, unless the line is passed over.
fn read_line(
    entries: &mut Vec<Entry>,
    reader: &EventReader,
    number: u64,
    line: &[u8],
) -> Result<(), TraceFault>
    requires { AreTraceable reader.now entries.old.items }
    ensures read { OnOk result (Reads reader.now number line.now entries.old.items entries.new.items) }
    ensures traceable { OnOk result (AreTraceable reader.now entries.new.items) }
    ensures refused { IfErr result (RefusesLine reader.now number line.now) }
{
    if is_passed_over(line) {
        return Ok(());
    }
    match reader.read(line) {
        Err(kind) => Err(TraceFault::Line { line: number, kind }),
        Ok(entry) => match entries.push(entry) {
            Ok(()) => Ok(()),
            Err(_) => Err(TraceFault::NoMemory),
        },
    }
}
