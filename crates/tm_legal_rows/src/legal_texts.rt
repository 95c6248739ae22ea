ghost use Rattle.std.specs.Prelude.{◌≡◌, ◌≤◌, ◌++◌, false, length, List, ℕ, IfOk, OnErr, OnOk};
ghost use Rattle.tm_outside.specs.Appending.{AppendsProperPrefix};
ghost use Rattle.tm_collect.specs.Advancing.{BreaksOff, Shows};
ghost use Rattle.tm_collect.specs.Sending.{IsSent};
ghost use Rattle.tm_collect.specs.Transcripts.{first_joint};
ghost use Rattle.tm_legal_rows.specs.LegalTexts.{IsLegal, IsLegalText, legal_line};

use std::alloc::Global;
use tm_base::{Entry, NoMemory};
use tm_collect::{Stop, Writer};
use tm_outside::Sink;
use tm_text::Exercise;
use tm_timeline::append_number;

/// Writes the rows of the exercise's legal run, one for each of its events, and the last line, `legal` and their
/// number. Each is written in one piece. The answer is whether a write failed; after the first that fails
/// nothing more is written. Only running out of memory refuses it, and then a prefix of this text was written, and
/// not all of it.
pub fn write_legal<K: Sink>(
    alloc: Global,
    exercise: &Exercise,
    run: &[Entry],
    sink: &mut K,
) -> Result<bool, NoMemory>
    requires legal { IsLegal exercise.now run.now }
    // The text of the run was written, or its first bytes, up to the one write that failed.
    ensures sent { IfOk result (λ failed. (bytes : List ℕ) × IsLegalText exercise.now run.now bytes
        × IsSent (record { failed = false; faults = K.fault_count sink.old; written = K.written sink.old })
        (record { failed = failed; faults = K.fault_count sink.new; written = K.written sink.new }) bytes) }
    // A prefix of the text was written, and not all of it.
    ensures begun { OnErr result ((bytes : List ℕ) × IsLegalText exercise.now run.now bytes
        × AppendsProperPrefix (K.written sink.old) (K.written sink.new) bytes) }
    ensures never_falls { K.fault_count sink.old ≤ K.fault_count sink.new }
{
    let mut writer = Writer::make(alloc, exercise)?;
    write_rows(alloc, &mut writer, run, sink)?;
    writer.row.clear();
    append_legal_line(&mut writer.row, run.len() as u64)?;
    writer.send_row(sink);
    Ok(writer.write_fault)
}

/// Writes the rows of a legal run by a new writer, which no watcher follows.
fn write_rows<K: Sink>(
    alloc: Global,
    writer: &mut Writer<'_>,
    run: &[Entry],
    sink: &mut K,
) -> Result<(), NoMemory>
    requires fresh { writer.old.joint ≡ first_joint writer.old.exercise.now }
    requires legal { IsLegal writer.old.exercise.now run.now }
    ensures shows { OnOk result (Shows writer.old.exercise.now run.now writer.old.joint writer.new.joint
        (record { failed = writer.old.write_fault; faults = K.fault_count sink.old; written = K.written sink.old })
        (record { failed = writer.new.write_fault; faults = K.fault_count sink.new; written = K.written sink.new })) }
    ensures whole { OnOk result (writer.new.joint.applied ≡ length run.now) }
    ensures breaks_off { OnErr result (BreaksOff writer.old.exercise.now run.now writer.old.joint writer.new.joint
        (record { failed = writer.old.write_fault; faults = K.fault_count sink.old; written = K.written sink.old })
        (record { failed = writer.new.write_fault; faults = K.fault_count sink.new; written = K.written sink.new })) }
    ensures exercise { writer.new.exercise ≡ writer.old.exercise }
    ensures never_falls { K.fault_count sink.old ≤ K.fault_count sink.new }
{
    match writer.show(run, sink, &mut Vec::new(alloc)) {
        Ok(()) => Ok(()),
        Err(Stop::NoMemory) => Err(NoMemory),
        Err(Stop::Illegal(_)) => unreachable!(),
    }
}

/// Appends the last line of a legal run of `n` events.
fn append_legal_line(out: &mut Vec<u8>, n: u64) -> Result<(), NoMemory>
    ensures { OnOk result (out.new.items ≡ out.old.items ++ legal_line n) }
{
    out.extend_from_slice(b"legal ")?;
    append_number(out, n)?;
    out.extend_from_slice(b"\n")?;
    Ok(())
}
