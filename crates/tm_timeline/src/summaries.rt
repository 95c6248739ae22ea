ghost use Rattle.std.specs.Prelude.{◌≡◌, ◌++◌, All, IfOk, OnOk};
ghost use Rattle.tm_timeline.specs.Rows.{IsProgramThread};
ghost use Rattle.tm_timeline.specs.Summaries.{calls_of, count_line, greatest_stamp, summary_of, waits_of};

use crate::event_texts::append_number;
use crate::last_lines::push_last_line;
use std::alloc::Global;
use tm_base::{Bytes, End, Entry, NoMemory, Reply};
use tm_text::Exercise;

/// The summary of a run of these events, in six lines: how many threads and objects the exercise has, how many of
/// the events are calls and how many were answered `wait`, the greatest stamp, and the last line of the run.
/// `NoMemory` only where memory runs out.
pub fn summary(
    alloc: Global,
    exercise: &Exercise,
    shown: &[Entry],
    end: End,
    cut: &[u32],
) -> Result<Bytes, NoMemory>
    requires { All (IsProgramThread exercise.now) cut.now }
    ensures { IfOk result (λ bytes. bytes ≡ summary_of exercise.now shown.now end cut.now) }
{
    let mut out = Vec::new(alloc);
    push_count(&mut out, b"threads", u64::from(exercise.threads()))?;
    push_count(&mut out, b"objects", u64::from(exercise.objects()))?;
    push_count(&mut out, b"calls", calls(shown))?;
    push_count(&mut out, b"waits", waits(shown))?;
    push_count(&mut out, b"stamp", greatest_stamp(shown))?;
    push_last_line(&mut out, exercise, end, shown.len() as u64, cut)?;
    Ok(Bytes::from_vec(out))
}

/// Appends a line with the number.
fn push_count(out: &mut Vec<u8>, word: &[u8], number: u64) -> Result<(), NoMemory>
    ensures { OnOk result (out.new.items ≡ out.old.items ++ count_line word.now number) }
{
    out.extend_from_slice(word)?;
    out.extend_from_slice(b" ")?;
    append_number(out, number)?;
    out.extend_from_slice(b"\n")?;
    Ok(())
}

/// How many of the events are calls.
fn calls(shown: &[Entry]) -> u64
    ensures { result ≡ calls_of shown.now }
{
    shown.iter().filter(|entry| entry.op.is_call()).count() as u64
}

/// How many of the events were answered `wait`.
fn waits(shown: &[Entry]) -> u64
    ensures { result ≡ waits_of shown.now }
{
    shown
        .iter()
        .filter(|entry| matches!(entry.reply, Reply::Wait))
        .count() as u64
}

/// The greatest stamp of the events, or 0 where there is none.
fn greatest_stamp(shown: &[Entry]) -> u64
    ensures { result ≡ greatest_stamp shown.now }
{
    let mut greatest = 0;
    for entry in shown {
        greatest = greatest.max(entry.stamp);
    }
    greatest
}
