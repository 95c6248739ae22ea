ghost use Rattle.std.specs.Prelude.{◌≡◌, ◌<◌, ◌≤◌, IfOk, IsErr, List, length};
ghost use Rattle.tm_watch.specs.Watchers.{Watch};
ghost use Rattle.tm_mentor.specs.Answers.{HaveWatched, Refuses, Sends, TakesMemory};
ghost use Rattle.tm_mentor.specs.Outside.{output_of};
ghost use Rattle.tm_mentor.specs.Refusals.{fault_line, line_of, status_of};

use crate::answers::Answer;
use std::alloc::Global;
use tm_base::NoMemory;
use tm_lines::FaultyLine;
use tm_outside::{Sink, write_all};

/// Why nothing was done.
#[derive(Clone, Copy, Debug, PartialEq, Eq)]
pub enum Refusal {
    /// The words spell no command.
    Usage,
    /// What was read is the text of no exercise, or of no trace: its first faulty line, and what is wrong with it.
    Text(FaultyLine),
    /// What was read is no trace, since none of its lines is `trace`: the number behind that of the last line.
    NoTrace { line: u64 },
    /// The source failed.
    ReadFault,
}

/// Sends the line that says it, and answers whether that failed. Only a line with a number takes memory; where
/// that runs out nothing was sent.
pub(crate) fn send_line<K: Sink>(
    alloc: Global,
    refusal: Refusal,
    sink: &mut K,
) -> Result<bool, NoMemory>
    ensures sent { IfOk result (λ failed. Sends failed (output_of K.written K.fault_count sink.old)
        (output_of K.written K.fault_count sink.new) (line_of refusal)) }
    ensures text { IsErr result → TakesMemory refusal }
    ensures kept { IsErr result → sink.new ≡ sink.old }
    ensures never_falls { K.fault_count sink.old ≤ K.fault_count sink.new }
{
    match refusal {
        Refusal::Usage => Ok(fails(sink, b"mentor: usage\n")),
        Refusal::Text(fault) => send_fault(alloc, fault.line, fault.kind.word(), sink),
        Refusal::NoTrace { line } => send_fault(alloc, line, b"trace", sink),
        Refusal::ReadFault => Ok(fails(sink, b"mentor: read fault\n")),
    }
}

/// Sends the line that says what is wrong with a text, and answers whether that failed.
fn send_fault<K: Sink>(
    alloc: Global,
    line: u64,
    word: &[u8],
    sink: &mut K,
) -> Result<bool, NoMemory>
    ensures sent { IfOk result (λ failed. Sends failed (output_of K.written K.fault_count sink.old)
        (output_of K.written K.fault_count sink.new) (fault_line line word.now)) }
    ensures kept { IsErr result → sink.new ≡ sink.old }
    ensures never_falls { K.fault_count sink.old ≤ K.fault_count sink.new }
{
    let written = fault_line(alloc, line, word)?;
    Ok(fails(sink, written.as_slice()))
}

/// Sends the line that says why nothing was done.
pub(crate) fn refuse<K: Sink>(alloc: Global, refusal: Refusal, sink: &mut K) -> Answer
    ensures refused { Refuses refusal (output_of K.written K.fault_count sink.old)
        (output_of K.written K.fault_count sink.new) result }
    ensures untold { (ws : List Watch) → HaveWatched ws result ws }
    ensures never_falls { K.fault_count sink.old ≤ K.fault_count sink.new }
{
    match send_line(alloc, refusal, sink) {
        Ok(write_fault) => Answer::Refused {
            refusal,
            write_fault,
        },
        Err(NoMemory) => Answer::NoMemory,
    }
}

/// Sends the bytes, and answers whether that failed.
pub(crate) fn fails<K: Sink>(sink: &mut K, bytes: &[u8]) -> bool
    ensures sent { Sends result (output_of K.written K.fault_count sink.old)
        (output_of K.written K.fault_count sink.new) bytes.now }
    ensures never_falls { K.fault_count sink.old ≤ K.fault_count sink.new }
{
    write_all(sink, bytes).is_err()
}

/// Sends the lines of the text, each in one piece, and answers whether that failed.
pub(crate) fn send_lines<K: Sink>(sink: &mut K, text: &[u8]) -> bool
    ensures sent { Sends result (output_of K.written K.fault_count sink.old)
        (output_of K.written K.fault_count sink.new) text.now }
    ensures never_falls { K.fault_count sink.old ≤ K.fault_count sink.new }
{
    let mut sent = 0;
    while sent < text.len() {
        let rest = &text[sent..];
        let (line, _) = rest.split_at(line_len(rest));
        if fails(sink, line) {
            return true;
        }
        sent += line.len();
    }
    false
}

/// How many bytes the first line has, with its LF.
fn line_len(text: &[u8]) -> usize
    requires { 0 < length text.now }
    ensures some { 0 < result }
    ensures within { result ≤ length text.now }
{
    match text.iter().position(|b| *b == b'\n') {
        Some(end) => end + 1,
        None => text.len(),
    }
}

/// The line that says what is wrong with a text: the number of one of its lines, and the word of its fault.
fn fault_line(alloc: Global, line: u64, word: &[u8]) -> Result<Vec<u8>, NoMemory>
    ensures { IfOk result (λ written. written.items ≡ fault_line line word.now) }
{
    let mut written = Vec::from_slice(alloc, b"mentor: line ")?;
    let number = line.to_string(alloc)?;
    written.extend_from_slice(number.as_bytes())?;
    written.extend_from_slice(b": ")?;
    written.extend_from_slice(word)?;
    written.push(b'\n')?;
    Ok(written)
}

/// The status of a command that wrote the line.
pub(crate) fn refusal_status(refusal: Refusal) -> u8
    ensures { result ≡ status_of refusal }
{
    match refusal {
        Refusal::Usage => 2,
        Refusal::Text(_) | Refusal::NoTrace { .. } => 3,
        Refusal::ReadFault => 4,
    }
}
