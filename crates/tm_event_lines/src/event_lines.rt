ghost use Rattle.std.specs.Prelude.{◌≡◌, Some, IfOk, MatchResult};
ghost use Rattle.tm_timeline.specs.TraceableEvents.{IsTraceable};
ghost use Rattle.tm_event_lines.specs.EventFaults.{event_fault};
ghost use Rattle.tm_event_lines.specs.EventLines.{IsEventLine};
ghost use Rattle.tm_event_lines.specs.EventWords.{parts_in};
ghost use Rattle.tm_event_lines.specs.SaidWords.{entry_by, is_cut, op_said};

use crate::event_names::EventNames;
use crate::event_numbers::EventNumbers;
use crate::event_words::{EventWords, operation_of};
use crate::named_objects::NamedObjects;
use crate::reply_words::reply_of;
use crate::word_faults::{has_unknown_word, has_wrong_count};
use std::alloc::Global;
use std::marker::Model;
use tm_base::{Entry, NoMemory, Op, Opcode, Reply};
use tm_lines::{Fault, is_printed};
use tm_text::Exercise;

/// Reads the event lines of one exercise, whose objects it finds by an index of their names. It is made once for a
/// trace, and what a line costs then doesn't grow with the exercise.
#[derive(Drop)]
pub struct EventReader<'a> {
    objects: NamedObjects<'a>,
}

impl<'a> Model for EventReader<'a> {
    ghost use Rattle.tm_text.specs.Exercises.{ExerciseView};

    ghost Value = { ExerciseView };

    ghost view = { λ a. a.objects };
}

impl<'a> EventReader<'a> {
    /// A reader of the event lines of the exercise. `NoMemory` only where memory runs out.
    pub fn make(alloc: Global, exercise: &'a Exercise) -> Result<EventReader<'a>, NoMemory>
        ensures { IfOk result (λ reader. reader ≡ exercise.now) }
    {
        let objects = NamedObjects::indexed(alloc, exercise)?;
        Ok(EventReader { objects })
    }

    /// The event that the line says, or what is wrong with it: the first kind of fault that applies, of `Byte`,
    /// `Word`, `Count`, `Unknown` and `Number`. The line has no LF.
    ///
    /// An event line is an event's text, with a number in front or without, and with a word of bars behind or
    /// without.
    pub fn read(&self, line: &[u8]) -> Result<Entry, Fault>
        ensures read { MatchResult result (IsEventLine self.now line.now)
            (λ fault. event_fault self.now line.now ≡ Some fault) }
        ensures traceable { IfOk result (IsTraceable self.now) }
    {
        event_of(&self.objects, line)
    }
}

/// The event that the line says, or what is wrong with it, as `EventReader::read` answers. It takes no memory, and scans
/// the exercise's objects for each name.
pub fn read_event(exercise: &Exercise, line: &[u8]) -> Result<Entry, Fault>
    ensures read { MatchResult result (IsEventLine exercise.now line.now)
        (λ fault. event_fault exercise.now line.now ≡ Some fault) }
    ensures traceable { IfOk result (IsTraceable exercise.now) }
{
    event_of(&NamedObjects::scanned(exercise), line)
}

/// The event that the line says of these objects, or what is wrong with it.
fn event_of(objects: &NamedObjects, line: &[u8]) -> Result<Entry, Fault>
    ensures read { MatchResult result (IsEventLine objects.now line.now)
        (λ fault. event_fault objects.now line.now ≡ Some fault) }
    ensures traceable { IfOk result (IsTraceable objects.now) }
{
    if !is_printed(line) {
        return Err(Fault::Byte);
    }
    let words = EventWords::of_line(line);
    if has_unknown_word(&words) {
        return Err(Fault::Word);
    }
    if has_wrong_count(&words) {
        return Err(Fault::Count);
    }
    let Some(names) = EventNames::of_words(objects, &words) else {
        return Err(Fault::Unknown);
    };
    let Some(numbers) = EventNumbers::of_words(&words) else {
        return Err(Fault::Number);
    };
    Ok(entry_by(&words, names, numbers))
}

/// The event of these words, which have these names and numbers.
fn entry_by(words: &EventWords, names: EventNames, numbers: EventNumbers) -> Entry
    ensures { result ≡ entry_by (parts_in words.now) names numbers }
{
    let opcode = operation_of(words.operation).unwrap_or(Opcode::Stop);
    let reply = reply_of(names.granted, numbers.detail, words.reply).unwrap_or(Reply::Ok);
    Entry {
        thread: names.thread,
        place: numbers.place,
        object: names.object,
        at: numbers.at,
        stamp: numbers.stamp,
        op: op_with(opcode, numbers.condition, numbers.operand, reply),
        reply,
    }
}

/// The operation with its operand and this reply. An `end` is cut exactly where its reply is `cut`.
fn op_with(opcode: Opcode, condition: u8, value: i64, reply: Reply) -> Op
    ensures { result ≡ op_said opcode condition value reply }
{
    match opcode {
        Opcode::End => Op::End { cut: is_cut(reply) },
        _ => opcode.with(condition, value),
    }
}

/// Whether the reply is that of an `end` that is cut.
fn is_cut(reply: Reply) -> bool
    ensures { result ≡ is_cut reply }
{
    matches!(reply, Reply::Cut)
}
