ghost use Rattle.std.specs.Prelude.{◌≡◌, ◌≤◌, ◌<◌, ◌+◌, ◌++◌, IfOk, OnErr, OnOk, length, vec_capacity, vec_len};
ghost use Rattle.tm_timeline.specs.Rows.{event_text, places_text, row_of, NamesThread};

use crate::pieces::{put_detail, put_object, put_operand, put_thread};
use crate::row_texts::RowText;
use crate::words::reply_word;
use std::alloc::Global;
use tm_base::{Bar, Bytes, Entry, NoMemory};
use tm_text::Exercise;

/// The row of an event: its number, from 1, what happened, and a letter for each thread, in rising
/// number. `NoMemory` only where memory runs out.
pub fn row(
    alloc: Global,
    exercise: &Exercise,
    n: u64,
    entry: &Entry,
    bars: &[Bar],
) -> Result<Bytes, NoMemory>
    requires object { entry.now.object < length exercise.now.objects }
    requires thread { entry.now.thread ≤ length exercise.now.programs }
    requires granted { NamesThread exercise.now entry.now.reply }
    requires bars { length bars.now ≡ length exercise.now.programs }
    ensures { IfOk result (λ bytes. bytes ≡ row_of exercise.now n entry.now bars.now) }
{
    let mut out = Vec::new(alloc);
    append_row(&mut out, exercise, n, entry, bars)?;
    Ok(Bytes::from_vec(out))
}

/// Appends the row of an event to the bytes. Only running out of memory refuses it, where there was no room
/// for it, and leaves the bytes as they were.
pub fn append_row(
    out: &mut Vec<u8>,
    exercise: &Exercise,
    n: u64,
    entry: &Entry,
    bars: &[Bar],
) -> Result<(), NoMemory>
    requires object { entry.now.object < length exercise.now.objects }
    requires thread { entry.now.thread ≤ length exercise.now.programs }
    requires granted { NamesThread exercise.now entry.now.reply }
    requires bars { length bars.now ≡ length exercise.now.programs }
    ensures appended { OnOk result (out.new.items ≡ out.old.items ++ row_of exercise.now n entry.now bars.now) }
    ensures unchanged { OnErr result (out.new.items ≡ out.old.items) }
    ensures full { OnErr result (vec_capacity out.old < vec_len out.old + length (row_of exercise.now n entry.now bars.now)) }
{
    let mut text = RowText::empty();
    put_row(&mut text, exercise, n, entry, bars);
    match out.extend_from_slice(text.as_slice()) {
        Ok(()) => Ok(()),
        Err(_) => Err(NoMemory),
    }
}

/// Puts the row of an event in front of no text.
fn put_row(text: &mut RowText, exercise: &Exercise, n: u64, entry: &Entry, bars: &[Bar])
    requires empty { length text.old ≡ 0 }
    requires object { entry.now.object < length exercise.now.objects }
    requires thread { entry.now.thread ≤ length exercise.now.programs }
    requires granted { NamesThread exercise.now entry.now.reply }
    requires bars { length bars.now ≡ length exercise.now.programs }
    ensures { text.new ≡ row_of exercise.now n entry.now bars.now ++ text.old }
{
    // No exercise has more threads than a row has room for.
    prove!(bars.len() == exercise.threads() as usize);
    text.put(b"]\n");
    text.put_bars(bars);
    text.put(b" [");
    put_event(text, exercise, entry);
    text.put_byte(b' ');
    text.put_number(n);
}

/// Puts the text of an event in front.
pub fn put_event(text: &mut RowText, exercise: &Exercise, entry: &Entry)
    requires room { length text.old ≤ 68 }
    requires object { entry.now.object < length exercise.now.objects }
    requires thread { entry.now.thread ≤ length exercise.now.programs }
    requires granted { NamesThread exercise.now entry.now.reply }
    ensures text { text.new ≡ event_text exercise.now entry.now ++ text.old }
    ensures len { length text.new ≤ length text.old + 157 }
{
    put_detail(text, exercise, entry.reply);
    text.put(reply_word(entry.reply));
    text.put_byte(b' ');
    put_operand(text, entry.op);
    text.put(entry.op.opcode().word());
    text.put_byte(b' ');
    put_places(text, exercise, entry);
    text.put_byte(b' ');
    text.put_number(entry.stamp);
}

/// Puts the thread and the object in front, each with the event's place in it.
fn put_places(text: &mut RowText, exercise: &Exercise, entry: &Entry)
    requires room { length text.old ≤ 129 }
    requires object { entry.now.object < length exercise.now.objects }
    requires thread { entry.now.thread ≤ length exercise.now.programs }
    ensures text { text.new ≡ places_text exercise.now entry.now ++ text.old }
    ensures len { length text.new ≤ length text.old + 75 }
{
    text.put_number(entry.at);
    text.put_byte(b'.');
    put_object(text, exercise, entry.object);
    text.put_byte(b' ');
    text.put_number(entry.place);
    text.put_byte(b'.');
    put_thread(text, exercise, entry.thread);
}
