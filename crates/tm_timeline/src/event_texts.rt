ghost use Rattle.std.specs.Prelude.{◌≡◌, ◌≤◌, ◌<◌, ◌++◌, OnOk, length};
ghost use Rattle.std.specs.Fmt.{decimal};
ghost use Rattle.tm_text.specs.Exercises.{name_of};
ghost use Rattle.tm_timeline.specs.Rows.{event_text, operation_text, reply_text, thread_name, NamesThread};

use crate::pieces::{put_detail, put_object, put_operand, put_thread};
use crate::row_texts::RowText;
use crate::rows::put_event;
use crate::words::reply_word;
use tm_base::{Entry, NoMemory, Op, Reply};
use tm_text::Exercise;

/// Appends the text of an event, which is its row without the number in front and the bars. `NoMemory` only where
/// memory runs out, as in the calls below.
pub fn append_event(out: &mut Vec<u8>, exercise: &Exercise, entry: &Entry) -> Result<(), NoMemory>
    requires object { entry.now.object < length exercise.now.objects }
    requires thread { entry.now.thread ≤ length exercise.now.programs }
    requires granted { NamesThread exercise.now entry.now.reply }
    ensures { OnOk result (out.new.items ≡ out.old.items ++ event_text exercise.now entry.now) }
{
    let mut text = RowText::empty();
    put_event(&mut text, exercise, entry);
    append(out, &text)
}

/// Appends the operation: its word, and its operand where it has one.
pub fn append_operation(out: &mut Vec<u8>, op: Op) -> Result<(), NoMemory>
    ensures { OnOk result (out.new.items ≡ out.old.items ++ operation_text op) }
{
    let mut text = RowText::empty();
    put_operand(&mut text, op);
    text.put(op.opcode().word());
    append(out, &text)
}

/// Appends the reply: its word, and the thread that it names or the value that it brings.
pub fn append_reply(out: &mut Vec<u8>, exercise: &Exercise, reply: Reply) -> Result<(), NoMemory>
    requires named { NamesThread exercise.now reply }
    ensures { OnOk result (out.new.items ≡ out.old.items ++ reply_text exercise.now reply) }
{
    let mut text = RowText::empty();
    put_detail(&mut text, exercise, reply);
    text.put(reply_word(reply));
    append(out, &text)
}

/// Appends the name of the thread; that of thread 0 is `main`.
pub fn append_thread(out: &mut Vec<u8>, exercise: &Exercise, thread: u32) -> Result<(), NoMemory>
    requires known { thread ≤ length exercise.now.programs }
    ensures { OnOk result (out.new.items ≡ out.old.items ++ thread_name exercise.now thread) }
{
    let mut text = RowText::empty();
    put_thread(&mut text, exercise, thread);
    append(out, &text)
}

/// Appends the name of the object.
pub fn append_object(out: &mut Vec<u8>, exercise: &Exercise, object: u32) -> Result<(), NoMemory>
    requires known { object < length exercise.now.objects }
    ensures { OnOk result (out.new.items ≡ out.old.items ++ name_of exercise.now.objects object) }
{
    let mut text = RowText::empty();
    put_object(&mut text, exercise, object);
    append(out, &text)
}

/// Appends the number in decimal.
pub fn append_number(out: &mut Vec<u8>, number: u64) -> Result<(), NoMemory>
    ensures { OnOk result (out.new.items ≡ out.old.items ++ decimal number) }
{
    let mut text = RowText::empty();
    text.put_number(number);
    append(out, &text)
}

/// Appends the text.
fn append(out: &mut Vec<u8>, text: &RowText) -> Result<(), NoMemory>
    ensures { OnOk result (out.new.items ≡ out.old.items ++ text.now) }
{
    out.extend_from_slice(text.as_slice())?;
    Ok(())
}
