ghost use Rattle.std.specs.Prelude.{◌≡◌, ◌≤◌, ◌<◌, ◌+◌, ◌++◌, codes, length};
ghost use Rattle.std.specs.Fmt.{decimal, signed_decimal};
ghost use Rattle.tm_text.specs.Exercises.{name_of};
ghost use Rattle.tm_timeline.specs.Rows.{thread_name, operand_text, detail_text, NamesThread};

use crate::row_texts::RowText;
use tm_base::{Op, Reply};
use tm_text::Exercise;

/// Puts the object's name in front.
pub fn put_object(text: &mut RowText, exercise: &Exercise, object: u32)
    requires room { length text.old ≤ 240 }
    requires known { object < length exercise.now.objects }
    ensures text { text.new ≡ name_of exercise.now.objects object ++ text.old }
    ensures len { length text.new ≤ length text.old + 16 }
{
    text.put(exercise.name(object).bytes());
}

/// Puts the thread's name in front.
pub fn put_thread(text: &mut RowText, exercise: &Exercise, thread: u32)
    requires room { length text.old ≤ 240 }
    requires known { thread ≤ length exercise.now.programs }
    ensures text { text.new ≡ thread_name exercise.now thread ++ text.old }
    ensures len { length text.new ≤ length text.old + 16 }
{
    if thread == 0 {
        text.put(b"main");
        return;
    }
    let own = exercise.own(thread);
    // Every thread with a program has an object of its own.
    prove!(own < exercise.objects());
    put_object(text, exercise, own);
}

/// Puts a space and the number in front.
fn put_spaced_number(text: &mut RowText, number: u64)
    requires { length text.old ≤ 235 }
    ensures text { text.new ≡ codes " " ++ decimal number ++ text.old }
    ensures len { length text.new ≤ length text.old + 21 }
{
    text.put_number(number);
    text.put_byte(b' ');
}

/// Puts a space and the value in front.
fn put_spaced_value(text: &mut RowText, value: i64)
    requires { length text.old ≤ 235 }
    ensures text { text.new ≡ codes " " ++ signed_decimal value ++ text.old }
    ensures len { length text.new ≤ length text.old + 21 }
{
    text.put_value(value);
    text.put_byte(b' ');
}

/// Puts the operation's operand in front, where it has one.
pub fn put_operand(text: &mut RowText, op: Op)
    requires { length text.old ≤ 235 }
    ensures text { text.new ≡ operand_text op ++ text.old }
    ensures len { length text.new ≤ length text.old + 21 }
{
    match op {
        Op::Wait(condition) => put_spaced_number(text, u64::from(condition)),
        Op::Signal(condition) => put_spaced_number(text, u64::from(condition)),
        Op::Broadcast(condition) => put_spaced_number(text, u64::from(condition)),
        Op::Send(value) => put_spaced_value(text, value),
        Op::Write(value) => put_spaced_value(text, value),
        Op::Add(value) => put_spaced_value(text, value),
        _ => {}
    }
}

/// Puts what the reply names or brings in front, where it does.
pub fn put_detail(text: &mut RowText, exercise: &Exercise, reply: Reply)
    requires room { length text.old ≤ 235 }
    requires named { NamesThread exercise.now reply }
    ensures text { text.new ≡ detail_text exercise.now reply ++ text.old }
    ensures len { length text.new ≤ length text.old + 21 }
{
    match reply {
        Reply::Gave(thread) => {
            put_thread(text, exercise, thread);
            text.put_byte(b' ');
        }
        Reply::Got(value) => put_spaced_value(text, value),
        _ => {}
    }
}
