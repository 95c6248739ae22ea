ghost use Rattle.std.specs.Prelude.{◌≡◌, ◌≤◌, ◌++◌, All, IfOk, OnOk, codes, length};
ghost use Rattle.tm_timeline.specs.Rows.{last_line_of, names_text, thread_name, IsProgramThread};

use crate::event_texts::append_number;
use crate::pieces::put_thread;
use crate::row_texts::RowText;
use crate::words::end_word;
use std::alloc::Global;
use tm_base::{Bytes, End, NoMemory};
use tm_text::Exercise;

/// The last line of a run of `n` events: how it ended, and the names of the threads that were cut.
/// `NoMemory` only where memory runs out.
pub fn last_line(
    alloc: Global,
    exercise: &Exercise,
    end: End,
    n: u64,
    cut: &[u32],
) -> Result<Bytes, NoMemory>
    requires { All (IsProgramThread exercise.now) cut.now }
    ensures { IfOk result (λ bytes. bytes ≡ last_line_of exercise.now end n cut.now) }
{
    let mut out = Vec::new(alloc);
    push_last_line(&mut out, exercise, end, n, cut)?;
    Ok(Bytes::from_vec(out))
}

/// Appends the last line of a run of `n` events.
pub fn push_last_line(
    out: &mut Vec<u8>,
    exercise: &Exercise,
    end: End,
    n: u64,
    cut: &[u32],
) -> Result<(), NoMemory>
    requires { All (IsProgramThread exercise.now) cut.now }
    ensures { OnOk result (out.new.items ≡ out.old.items ++ last_line_of exercise.now end n cut.now) }
{
    out.extend_from_slice(end_word(end))?;
    out.extend_from_slice(b" ")?;
    append_number(out, n)?;
    match end {
        End::Done => {}
        End::Stuck | End::Budget => push_names(out, exercise, cut)?,
    }
    out.extend_from_slice(b"\n")?;
    Ok(())
}

/// Appends the threads' names, each after a space.
fn push_names(out: &mut Vec<u8>, exercise: &Exercise, threads: &[u32]) -> Result<(), NoMemory>
    requires { All (IsProgramThread exercise.now) threads.now }
    ensures { OnOk result (out.new.items ≡ out.old.items ++ names_text exercise.now threads.now) }
{
    for thread in threads {
        push_spaced_thread(out, exercise, *thread)?;
    }
    Ok(())
}

/// Appends the thread's name after a space.
fn push_spaced_thread(out: &mut Vec<u8>, exercise: &Exercise, thread: u32) -> Result<(), NoMemory>
    requires { thread ≤ length exercise.now.programs }
    ensures { OnOk result
        (out.new.items ≡ out.old.items ++ (codes " " ++ thread_name exercise.now thread)) }
{
    let mut text = RowText::empty();
    put_thread(&mut text, exercise, thread);
    text.put_byte(b' ');
    out.extend_from_slice(text.as_slice())?;
    Ok(())
}
