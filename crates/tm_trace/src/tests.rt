ghost use Rattle.std.specs.Prelude.{◌≡◌, IfOk, true};
ghost use Rattle.tm_timeline.specs.Rows.{NamesThread};
ghost use Rattle.tm_timeline.specs.TraceableEvents.{IsSaidWith, IsTraceable};
ghost use Rattle.tm_trace.specs.Traces.{AreTraceable};

use crate::{JudgeFault, Trace, judge};
use std::alloc::Global;
use std::process::Abort;
use std::test::Fail;
use tm_base::{Entry, NoMemory, Op, Reply};
use tm_joint::{Cause, Illegal};
use tm_merge::{Hold, Missing, Refused};
use tm_text::{Exercise, read};

/// A mutex `m` and two threads, `A` and `B`.
const PAIR: &[u8] = b"mutex m\nthread A\nlock m\nunlock m\nend\nthread B\nlock m\nunlock m\nend\n";

/// The same with two mutexes, which each thread locks, `A` first `m` and `B` first `n`.
const CROSSED: &[u8] =
    b"mutex m\nmutex n\nthread A\nlock m\nlock n\nend\nthread B\nlock n\nlock m\nend\n";

const fn event(
    (thread, place): (u32, u64),
    (object, at): (u32, u64),
    stamp: u64,
    op: Op,
    reply: Reply,
) -> Entry {
    Entry {
        thread,
        place,
        object,
        at,
        stamp,
        op,
        reply,
    }
}

/// A run of the pair, by rising stamp and then thread number.
fn run_of_the_pair() -> [Entry; 9] {
    [
        event((1, 1), (1, 1), 1, Op::Begin, Reply::Ok),
        event((2, 1), (2, 1), 1, Op::Begin, Reply::Ok),
        event((1, 2), (0, 1), 2, Op::Lock, Reply::Ok),
        event((2, 2), (0, 2), 3, Op::Lock, Reply::Wait),
        event((1, 3), (0, 3), 4, Op::Unlock, Reply::Gave(2)),
        event((1, 4), (1, 2), 5, Op::End { cut: false }, Reply::Ok),
        event((2, 3), (0, 4), 5, Op::Resume, Reply::Ok),
        event((2, 4), (0, 5), 6, Op::Unlock, Reply::Ok),
        event((2, 5), (2, 2), 7, Op::End { cut: false }, Reply::Ok),
    ]
}

/// Whether a line can say the operation with the reply. Of conditions nothing is asked here.
fn is_said(entry: &Entry) -> bool
    ensures { result ≡ true → IsSaidWith entry.now.reply entry.now.op }
{
    match entry.op {
        Op::End { cut } => cut == matches!(entry.reply, Reply::Cut),
        Op::Wait(_) => false,
        Op::Signal(_) => false,
        Op::Broadcast(_) => false,
        _ => true,
    }
}

/// Whether the thread that the reply names has a program.
fn names_a_thread(exercise: &Exercise, entry: &Entry) -> bool
    ensures { result ≡ true → NamesThread exercise.now entry.now.reply }
{
    match entry.reply {
        Reply::Gave(thread) => 1 <= thread && thread <= exercise.threads(),
        _ => true,
    }
}

/// Whether a line can say the event.
fn is_traceable(exercise: &Exercise, entry: &Entry) -> bool
    ensures { result ≡ true → IsTraceable exercise.now entry.now }
{
    let entry = *entry;
    let last = i64::MAX as u64;
    entry.thread <= exercise.threads()
        && entry.object < exercise.objects()
        && 1 <= entry.place
        && entry.place <= last
        && 1 <= entry.at
        && entry.at <= last
        && 1 <= entry.stamp
        && entry.stamp <= last
        && is_said(&entry)
        && names_a_thread(exercise, &entry)
}

/// The events, each of which a line can say.
fn lines_of(
    rt: &impl Abort,
    alloc: Global,
    exercise: &Exercise,
    entries: &[Entry],
) -> Result<Vec<Entry>, NoMemory>
    ensures { IfOk result (λ lines. AreTraceable exercise.now lines.items) }
{
    let mut lines = Vec::new(alloc);
    for entry in entries {
        assert!(rt; is_traceable(exercise, entry));
        lines.push(*entry)?;
    }
    Ok(lines)
}

/// The trace of the events over the exercise that the text says.
fn trace_of(rt: &impl Abort, alloc: Global, text: &[u8], entries: &[Entry]) -> Result<Trace, Fail> {
    let exercise = read(alloc, text)?;
    let lines = lines_of(rt, alloc, &exercise, entries)?;
    Ok(Trace::make(exercise, lines))
}

#[test]
fn the_lines_of_a_run_in_any_order_are_accepted_by_stamp_and_thread(
    rt: HostRuntime,
) -> Result<(), Fail> {
    let run = run_of_the_pair();
    let lines = trace_of(&rt, rt.alloc(), PAIR, &run)?;
    assert_eq!(rt; judge(rt.alloc(), &lines)?.as_slice(), run.as_slice());
    let mut back = run;
    back.reverse();
    let lines = trace_of(&rt, rt.alloc(), PAIR, &back)?;
    assert_eq!(rt; judge(rt.alloc(), &lines)?.as_slice(), run.as_slice());
    Ok(())
}

/// The threads that add 1 to a variable in turn, and how often they do so together.
const ADDERS: u32 = 20;

const ADDITIONS: u64 = 200_000;

/// A variable `x` and these threads, `A` to `T`.
fn text_of_the_adders(alloc: Global) -> Result<Vec<u8>, NoMemory> {
    let mut text = Vec::from_slice(alloc, b"var x 0\n")?;
    for letter in b'A'..=b'T' {
        text.extend_from_slice(b"thread ")?;
        text.push(letter)?;
        text.extend_from_slice(b"\nrepeat 10000\nadd x 1\nend\nend\n")?;
    }
    Ok(text)
}

/// The run in which they do it in turn.
fn run_of_the_adders(alloc: Global) -> Result<Vec<Entry>, NoMemory> {
    let mut run = Vec::new(alloc);
    for thread in 1..=ADDERS {
        run.push(event((thread, 1), (thread, 1), 1, Op::Begin, Reply::Ok))?;
    }
    for k in 0..ADDITIONS {
        let thread = (k % 20) as u32 + 1;
        let sum = Reply::Got(k as i64 + 1);
        run.push(event((thread, k / 20 + 2), (0, k + 1), k + 2, Op::Add(1), sum))?;
    }
    for thread in 1..=ADDERS {
        let stamp = 199_982 + thread as u64;
        let end = Op::End { cut: false };
        run.push(event((thread, 10_002), (thread, 2), stamp, end, Reply::Ok))?;
    }
    Ok(run)
}

#[test]
fn a_long_run_is_accepted_with_its_last_line_first(rt: HostRuntime) -> Result<(), Fail> {
    let text = text_of_the_adders(rt.alloc())?;
    let mut back = run_of_the_adders(rt.alloc())?;
    back.reverse();
    let lines = trace_of(&rt, rt.alloc(), text.as_slice(), back.as_slice())?;
    assert_eq!(rt; judge(rt.alloc(), &lines)?.len(), 200_040);
    Ok(())
}

#[test]
fn an_event_left_out_is_the_one_for_which_the_first_held_event_waits(
    rt: HostRuntime,
) -> Result<(), Fail> {
    let run = run_of_the_pair();
    for (left_out, entry, missing) in [
        (
            0,
            run[2],
            Missing::Thread {
                thread: 1,
                place: 1,
            },
        ),
        (2, run[3], Missing::Object { object: 0, at: 1 }),
        (
            6,
            run[7],
            Missing::Thread {
                thread: 2,
                place: 3,
            },
        ),
    ] {
        let mut lines = Vec::new(rt.alloc());
        for (i, line) in run.iter().enumerate() {
            if i != left_out {
                lines.push(*line)?;
            }
        }
        let trace = trace_of(&rt, rt.alloc(), PAIR, lines.as_slice())?;
        let hold = Hold { entry, missing };
        assert_eq!(rt;
            judge(rt.alloc(), &trace).err(),
            Some(JudgeFault::Held(hold))
        );
    }
    Ok(())
}

#[test]
fn a_place_that_stands_twice_is_refused_with_both_events(rt: HostRuntime) -> Result<(), Fail> {
    let run = run_of_the_pair();
    let again = event((1, 2), (0, 9), 9, Op::Unlock, Reply::Ok);
    let trace = trace_of(&rt, rt.alloc(), PAIR, &[run[3], run[2], again, run[2]])?;
    let refused = Refused::TwicePlace(run[2], again);
    assert_eq!(rt;
        judge(rt.alloc(), &trace).err(),
        Some(JudgeFault::Refused(refused))
    );
    Ok(())
}

#[test]
fn events_of_two_objects_in_a_cycle_are_refused(rt: HostRuntime) -> Result<(), Fail> {
    let first = event((1, 2), (0, 2), 2, Op::Lock, Reply::Ok);
    let last = event((2, 3), (0, 1), 5, Op::Lock, Reply::Ok);
    let trace = trace_of(
        &rt,
        rt.alloc(),
        CROSSED,
        &[
            event((1, 1), (2, 1), 1, Op::Begin, Reply::Ok),
            event((2, 1), (3, 1), 1, Op::Begin, Reply::Ok),
            first,
            event((1, 3), (1, 1), 3, Op::Lock, Reply::Ok),
            event((2, 2), (1, 2), 4, Op::Lock, Reply::Ok),
            last,
        ],
    )?;
    let refused = Refused::StampOrder(first, last);
    assert_eq!(rt;
        judge(rt.alloc(), &trace).err(),
        Some(JudgeFault::Refused(refused))
    );
    Ok(())
}

#[test]
fn the_first_event_that_cannot_happen_is_illegal(rt: HostRuntime) -> Result<(), Fail> {
    let mut run = run_of_the_pair();
    run[8].reply = Reply::Closed;
    run[4].reply = Reply::Ok;
    let trace = trace_of(&rt, rt.alloc(), PAIR, &run)?;
    let illegal = Illegal {
        entry: run[4],
        cause: Cause::Reply(Reply::Gave(2)),
    };
    assert_eq!(rt;
        judge(rt.alloc(), &trace).err(),
        Some(JudgeFault::Illegal(illegal))
    );
    Ok(())
}
