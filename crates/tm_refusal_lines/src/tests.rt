ghost use Rattle.std.specs.Prelude.{◌≡◌, true, IfOk};
ghost use Rattle.tm_timeline.specs.Rows.{NamesThread};
ghost use Rattle.tm_timeline.specs.TraceableEvents.{IsSaidWith, IsTraceable};
ghost use Rattle.tm_trace.specs.Traces.{AreTraceable};

use crate::expected::append_expected;
use crate::refusal_lines;
use std::alloc::Global;
use std::process::Abort;
use std::test::Fail;
use tm_base::{Entry, NoMemory, Op, Reply};
use tm_joint::Cause;
use tm_merge::Missing;
use tm_text::{Exercise, read};
use tm_trace::{Trace, judge};

/// A mutex `m` and two threads, `A` and `B`.
const PAIR: &[u8] = b"mutex m\nthread A\nlock m\nunlock m\nend\nthread B\nlock m\nunlock m\nend\n";

const fn event(
    (thread, place): (u32, u64),
    (object, at): (u32, u64),
    stamp: u64,
    op: Op,
    reply: Reply,
) -> Entry {
    Entry {
        thread,
        place,
        object,
        at,
        stamp,
        op,
        reply,
    }
}

/// Whether a line can say the operation with the reply. Of conditions nothing is asked here.
fn is_said(entry: &Entry) -> bool
    ensures { result ≡ true → IsSaidWith entry.now.reply entry.now.op }
{
    match entry.op {
        Op::End { cut } => cut == matches!(entry.reply, Reply::Cut),
        Op::Wait(_) => false,
        Op::Signal(_) => false,
        Op::Broadcast(_) => false,
        _ => true,
    }
}

/// Whether the reply names no thread.
fn names_none(exercise: &Exercise, entry: &Entry) -> bool
    ensures { result ≡ true → NamesThread exercise.now entry.now.reply }
{
    let _exercise = exercise;
    !matches!(entry.reply, Reply::Gave(_))
}

/// Whether a line can say the event.
fn is_traceable(exercise: &Exercise, entry: &Entry) -> bool
    ensures { result ≡ true → IsTraceable exercise.now entry.now }
{
    let entry = *entry;
    let last = i64::MAX as u64;
    entry.thread <= exercise.threads()
        && entry.object < exercise.objects()
        && 1 <= entry.place
        && entry.place <= last
        && 1 <= entry.at
        && entry.at <= last
        && 1 <= entry.stamp
        && entry.stamp <= last
        && is_said(&entry)
        && names_none(exercise, &entry)
}

/// The events, each of which a line can say.
fn lines_of(
    rt: &impl Abort,
    alloc: Global,
    exercise: &Exercise,
    entries: &[Entry],
) -> Result<Vec<Entry>, NoMemory>
    ensures { IfOk result (λ lines. AreTraceable exercise.now lines.items) }
{
    let mut lines = Vec::new(alloc);
    for entry in entries {
        assert!(rt; is_traceable(exercise, entry));
        lines.push(*entry)?;
    }
    Ok(lines)
}

/// That the events can't have been a run of the pair, for what these lines say.
fn refuses(rt: &impl Abort, alloc: Global, entries: &[Entry], wanted: &[u8]) -> Result<(), Fail> {
    let exercise = read(alloc, PAIR)?;
    let lines = lines_of(rt, alloc, &exercise, entries)?;
    let trace = Trace::make(exercise, lines);
    match judge(alloc, &trace) {
        Ok(_) => assert!(rt; false),
        Err(fault) => {
            let printed = refusal_lines(alloc, &trace, &fault)?;
            assert_eq!(rt; printed.as_slice(), wanted);
        }
    }
    Ok(())
}

#[test]
fn an_event_that_is_refused_stands_behind_the_one_that_is_kept(
    rt: HostRuntime,
) -> Result<(), Fail> {
    let begin = event((1, 1), (1, 1), 1, Op::Begin, Reply::Ok);
    refuses(
        &rt,
        rt.alloc(),
        &[begin, event((1, 1), (1, 1), 1, Op::Begin, Reply::Closed)],
        b"refused twice\nkept 1 A.1 A.1 begin ok\nnew 1 A.1 A.1 begin closed\n",
    )?;
    refuses(
        &rt,
        rt.alloc(),
        &[begin, event((1, 2), (0, 1), 1, Op::Lock, Reply::Ok)],
        b"refused stamps\nkept 1 A.1 A.1 begin ok\nnew 1 A.2 m.1 lock ok\n",
    )
}

#[test]
fn an_event_that_is_held_waits_for_a_place_in_its_thread_or_at_its_object(
    rt: HostRuntime,
) -> Result<(), Fail> {
    refuses(
        &rt,
        rt.alloc(),
        &[event((1, 2), (0, 1), 2, Op::Lock, Reply::Ok)],
        b"refused missing\nheld 2 A.2 m.1 lock ok\nmissing thread A.1\n",
    )?;
    refuses(
        &rt,
        rt.alloc(),
        &[
            event((1, 1), (1, 1), 1, Op::Begin, Reply::Ok),
            event((1, 2), (0, 2), 2, Op::Lock, Reply::Ok),
        ],
        b"refused missing\nheld 2 A.2 m.2 lock ok\nmissing object m.1\n",
    )
}

#[test]
fn an_illegal_event_stands_before_what_was_expected(rt: HostRuntime) -> Result<(), Fail> {
    let a = event((1, 1), (1, 1), 1, Op::Begin, Reply::Ok);
    let b = event((2, 1), (2, 1), 1, Op::Begin, Reply::Ok);
    let locks = event((1, 2), (0, 1), 2, Op::Lock, Reply::Ok);
    let waits = event((2, 2), (0, 2), 3, Op::Lock, Reply::Wait);
    let unlocks = event((1, 3), (0, 2), 3, Op::Unlock, Reply::Ok);
    let stops = event((0, 1), (0, 1), 1, Op::Stop, Reply::Ok);
    let stops_later = event((0, 1), (0, 2), 3, Op::Stop, Reply::Ok);
    let stopped = event((2, 2), (0, 3), 4, Op::Lock, Reply::Stopped);
    let ends = event((1, 4), (1, 2), 4, Op::End { cut: false }, Reply::Ok);
    let table: [(&[Entry], &[u8]); 10] = [
        (
            &[
                a,
                locks,
                unlocks,
                ends,
                event((1, 5), (0, 3), 5, Op::Lock, Reply::Ok),
            ],
            b"refused illegal\nevent 5 A.5 m.3 lock ok\nexpected nothing\n",
        ),
        (
            &[event((1, 1), (1, 1), 2, Op::Begin, Reply::Ok)],
            b"refused illegal\nevent 2 A.1 A.1 begin ok\nexpected stamp 1\n",
        ),
        (
            &[
                a,
                b,
                locks,
                waits,
                event((2, 3), (0, 3), 4, Op::Resume, Reply::Ok),
            ],
            b"refused illegal\nevent 4 B.3 m.3 resume ok\nexpected resume m\n",
        ),
        (
            &[event((2, 1), (0, 1), 1, Op::Lock, Reply::Ok)],
            b"refused illegal\nevent 1 B.1 m.1 lock ok\nexpected B begin\n",
        ),
        (
            &[a, event((1, 2), (0, 1), 2, Op::Unlock, Reply::NotOwner)],
            b"refused illegal\nevent 2 A.2 m.1 unlock notowner\nexpected m lock\n",
        ),
        (
            &[
                a,
                locks,
                unlocks,
                event((1, 4), (0, 3), 4, Op::Lock, Reply::Ok),
            ],
            b"refused illegal\nevent 4 A.4 m.3 lock ok\nexpected end ok\n",
        ),
        (
            &[
                a,
                b,
                locks,
                stops_later,
                stopped,
                event((2, 3), (0, 4), 5, Op::Unlock, Reply::NotOwner),
            ],
            b"refused illegal\nevent 5 B.3 m.4 unlock notowner\nexpected end cut\n",
        ),
        (
            &[event((0, 1), (0, 1), 1, Op::Lock, Reply::Ok)],
            b"refused illegal\nevent 1 main.1 m.1 lock ok\nexpected stop\n",
        ),
        (
            &[stops, event((0, 2), (0, 2), 2, Op::Stop, Reply::Ok)],
            b"refused illegal\nevent 2 main.2 m.2 stop ok\nexpected nothing\n",
        ),
        (
            &[
                a,
                b,
                locks,
                waits,
                event((1, 3), (0, 3), 4, Op::Unlock, Reply::Ok),
            ],
            b"refused illegal\nevent 4 A.3 m.3 unlock ok\nexpected reply gave B\n",
        ),
    ];
    for (entries, wanted) in table {
        refuses(&rt, rt.alloc(), entries, wanted)?;
    }
    Ok(())
}

/// A merger shows the events of a trace in their places, so that no trace has this cause.
#[test]
fn a_place_is_said_of_its_thread_or_of_its_object(rt: HostRuntime) -> Result<(), Fail> {
    let exercise = read(rt.alloc(), PAIR)?;
    assert_eq!(rt; exercise.objects(), 3);
    assert_eq!(rt; exercise.threads(), 2);
    let mut out = Vec::new(rt.alloc());
    let in_thread = Missing::Thread {
        thread: 2,
        place: 3,
    };
    append_expected(&mut out, &exercise, &Cause::Place(in_thread))?;
    out.push(b'\n')?;
    let at_object = Missing::Object { object: 0, at: 4 };
    append_expected(&mut out, &exercise, &Cause::Place(at_object))?;
    assert_eq!(rt; out.as_slice(), b"thread B.3\nobject m.4".as_slice());
    Ok(())
}
