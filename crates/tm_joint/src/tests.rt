use super::*;
use std::test::Fail;
use tm_base::{Bar, Entry, Op, Reply};
use tm_merge::Missing;
use tm_replay::Phase;
use tm_text::read;

/// Two threads that take one mutex in turn.
const PAIR: &[u8] = b"mutex m\nthread A\nlock m\nunlock m\nend\nthread B\nlock m\nunlock m\nend\n";

/// The first thread begins.
const BEGIN: Entry = Entry {
    thread: 1,
    place: 1,
    object: 1,
    at: 1,
    stamp: 1,
    op: Op::Begin,
    reply: Reply::Ok,
};

/// The same event in a place that is taken.
const TAKEN: Cause = Cause::Place(Missing::Thread {
    thread: 1,
    place: 2,
});

#[test]
fn an_event_is_applied_once(rt: HostRuntime) -> Result<(), Fail> {
    let exercise = read(rt.alloc(), PAIR)?;
    assert_eq!(rt; exercise.threads(), 2);
    assert_eq!(rt; exercise.objects(), 3);
    let mut joint = Joint::make(rt.alloc(), &exercise)?;
    let call = Asked::Call {
        object: 1,
        op: Op::Begin,
    };
    assert_eq!(rt; joint.asked(1), Some(call));
    assert_eq!(rt; joint.apply(&BEGIN), Ok(()));
    let refusal = Illegal {
        entry: BEGIN,
        cause: TAKEN,
    };
    assert_eq!(rt; joint.apply(&BEGIN), Err(refusal));
    assert_eq!(rt; joint.bars(), [Bar::Runs, Bar::Unborn].as_slice());
    assert_eq!(rt; joint.last_stamp(), 1);
    Ok(())
}

/// An event of that exercise.
const fn event(
    thread: u32,
    place: u64,
    object: u32,
    at: u64,
    stamp: u64,
    op: Op,
    reply: Reply,
) -> Entry {
    Entry {
        thread,
        place,
        object,
        at,
        stamp,
        op,
        reply,
    }
}

#[test]
fn a_waiting_thread_is_granted_and_resumes(rt: HostRuntime) -> Result<(), Fail> {
    let exercise = read(rt.alloc(), PAIR)?;
    let mut joint = Joint::make(rt.alloc(), &exercise)?;
    let end = Op::End { cut: false };
    let (runs, blocked) = (Bar::Runs, Bar::Blocked);
    let run = [
        (
            event(1, 1, 1, 1, 1, Op::Begin, Reply::Ok),
            [runs, Bar::Unborn],
        ),
        (event(2, 1, 2, 1, 1, Op::Begin, Reply::Ok), [runs, runs]),
        (event(1, 2, 0, 1, 2, Op::Lock, Reply::Ok), [runs, runs]),
        (event(2, 2, 0, 2, 3, Op::Lock, Reply::Wait), [runs, blocked]),
        (
            event(1, 3, 0, 3, 4, Op::Unlock, Reply::Gave(2)),
            [runs, Bar::Granted],
        ),
        (event(2, 3, 0, 4, 5, Op::Resume, Reply::Ok), [runs, runs]),
        (event(1, 4, 1, 2, 5, end, Reply::Ok), [Bar::Ended, runs]),
        (
            event(2, 4, 0, 5, 6, Op::Unlock, Reply::Ok),
            [Bar::Ended, runs],
        ),
        (
            event(2, 5, 2, 2, 7, end, Reply::Ok),
            [Bar::Ended, Bar::Ended],
        ),
    ];
    for (entry, bars) in run {
        assert!(rt; entry.thread <= exercise.threads());
        assert!(rt; entry.object < exercise.objects());
        assert!(rt; joint.applied() < 9);
        assert_eq!(rt; joint.apply(&entry), Ok(()));
        assert_eq!(rt; joint.bars(), bars.as_slice());
    }
    assert!(rt; joint.over());
    Ok(())
}

#[test]
fn the_runnable_threads_are_counted_and_found(rt: HostRuntime) -> Result<(), Fail> {
    let exercise = read(rt.alloc(), PAIR)?;
    assert_eq!(rt; exercise.threads(), 2);
    assert_eq!(rt; exercise.objects(), 3);
    let mut joint = Joint::make(rt.alloc(), &exercise)?;
    assert_eq!(rt; joint.runnable_count(), 2);
    assert_eq!(rt; joint.next_runnable(1), Some(2));
    assert_eq!(rt; joint.next_runnable(2), Some(1));
    let begin = event(2, 1, 2, 1, 1, Op::Begin, Reply::Ok);
    let lock = event(1, 2, 0, 1, 2, Op::Lock, Reply::Ok);
    let wait = event(2, 2, 0, 2, 3, Op::Lock, Reply::Wait);
    for entry in [BEGIN, begin, lock, wait] {
        assert!(rt; entry.thread <= exercise.threads());
        assert!(rt; entry.object < exercise.objects());
        assert!(rt; joint.applied() < 4);
        assert_eq!(rt; joint.apply(&entry), Ok(()));
    }
    assert_eq!(rt; joint.runnable_count(), 1);
    assert_eq!(rt; joint.nth_runnable(0), Some(1));
    assert_eq!(rt; joint.nth_runnable(1), None);
    assert_eq!(rt; joint.next_runnable(1), Some(1));
    assert_eq!(rt; joint.seat(2).made(), 1);
    assert_eq!(rt; joint.seat(2).phase(), Phase::Waits(0));
    Ok(())
}
