use crate::{Collector, Refusal};
use std::test::Fail;
use tm_base::{Entry, Op, Reply};
use tm_joint::{Cause, Illegal};
use tm_merge::Refused;
use tm_outside::MemorySink;
use tm_text::read;

/// A mutex `m` and two threads, `A` and `B`.
const PAIR: &[u8] = b"mutex m\nthread A\nlock m\nunlock m\nend\nthread B\nlock m\nunlock m\nend\n";

const A_BEGINS: Entry = Entry {
    thread: 1,
    place: 1,
    object: 1,
    at: 1,
    stamp: 1,
    op: Op::Begin,
    reply: Reply::Ok,
};

const B_BEGINS: Entry = Entry {
    thread: 2,
    place: 1,
    object: 2,
    at: 1,
    stamp: 1,
    op: Op::Begin,
    reply: Reply::Ok,
};

const A_LOCKS: Entry = Entry {
    thread: 1,
    place: 2,
    object: 0,
    at: 1,
    stamp: 2,
    op: Op::Lock,
    reply: Reply::Ok,
};

const B_WAITS: Entry = Entry {
    thread: 2,
    place: 2,
    object: 0,
    at: 2,
    stamp: 3,
    op: Op::Lock,
    reply: Reply::Wait,
};

/// That event of `A` with a reply that the mutex does not give.
const A_IS_REFUSED: Entry = Entry {
    thread: 1,
    place: 2,
    object: 0,
    at: 1,
    stamp: 2,
    op: Op::Lock,
    reply: Reply::Held,
};

const ROWS: &[u8] =
    b"1 1 A.1 A.1 begin ok [R-]\n2 1 B.1 B.1 begin ok [RR]\n3 2 A.2 m.1 lock ok [RR]\n4 3 B.2 m.2 lock wait [RB]\n";

#[test]
fn events_in_any_order_have_the_rows_of_their_run(rt: HostRuntime) -> Result<(), Fail> {
    let exercise = read(rt.alloc(), PAIR)?;
    let mut sink = MemorySink::make(rt.alloc(), 200, &[])?;
    let mut collector = Collector::make(rt.alloc(), &exercise)?;
    let mut watchers = Vec::new(rt.alloc());
    for entry in [A_LOCKS, B_WAITS, B_BEGINS, A_BEGINS] {
        collector.hand(entry)?;
    }
    assert_eq!(rt; collector.pump(&mut sink, &mut watchers)?, 4);
    assert_eq!(rt; sink.bytes(), ROWS);
    assert_eq!(rt;
        collector.shown(),
        [A_BEGINS, B_BEGINS, A_LOCKS, B_WAITS].as_slice()
    );
    assert_eq!(rt; collector.joint().last_stamp(), 3);
    assert!(rt; !collector.write_fault());
    Ok(())
}

#[test]
fn after_a_write_fault_events_are_shown_and_not_written(rt: HostRuntime) -> Result<(), Fail> {
    let exercise = read(rt.alloc(), PAIR)?;
    let mut sink = MemorySink::make(rt.alloc(), 200, &[2])?;
    let mut collector = Collector::make(rt.alloc(), &exercise)?;
    let mut watchers = Vec::new(rt.alloc());
    for entry in [A_BEGINS, B_BEGINS, A_LOCKS] {
        collector.hand(entry)?;
    }
    assert_eq!(rt; collector.pump(&mut sink, &mut watchers)?, 3);
    assert!(rt; collector.write_fault());
    assert_eq!(rt; sink.bytes(), b"1 1 A.1 A.1 begin ok [R-]\n".as_slice());
    Ok(())
}

#[test]
fn a_refusal_is_kept_and_nothing_is_shown_after_it(rt: HostRuntime) -> Result<(), Fail> {
    let exercise = read(rt.alloc(), PAIR)?;
    let mut sink = MemorySink::make(rt.alloc(), 200, &[])?;
    let mut collector = Collector::make(rt.alloc(), &exercise)?;
    let mut watchers = Vec::new(rt.alloc());
    collector.hand(A_BEGINS)?;
    collector.hand(A_BEGINS)?;
    let twice = Refused::TwicePlace(A_BEGINS, A_BEGINS);
    assert_eq!(rt; collector.refusal(), Some(Refusal::Offer(twice)));
    assert_eq!(rt; collector.pump(&mut sink, &mut watchers)?, 0);
    Ok(())
}

#[test]
fn an_illegal_event_is_refused_when_it_is_shown(rt: HostRuntime) -> Result<(), Fail> {
    let exercise = read(rt.alloc(), PAIR)?;
    let mut sink = MemorySink::make(rt.alloc(), 200, &[])?;
    let mut collector = Collector::make(rt.alloc(), &exercise)?;
    let mut watchers = Vec::new(rt.alloc());
    collector.hand(A_IS_REFUSED)?;
    collector.hand(A_BEGINS)?;
    assert_eq!(rt; collector.pump(&mut sink, &mut watchers)?, 1);
    let illegal = Illegal {
        entry: A_IS_REFUSED,
        cause: Cause::Reply(Reply::Ok),
    };
    assert_eq!(rt; collector.refusal(), Some(Refusal::Apply(illegal)));
    Ok(())
}
