use super::*;
use std::test::Fail;
use tm_base::{Entry, Op, Reply};

fn event(place: u64, op: Op) -> Entry {
    Entry {
        thread: 0,
        place,
        object: 0,
        at: place,
        stamp: place,
        op,
        reply: Reply::Ok,
    }
}

#[test]
fn a_first_stop_retires_and_a_tally_counts_on(rt: HostRuntime) -> Result<(), Fail> {
    let mut watchers: Vec<Box<dyn Watcher>> = Vec::new(rt.alloc());
    watchers.push(Box::new(rt.alloc(), FirstStop::make())?)?;
    watchers.push(Box::new(rt.alloc(), Tally::make())?)?;
    watchers.push(Box::new(rt.alloc(), FirstStop::make())?)?;

    // The operation, how many watchers are left, and what the first of them has seen.
    let table = [
        (Op::Lock, 3, 1u64),
        (Op::Unlock, 3, 2),
        (Op::Stop, 1, 3),
        (Op::Stop, 1, 4),
        (Op::Begin, 1, 5),
    ];
    let mut place = 1;
    for (op, left, seen) in table {
        tell(&mut watchers, &event(place, op));
        assert_eq!(rt; watchers.len(), left, "after event {place}");
        let first = watchers.first().ok_or("none is left")?;
        assert_eq!(rt; first.seen(), seen, "after event {place}");
        place = seen + 1;
    }
    Ok(())
}

#[test]
fn a_hundred_tallies_count_alike(rt: HostRuntime) -> Result<(), Fail> {
    let mut watchers: Vec<Box<dyn Watcher>> = Vec::new(rt.alloc());
    for _ in 0..100 {
        watchers.push(Box::new(rt.alloc(), Tally::make())?)?;
    }
    for place in 1..4 {
        tell(&mut watchers, &event(place, Op::Lock));
    }
    assert_eq!(rt; watchers.len(), 100);
    assert!(rt; watchers.iter().all(|watcher| watcher.seen() == 3));
    Ok(())
}
