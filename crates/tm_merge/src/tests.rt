mod plain_mergers;

use super::*;
use plain_mergers::PlainMerger;
use std::alloc::Global;
use std::process::Abort;
use std::test::Fail;
use tm_base::{Entry, NoMemory, Op, Reply};

fn event(thread: u32, place: u64, object: u32, at: u64, stamp: u64) -> Entry {
    Entry {
        thread,
        place,
        object,
        at,
        stamp,
        op: Op::Add(1),
        reply: Reply::Got(1),
    }
}

#[test]
fn numbers_out_of_range_are_refused(rt: HostRuntime) -> Result<(), Fail> {
    let mut merger = Merger::make(rt.alloc(), 2, 3)?;
    for (entry, field) in [
        (event(3, 1, 0, 1, 1), Field::Thread),
        (event(2, 1, 3, 1, 1), Field::Object),
        (event(2, 0, 2, 1, 1), Field::Place),
        (event(2, 1, 2, 0, 1), Field::At),
        (event(2, 1, 2, 1, 0), Field::Stamp),
    ] {
        assert_eq!(rt; merger.offer(entry), Err(Refused::OutOfRange(field)));
    }
    assert_eq!(rt; merger.settle(), 0);
    assert_eq!(rt; merger.held(0), None);
    Ok(())
}

#[test]
fn an_event_waits_for_all_that_happened_before_it(rt: HostRuntime) -> Result<(), Fail> {
    let first = event(1, 1, 0, 1, 1);
    let second = event(1, 2, 1, 1, 2);
    let third = event(2, 1, 0, 2, 2);
    let fourth = event(2, 2, 1, 2, 3);
    let fifth = event(1, 3, 0, 3, 3);
    let mut merger = Merger::make(rt.alloc(), 2, 2)?;
    for entry in [fourth, fifth, second, third] {
        assert_eq!(rt; merger.offer(entry), Ok(()));
    }
    assert_eq!(rt; merger.settle(), 0);
    assert_eq!(rt; merger.offer(first), Ok(()));
    assert_eq!(rt; merger.settle(), 5);
    assert_eq!(rt;
        merger.shown(),
        [first, second, third, fifth, fourth].as_slice()
    );
    assert_eq!(rt; merger.held_count(), 0);
    Ok(())
}

#[test]
fn a_refused_event_is_named_with_the_one_that_is_kept(rt: HostRuntime) -> Result<(), Fail> {
    let first = event(1, 1, 0, 1, 5);
    let late = event(1, u64::MAX, 0, u64::MAX, 6);
    let mut merger = Merger::make(rt.alloc(), 2, 2)?;
    assert_eq!(rt; merger.offer(first), Ok(()));
    assert_eq!(rt; merger.offer(late), Ok(()));
    assert_eq!(rt; merger.settle(), 1);
    let again = event(1, 1, 1, 1, 1);
    assert_eq!(rt; merger.offer(again), Err(Refused::TwicePlace(first, again)));
    let beside = event(2, 1, 0, u64::MAX, 7);
    assert_eq!(rt;
        merger.offer(beside),
        Err(Refused::TwicePlace(late, beside))
    );
    let early = event(1, 2, 1, 1, 5);
    assert_eq!(rt; merger.offer(early), Err(Refused::StampOrder(first, early)));
    assert_eq!(rt; merger.held_count(), 1);
    Ok(())
}

#[test]
fn a_held_event_names_the_place_for_which_it_waits(rt: HostRuntime) -> Result<(), Fail> {
    let behind = event(1, 2, 0, 2, 4);
    let far = event(2, 1, 0, 3, 5);
    let apart = event(2, 3, 1, 1, 4);
    let alone = event(0, 1, 1, 3, 9);
    let mut merger = Merger::make(rt.alloc(), 2, 2)?;
    for entry in [alone, far, apart, behind] {
        assert_eq!(rt; merger.offer(entry), Ok(()));
    }
    assert_eq!(rt; merger.settle(), 0);
    let at_thread = |thread, place| Missing::Thread { thread, place };
    for (k, entry, missing) in [
        (0, behind, at_thread(1, 1)),
        (1, apart, at_thread(2, 2)),
        (2, far, at_thread(1, 1)),
        (3, alone, Missing::Object { object: 1, at: 2 }),
    ] {
        assert_eq!(rt; merger.held(k), Some(Hold { entry, missing }));
    }
    assert_eq!(rt; merger.held(4), None);
    Ok(())
}

/// The events in the order of the numbers `first`, `first` + `step` and so on, wrapped round, with a
/// settling after each `batch` of them: both mergers give the same answers.
fn mergers_agree(
    rt: &impl Abort,
    alloc: Global,
    events: &[Entry; 13],
    first: usize,
    step: usize,
    batch: usize,
) -> Result<(), NoMemory> {
    let mut merger = Merger::make(alloc, 2, 3)?;
    let mut plain = PlainMerger::make(alloc, 2, 3)?;
    let mut index = first;
    for i in 0..13 {
        let entry = events[index % 13];
        index = index % 13 + step % 13;
        assert_eq!(rt; merger.offer(entry), plain.offer(entry));
        if i % batch.max(1) == 0 {
            assert_eq!(rt; merger.settle(), plain.settle());
        }
        assert_eq!(rt; merger.held_count(), plain.held_count());
    }
    assert_eq!(rt; merger.settle(), plain.settle());
    assert_eq!(rt; merger.shown(), plain.shown());
    for k in 0..14 {
        assert_eq!(rt; merger.held(k), plain.held(k));
    }
    Ok(())
}

/// Both mergers give the same answers to the events in all these orders.
fn mergers_agree_in_all_orders(
    rt: &impl Abort,
    alloc: Global,
    events: &[Entry; 13],
) -> Result<(), NoMemory> {
    for first in 0..13 {
        for step in 1..13 {
            for batch in [1, 2, 5, 13] {
                mergers_agree(rt, alloc, events, first, step, batch)?;
            }
        }
    }
    Ok(())
}

#[test]
fn the_merger_answers_as_one_that_searches_whole_lists(rt: HostRuntime) -> Result<(), Fail> {
    let events = [
        event(1, 1, 0, 1, 1),
        event(2, 1, 0, 2, 2),
        event(1, 2, 1, 1, 2),
        event(2, 2, 1, 2, 3),
        event(0, 1, 0, 3, 3),
        event(1, 3, 1, 3, 4),
        event(2, 3, 0, 4, 4),
        event(1, 4, 0, 5, 5),
        event(1, 2, 0, 9, 2),
        event(2, 9, 1, 2, 9),
        event(0, 2, 0, 6, 1),
        event(3, 1, 0, 1, 1),
        event(2, 4, 1, 9, 7),
    ];
    mergers_agree_in_all_orders(&rt, rt.alloc(), &events)?;
    Ok(())
}

#[test]
fn events_that_follow_are_shown_among_those_that_waited(rt: HostRuntime) -> Result<(), Fail> {
    let events = [
        event(1, 1, 0, 1, 7),
        event(2, 1, 1, 1, 2),
        event(0, 1, 2, 1, 2),
        event(2, 2, 1, 2, 5),
        event(0, 2, 1, 3, 6),
        event(0, 4, 2, 2, 9),
        event(1, 2, 0, 2, 8),
        event(2, 3, 0, 4, 10),
        event(0, 3, 0, 3, 9),
        event(1, 3, 2, 3, 10),
        event(2, 4, 2, 4, 11),
        event(0, 5, 1, 4, 11),
        event(1, 4, 2, 4, 12),
    ];
    mergers_agree_in_all_orders(&rt, rt.alloc(), &events)?;
    Ok(())
}

#[test]
fn shown_events_are_kept_without_those_that_follow(rt: HostRuntime) -> Result<(), Fail> {
    let later = event(1, 1, 0, 1, 3);
    let sooner = event(2, 1, 1, 1, 2);
    let follower = event(2, 2, 1, 2, 4);
    let mut merger = Merger::make(rt.alloc(), 2, 2)?;
    assert_eq!(rt; merger.offer(later), Ok(()));
    assert_eq!(rt; merger.offer(sooner), Ok(()));
    assert_eq!(rt; merger.settle(), 2);
    assert_eq!(rt; merger.offer(follower), Ok(()));
    assert_eq!(rt; merger.held_count(), 1);
    assert_eq!(rt; merger.into_shown().as_slice(), [sooner, later].as_slice());
    Ok(())
}
