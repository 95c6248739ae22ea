ghost use Rattle.std.specs.Prelude.{◌≡◌, ◌≢◌, ◌<◌, ◌^◌, [], false};
ghost use Rattle.tm_turn.specs.Passes.{IsPassOf};
ghost use Rattle.tm_turn.specs.Prefixes.{has};

use super::*;
use std::alloc::Global;
use std::sync::Wait;
use std::test::Fail;
use std::thread::{Threads, join};
use tm_base::{Entry, Op, Reply};

/// A list of events of one object.
#[derive(Drop)]
struct Log {
    object: u32,
    entries: Vec<Entry>,
}

impl Kept for Log {
    ghost use Rattle.tm_base.specs.declared.kinds.Kind.TheVariants as kind;

    ghost entries = { λ log. log.entries.items };

    ghost label = { λ log. record { object = log.object; kind = kind.Mutex; threads = 2 } };

    fn length(&self) -> u64 {
        self.entries.len() as u64
    }
}

impl Log {
    fn make(alloc: Global) -> Log
        ensures { result.entries.items ≡ [] }
    {
        Log {
            object: 7,
            entries: Vec::new(alloc),
        }
    }
}

/// The pass takes the turn, adds an event of its own at this place, notes it and gives the turn back.
/// Without memory it gives the turn back as it was.
fn add<R: Wait>(rt: &R, turn: &Turn<Log>, pass: &mut Pass<Log>, place: u64) -> bool
    requires of { IsPassOf turn.now pass.old }
    requires idle { pass.old.holds ≡ false }
    ensures { pass.new ≡ record pass.old { seen = pass.new.seen; turns = pass.new.turns; misses = pass.new.misses; missed = pass.new.missed } }
{
    let mut held = turn.take(rt, pass);
    let log = held.value();
    let entry = Entry {
        thread: pass.number(),
        place,
        object: log.object,
        at: place,
        stamp: place,
        op: Op::Lock,
        reply: Reply::Ok,
    };
    let added = log.entries.push(entry).is_ok();
    if added {
        turn.note(pass, &mut held, &entry);
    }
    turn.give(pass, held);
    added
}

/// The pass adds 1,000 events.
fn add_all<R: Wait>(rt: &R, turn: &Turn<Log>, mut pass: Pass<Log>) -> Pass<Log>
    requires of { IsPassOf turn.now pass }
    requires idle { pass.holds ≡ false }
    ensures { result ≡ record pass { seen = result.seen; turns = result.turns; misses = result.misses; missed = result.missed } }
{
    for place in 0..1000u64 {
        add(rt, turn, &mut pass, place + 1);
    }
    pass
}

/// Both passes add their events, each in a thread of its own.
fn add_both<R: Threads + Wait + Sync>(
    rt: &R,
    turn: &Turn<Log>,
    first: Pass<Log>,
    second: Pass<Log>,
) -> (Pass<Log>, Pass<Log>)
    requires first { IsPassOf turn.now first × (first.holds ≡ false) }
    requires second { IsPassOf turn.now second × (second.holds ≡ false) }
    ensures first { result.0 ≡ record first { seen = result.0.seen; turns = result.0.turns; misses = result.0.misses; missed = result.0.missed } }
    ensures second { result.1 ≡ record second { seen = result.1.seen; turns = result.1.turns; misses = result.1.misses; missed = result.1.missed } }
{
    join(
        rt,
        || -> Pass<Log>
            requires { IsPassOf turn.now first × (first.holds ≡ false) }
            ensures { result ≡ record first { seen = result.seen; turns = result.turns; misses = result.misses; missed = result.missed } }
        { add_all(rt, turn, first) },
        || -> Pass<Log>
            requires { IsPassOf turn.now second × (second.holds ≡ false) }
            ensures { result ≡ record second { seen = result.seen; turns = result.turns; misses = result.misses; missed = result.missed } }
        { add_all(rt, turn, second) },
    )
}

#[test]
fn one_pass_holds_the_turn(rt: HostRuntime) -> Result<(), Fail> {
    let (turn, mut root) = Turn::make(rt.alloc(), Log::make(rt.alloc()))?;
    let mut first = turn.split(&mut root, 1);
    let mut second = turn.split(&mut root, 2);
    let held = turn.take(&rt, &mut first);
    match turn.try_take(&mut second) {
        Ok(early) => {
            turn.give(&mut second, early);
            panic!(rt; "the turn was taken twice")
        }
        Err(busy) => assert_eq!(rt; busy, Busy { holder: 1 }),
    }
    turn.give(&mut first, held);
    match turn.try_take(&mut second) {
        Ok(held) => turn.give(&mut second, held),
        Err(_) => panic!(rt; "the turn wasn't given back"),
    }
    Ok(())
}

/// Whether the thread's events have the places 1 to 1,000, in order.
fn are_in_order(entries: &[Entry], thread: u32) -> bool {
    let mut last = 0u64;
    for entry in entries {
        if entry.thread == thread {
            if entry.place != last.wrapping_add(1) {
                return false;
            }
            last = entry.place;
        }
    }
    last == 1000
}

#[test]
fn two_threads_add_to_one_history(rt: HostRuntime) -> Result<(), Fail> {
    let (turn, mut root) = Turn::make(rt.alloc(), Log::make(rt.alloc()))?;
    let first = turn.split(&mut root, 1);
    let second = turn.split(&mut root, 2);
    let (first, second) = add_both(&rt, &turn, first, second);
    turn.absorb(&mut root, first);
    turn.absorb(&mut root, second);
    let log = turn.close(root);
    assert_eq!(rt; log.length(), 2000);
    assert!(rt; are_in_order(log.entries.as_slice(), 1));
    assert!(rt; are_in_order(log.entries.as_slice(), 2));
    Ok(())
}

#[test]
fn a_pass_that_met_another_adds_behind_it(rt: HostRuntime) -> Result<(), Fail> {
    let (turn, mut root) = Turn::make(rt.alloc(), Log::make(rt.alloc()))?;
    let mut first = turn.split(&mut root, 1);
    let mut second = turn.split(&mut root, 2);
    assert!(rt; add(&rt, &turn, &mut first, 1));
    turn.meet(&mut second, &mut first);
    assert!(rt; add(&rt, &turn, &mut second, 2));
    assert_eq!(rt; (first.number(), second.number()), (1, 2));
    turn.absorb(&mut root, first);
    turn.absorb(&mut root, second);
    let log = turn.close(root);
    assert_eq!(rt; log.length(), 2);
    assert_eq!(rt; (log.entries[0].thread, log.entries[1].thread), (1, 2));
    Ok(())
}
