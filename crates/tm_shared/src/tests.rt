ghost use Rattle.std.specs.Prelude.{◌≡◌, IfOk, [], Contains, None, false, true, pos};
ghost use Rattle.tm_base.specs.Fits.{fits};
ghost use Rattle.tm_base.specs.declared.operations.Op.TheVariants as op;
ghost use Rattle.tm_base.specs.Tickets.{opening};
ghost use Rattle.tm_shared.specs.OwnEvents.{MayCall};
ghost use Rattle.tm_turn.specs.Passes.{IsPassOf, mine};

use super::*;
use std::sync::Wait;
use std::test::Fail;
use std::thread::{Threads, join};
use tm_base::{Entry, Kind, Op, Reply, Ticket};
use tm_book::Book;

#[test]
fn a_mutex_is_handed_to_the_pass_that_waits(rt: HostRuntime) -> Result<(), Fail> {
    let book = Book::make(rt.alloc(), 7, Kind::Mutex, 2)?;
    let (lock, mut root) = Shared::make(rt.alloc(), book)?;
    let mut first = lock.split(&mut root, 1);
    let mut second = lock.split(&mut root, 2);
    let mut one = Ticket::make(1);
    let mut two = Ticket::make(2);

    let Ok(entry) = lock.try_begin(&mut first, &mut one, Op::Lock) else {
        panic!(rt; "refused")
    };
    assert_eq!(rt; entry.reply, Reply::Ok);
    assert_eq!(rt; entry.stamp, 1);

    let Ok(entry) = lock.try_begin(&mut second, &mut two, Op::Lock) else {
        panic!(rt; "refused")
    };
    assert_eq!(rt; entry.reply, Reply::Wait);
    assert_eq!(rt; entry.stamp, 2);

    let Err(FinishFault::NotYet) = lock.try_finish(&mut second, &mut two) else {
        panic!(rt; "it isn't unlocked")
    };

    let Ok(entry) = lock.try_begin(&mut first, &mut one, Op::Unlock) else {
        panic!(rt; "refused")
    };
    assert_eq!(rt; entry.reply, Reply::Gave(2));
    assert_eq!(rt; entry.stamp, 3);

    let Ok(entry) = lock.try_finish(&mut second, &mut two) else {
        panic!(rt; "it was granted")
    };
    assert_eq!(rt; entry.op, Op::Resume);
    assert_eq!(rt; entry.reply, Reply::Ok);
    assert_eq!(rt; entry.stamp, 4);
    Ok(())
}

/// The thread adds 1 to the variable. Whether it did: it ran out of neither memory nor numbers.
fn add<R: Wait>(rt: &R, variable: &Shared, pass: &mut Pass, ticket: &mut Ticket) -> bool
    requires of { IsPassOf variable.now pass.old }
    requires idle { pass.old.holds ≡ false }
    requires one { ticket.old.thread ≡ pass.old.number }
    requires free { ticket.old.waits ≡ None }
    requires may { MayCall variable.now.label (mine pass.old) pass.old.number (op.Add (pos 1)) }
    ensures same { pass.new ≡ record pass.old { seen = pass.new.seen; turns = pass.new.turns; misses = pass.new.misses; missed = pass.new.missed } }
    ensures one { ticket.new.thread ≡ ticket.old.thread }
    ensures free { result ≡ true → ticket.new.waits ≡ None }
    ensures may { result ≡ true → MayCall variable.now.label (mine pass.new) pass.new.number (op.Add (pos 1)) }
{
    if ticket.next() >= 1 << 62 || ticket.clock() >= 1 << 62 {
        return false;
    }
    match variable.begin(rt, pass, ticket, Op::Add(1)) {
        Ok(entry) => matches!(entry.reply, Reply::Got(_)),
        Err(_) => false,
    }
}

/// The thread adds 1 for 100 times, and answers whether it did.
fn add_all<R: Wait>(rt: &R, variable: &Shared, mut pass: Pass, mut ticket: Ticket) -> (Pass, bool)
    requires of { IsPassOf variable.now pass }
    requires idle { pass.holds ≡ false }
    requires one { ticket.thread ≡ pass.number }
    requires free { ticket.waits ≡ None }
    requires may { MayCall variable.now.label (mine pass) pass.number (op.Add (pos 1)) }
    ensures { result.0 ≡ record pass { seen = result.0.seen; turns = result.0.turns; misses = result.0.misses; missed = result.0.missed } }
{
    for _ in 0..100u32 {
        if !add(rt, variable, &mut pass, &mut ticket) {
            return (pass, false);
        }
    }
    (pass, true)
}

/// Both threads add, each in a thread of its own.
fn add_both<R: Threads + Wait + Sync>(
    rt: &R,
    variable: &Shared,
    first: (Pass, Ticket),
    second: (Pass, Ticket),
) -> ((Pass, bool), (Pass, bool))
    requires first { (IsPassOf variable.now first.0) × (first.0.holds ≡ false) × (first.1.thread ≡ first.0.number) × (first.1.waits ≡ None) × MayCall variable.now.label (mine first.0) first.0.number (op.Add (pos 1)) }
    requires second { (IsPassOf variable.now second.0) × (second.0.holds ≡ false) × (second.1.thread ≡ second.0.number) × (second.1.waits ≡ None) × MayCall variable.now.label (mine second.0) second.0.number (op.Add (pos 1)) }
    ensures first { result.0.0 ≡ record first.0 { seen = result.0.0.seen; turns = result.0.0.turns; misses = result.0.0.misses; missed = result.0.0.missed } }
    ensures second { result.1.0 ≡ record second.0 { seen = result.1.0.seen; turns = result.1.0.turns; misses = result.1.0.misses; missed = result.1.0.missed } }
{
    join(
        rt,
        || -> (Pass, bool)
            requires { (IsPassOf variable.now first.0) × (first.0.holds ≡ false) × (first.1.thread ≡ first.0.number) × (first.1.waits ≡ None) × MayCall variable.now.label (mine first.0) first.0.number (op.Add (pos 1)) }
            ensures { result.0 ≡ record first.0 { seen = result.0.seen; turns = result.0.turns; misses = result.0.misses; missed = result.0.missed } }
        { add_all(rt, variable, first.0, first.1) },
        || -> (Pass, bool)
            requires { (IsPassOf variable.now second.0) × (second.0.holds ≡ false) × (second.1.thread ≡ second.0.number) × (second.1.waits ≡ None) × MayCall variable.now.label (mine second.0) second.0.number (op.Add (pos 1)) }
            ensures { result.0 ≡ record second.0 { seen = result.0.seen; turns = result.0.turns; misses = result.0.misses; missed = result.0.missed } }
        { add_all(rt, variable, second.0, second.1) },
    )
}

#[test]
fn two_threads_add_to_one_variable(rt: HostRuntime) -> Result<(), Fail> {
    let book = Book::make(rt.alloc(), 7, Kind::Var { value: 0 }, 2)?;
    let (variable, mut root) = Shared::make(rt.alloc(), book)?;
    let first = (variable.split(&mut root, 1), Ticket::make(1));
    let second = (variable.split(&mut root, 2), Ticket::make(2));
    let ((first, first_added), (second, second_added)) = add_both(&rt, &variable, first, second);
    assert!(rt; first_added && second_added);
    variable.absorb(&mut root, first);
    variable.absorb(&mut root, second);
    let book = variable.close(root);
    assert_eq!(rt; book.entries().len(), 200);
    assert_eq!(rt; book.entries()[199].reply, Reply::Got(200));
    Ok(())
}

#[test]
fn while_one_objects_turn_is_held_anothers_is_free(rt: HostRuntime) -> Result<(), Fail> {
    let book = Book::make(rt.alloc(), 7, Kind::Mutex, 2)?;
    let (held, mut root) = Shared::make(rt.alloc(), book)?;
    let mut holder = held.split(&mut root, 1);
    let mut rival = held.split(&mut root, 2);
    let book = Book::make(rt.alloc(), 8, Kind::Mutex, 2)?;
    let (free, mut root) = Shared::make(rt.alloc(), book)?;
    let mut pass = free.split(&mut root, 2);
    let mut ticket = Ticket::make(2);

    let Ok(turn) = held.turn.try_take(&mut holder) else {
        panic!(rt; "nobody holds it")
    };
    let Err(TryFault::Busy(number)) = held.try_begin(&mut rival, &mut ticket, Op::Lock) else {
        panic!(rt; "it is held")
    };
    assert_eq!(rt; number, 1);
    let Ok(entry) = free.try_begin(&mut pass, &mut ticket, Op::Lock) else {
        panic!(rt; "nobody holds it")
    };
    assert_eq!(rt; entry.reply, Reply::Ok);
    held.turn.give(&mut holder, turn);
    Ok(())
}

/// Pass 1 makes a call, and pass 2, which has made none, meets it.
fn meet_after_a_call(
    lock: &Shared,
    first: &mut Pass,
    ticket: &mut Ticket,
    second: &mut Pass,
) -> Result<Entry, TryFault>
    requires of { IsPassOf lock.now first.old × IsPassOf lock.now second.old }
    requires idle { (first.old.holds ≡ false) × (second.old.holds ≡ false) }
    requires one { ticket.old.thread ≡ first.old.number }
    requires fresh { ticket.old ≡ opening first.old.number }
    requires may { MayCall lock.now.label (mine first.old) first.old.number op.Lock }
    requires none { mine second.old ≡ [] }
    ensures seen { IfOk result (λ entry. Contains second.new.seen entry) }
    ensures mine { mine second.new ≡ [] }
{
    let entry = lock.try_begin(first, ticket, Op::Lock)?;
    lock.meet(second, first);
    Ok(entry)
}

#[test]
fn a_pass_that_met_another_has_seen_its_call(rt: HostRuntime) -> Result<(), Fail> {
    let book = Book::make(rt.alloc(), 7, Kind::Mutex, 2)?;
    let (lock, mut root) = Shared::make(rt.alloc(), book)?;
    let mut first = lock.split(&mut root, 1);
    let mut second = lock.split(&mut root, 2);
    let met = meet_after_a_call(&lock, &mut first, &mut Ticket::make(1), &mut second);
    assert!(rt; met.is_ok());
    assert_eq!(rt; (lock.object(), lock.kind()), (7, Kind::Mutex));
    Ok(())
}

#[test]
fn a_stop_grants_the_call_that_waits(rt: HostRuntime) -> Result<(), Fail> {
    let book = Book::make(rt.alloc(), 7, Kind::Sem { value: 0 }, 1)?;
    let (sem, mut root) = Shared::make(rt.alloc(), book)?;
    let mut pass = sem.split(&mut root, 1);
    let mut main = Ticket::make(0);
    let mut ticket = Ticket::make(1);
    let Ok(entry) = sem.begin(&rt, &mut pass, &mut ticket, Op::P) else {
        panic!(rt; "refused")
    };
    assert_eq!(rt; entry.reply, Reply::Wait);
    let Some(stop) = sem.stop(&rt, &mut root, &mut main) else {
        panic!(rt; "it was stopped")
    };
    assert_eq!(rt; stop.stamp, 2);
    let Ok(None) = sem.try_stop(&mut root, &mut main) else {
        panic!(rt; "it wasn't stopped")
    };
    let entry = sem.finish(&rt, &mut pass, &mut ticket);
    assert_eq!(rt; (entry.reply, entry.stamp), (Reply::Stopped, 3));
    Ok(())
}
