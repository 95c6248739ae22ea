ghost use Rattle.std.specs.Prelude.{◌≡◌, ◌≤◌, IfOk, List, slice_get, Some};
ghost use Rattle.tm_base.specs.declared.kinds.Kind.TheVariants as kind;
ghost use Rattle.tm_base.specs.Tickets.{opening};
ghost use Rattle.tm_book.specs.Made.{CanMake};
ghost use Rattle.tm_turn.specs.Passes.{IsPassOf};
ghost use Rattle.tm_worker.specs.Outcomes.{SuitsPasses};
ghost use Rattle.tm_worker.specs.Standings.{HasOwn, kinds_of};
ghost use Rattle.tm_worker.specs.Workers.{AreFreshPasses, IsFreshPass};

use super::*;
use std::alloc::Global;
use std::test::Fail;
use tm_base::{Ask, Body, Kind, NoMemory, Op, Reply, Sequence};
use tm_book::Book;
use tm_outside::NoGate;
use tm_ring::{Inbox, close, ring};
use tm_shared::{Pass, Shared};

/// A program that locks the mutex with number 2, unlocks it, and is over. It knows how often it was asked.
#[derive(Drop)]
struct LocksOnce {
    asked: u32,
}

impl Body for LocksOnce {
    ghost use Rattle.std.specs.Prelude.{◌≡◌, ◌+◌, ◌==◌, if◌then◌else◌, nat_lt, slice_get, Some};
    ghost use Rattle.tm_base.specs.declared.asks.Ask.TheVariants as ask;
    ghost use Rattle.tm_base.specs.declared.kinds.Kind.TheVariants as kind;
    ghost use Rattle.tm_base.specs.declared.operations.Op.TheVariants as op;

    ghost asked = { λ b _. if b.asked == 0 then ask.Call 2 op.Lock else if b.asked == 1 then ask.Call 2 op.Unlock else ask.Over };

    ghost rest = { λ b _. record { asked = b.asked + 1 } };

    ghost is_for = { λ kinds _. slice_get kinds 2 ≡ Some kind.Mutex };

    ghost begun = { λ b. nat_lt 0 b.asked };

    ghost over = { λ b. nat_lt 2 b.asked };

    fn next(&mut self, _last: Reply) -> Ask {
        let asked = self.asked;
        self.asked += 1;
        match asked {
            0 => Ask::Call {
                object: 2,
                op: Op::Lock,
            },
            1 => Ask::Call {
                object: 2,
                op: Op::Unlock,
            },
            _ => Ask::Over,
        }
    }
}

/// An object of two threads, and a pass of each.
fn object(alloc: Global, number: u32, kind: Kind) -> Result<(Shared, Pass, Pass), NoMemory>
    requires { CanMake kind 2 }
    ensures label { IfOk result (λ made. made.0.label ≡ record { object = number; kind = kind; threads = 2 }) }
    ensures first { IfOk result (λ made. IsPassOf made.0 made.1 × IsFreshPass 1 number made.1) }
    ensures second { IfOk result (λ made. IsPassOf made.0 made.2 × IsFreshPass 2 number made.2) }
{
    let book = Book::make(alloc, number, kind, 2)?;
    let (shared, mut root) = Shared::make(alloc, book)?;
    let first = shared.split(&mut root, 1);
    let second = shared.split(&mut root, 2);
    Ok((shared, first, second))
}

/// A worker that runs the program by these passes.
fn worker(
    alloc: Global,
    thread: u32,
    passes: Vec<Pass>,
    limit: u32,
) -> Result<(Worker<LocksOnce>, Inbox), NoMemory>
    requires thread { (1 ≤ thread) × (thread ≤ 2) }
    requires passes { AreFreshPasses thread passes.items }
    requires limit { (1 ≤ limit) × (limit ≤ 10000) }
    ensures passes { IfOk result (λ made. made.0.log.passes ≡ passes.items) }
    ensures ticket { IfOk result (λ made. made.0.log.ticket ≡ opening thread) }
    ensures ring { IfOk result (λ made. made.1.ring ≡ made.0.log.outbox.ring) }
{
    let (outbox, inbox) = ring(alloc, 64)?;
    let passes = Sequence::from_vec(passes);
    match Worker::make(alloc, LocksOnce { asked: 0 }, thread, passes, outbox, limit) {
        Ok(worker) => Ok((worker, inbox)),
        Err(_) => Err(NoMemory),
    }
}

/// The objects of two threads and a mutex, and a worker for each thread.
fn scene(
    alloc: Global,
    limit: u32,
) -> Result<(Vec<Shared>, Worker<LocksOnce>, Worker<LocksOnce>, Inbox), NoMemory>
    requires limit { (1 ≤ limit) × (limit ≤ 10000) }
    ensures suits_first { IfOk result (λ s. SuitsPasses s.0.items s.1.log.passes s.1.log.ticket.thread) }
    ensures suits_second { IfOk result (λ s. SuitsPasses s.0.items s.2.log.passes s.2.log.ticket.thread) }
    ensures own_first { IfOk result (λ s. HasOwn s.0.items s.1.log.ticket.thread) }
    ensures own_second { IfOk result (λ s. HasOwn s.0.items s.2.log.ticket.thread) }
    ensures mutex { IfOk result (λ s. slice_get (kinds_of s.0.items) 2 ≡ Some kind.Mutex) }
    ensures ring { IfOk result (λ s. s.3.ring ≡ s.1.log.outbox.ring) }
{
    let first = Kind::Thread {
        own: 1,
        held: false,
    };
    let second = Kind::Thread {
        own: 2,
        held: false,
    };
    let (a, a1, a2) = object(alloc, 0, first)?;
    let (b, b1, b2) = object(alloc, 1, second)?;
    let (m, m1, m2) = object(alloc, 2, Kind::Mutex)?;
    let (one, inbox) = worker(alloc, 1, vec![in alloc; a1, b1, m1]?, limit)?;
    let (two, _) = worker(alloc, 2, vec![in alloc; a2, b2, m2]?, limit)?;
    Ok((vec![in alloc; a, b, m]?, one, two, inbox))
}

/// Turns the worker once.
fn turned(worker: &mut Worker<LocksOnce>, shared: &[Shared]) -> Turned
    requires suits { SuitsPasses shared.now worker.old.log.passes worker.old.log.ticket.thread }
    requires own { HasOwn shared.now worker.old.log.ticket.thread }
    requires mutex { slice_get (kinds_of shared.now) 2 ≡ Some kind.Mutex }
    ensures suits { SuitsPasses shared.now worker.new.log.passes worker.new.log.ticket.thread }
    ensures own { HasOwn shared.now worker.new.log.ticket.thread }
{
    worker.turn(shared, &NoGate)
}

/// What the turn made, as the event's object, operation, reply and stamp.
fn made(turned: Turned) -> Option<(u32, Op, Reply, u64)> {
    match turned {
        Turned::Made(entry) => Some((entry.object, entry.op, entry.reply, entry.stamp)),
        _ => None,
    }
}

const END: Op = Op::End { cut: false };

#[test]
fn two_workers_lock_one_mutex_by_turns(rt: HostRuntime) -> Result<(), Fail> {
    let (shared, mut a, mut b, _) = scene(rt.alloc(), 1000)?;
    let shared = shared.as_slice();
    assert_eq!(rt;
        made(turned(&mut a, shared)),
        Some((0, Op::Begin, Reply::Ok, 1))
    );
    assert_eq!(rt;
        made(turned(&mut b, shared)),
        Some((1, Op::Begin, Reply::Ok, 1))
    );
    assert_eq!(rt;
        made(turned(&mut a, shared)),
        Some((2, Op::Lock, Reply::Ok, 2))
    );
    assert_eq!(rt;
        made(turned(&mut b, shared)),
        Some((2, Op::Lock, Reply::Wait, 3))
    );
    assert_eq!(rt; turned(&mut b, shared), Turned::NotYet);
    assert_eq!(rt;
        made(turned(&mut a, shared)),
        Some((2, Op::Unlock, Reply::Gave(2), 4))
    );
    assert_eq!(rt;
        made(turned(&mut b, shared)),
        Some((2, Op::Resume, Reply::Ok, 5))
    );
    assert_eq!(rt; made(turned(&mut a, shared)), Some((0, END, Reply::Ok, 5)));
    assert_eq!(rt;
        made(turned(&mut b, shared)),
        Some((2, Op::Unlock, Reply::Ok, 6))
    );
    assert_eq!(rt; made(turned(&mut b, shared)), Some((1, END, Reply::Ok, 7)));
    assert_eq!(rt; turned(&mut a, shared), Turned::Over);
    Ok(())
}

#[test]
fn a_worker_ends_cut_at_its_limit(rt: HostRuntime) -> Result<(), Fail> {
    let (shared, mut a, _, _) = scene(rt.alloc(), 1)?;
    a.run(&rt, shared.as_slice(), &NoGate);
    assert!(rt; !a.short() && !a.worn());
    let home = a.home();
    assert_eq!(rt; (home.ticket.next(), home.ticket.clock()), (4, 3));
    assert_eq!(rt; home.body.asked, 2);
    assert_eq!(rt; home.passes.len(), 3);
    Ok(())
}

#[test]
fn what_a_worker_makes_is_sent_once(rt: HostRuntime) -> Result<(), Fail> {
    let (shared, mut worker, _, inbox) = scene(rt.alloc(), 1)?;
    let Turned::Made(begin) = worker.turn(shared.as_slice(), &NoGate) else {
        panic!(rt; "nobody else is there")
    };
    let mut rest = close(worker.home().outbox, inbox);
    assert_eq!(rt; rest.next(), Some(begin));
    assert_eq!(rt; rest.next(), None);
    Ok(())
}
