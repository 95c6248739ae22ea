ghost use Rattle.std.specs.Prelude.{◌≡◌};

use super::*;
use std::process::Abort;
use std::test::Fail;
use tm_base::{Kind, Machine, Op, Reply};

const CONSUMER: u32 = 1;

const PRODUCER: u32 = 2;

const EXTRA: u32 = 3;

/// The reply to a call that the thread can make now, which `would` foretells.
fn call<M: Machine>(rt: &impl Abort, monitor: &mut M, thread: u32, op: Op) -> Reply
    requires { (M.object monitor.old).threads ≡ 3 }
    ensures { (M.object monitor.new).threads ≡ 3 }
{
    let kind = monitor.kind();
    assert!(rt; matches!(kind, Kind::Hoare { .. } | Kind::Mesa { .. }));
    assert!(rt;
        matches!(
            op,
            Op::Enter | Op::Leave | Op::Wait(_) | Op::Signal(_) | Op::Broadcast(_)
        )
    );
    assert!(rt; op.fits(kind));
    assert!(rt; 1 <= thread);
    assert!(rt; thread <= 3);
    assert!(rt; !monitor.pending(thread));
    let foretold = monitor.would(thread, op);
    let reply = monitor.step(thread, op);
    assert_eq!(rt; reply, foretold);
    reply
}

/// The granted reply that the thread takes, whose call is pending.
fn resume<M: Machine>(rt: &impl Abort, monitor: &mut M, thread: u32) -> Option<Reply>
    requires { (M.object monitor.old).threads ≡ 3 }
    ensures { (M.object monitor.new).threads ≡ 3 }
{
    assert!(rt; monitor.pending(thread));
    monitor.resume(thread)
}

/// The consumer waits at a condition, the producer was let in, and the extra thread stands at the entrance.
fn consumer_waits<M: Machine>(rt: &impl Abort, monitor: &mut M)
    requires { (M.object monitor.old).threads ≡ 3 }
    ensures { (M.object monitor.new).threads ≡ 3 }
{
    assert_eq!(rt; call(rt, monitor, CONSUMER, Op::Enter), Reply::Ok);
    assert_eq!(rt; call(rt, monitor, PRODUCER, Op::Enter), Reply::Wait);
    assert_eq!(rt; call(rt, monitor, EXTRA, Op::Enter), Reply::Wait);
    assert_eq!(rt; call(rt, monitor, CONSUMER, Op::Wait(0)), Reply::Wait);
    assert!(rt; monitor.holds(PRODUCER));
    assert_eq!(rt; resume(rt, monitor, PRODUCER), Some(Reply::Ok));
}

#[test]
fn a_hoare_signal_lets_the_waiter_in_at_once(rt: HostRuntime) -> Result<(), Fail> {
    let mut monitor = HoareM::make(rt.alloc(), 3, 1)?;
    consumer_waits(&rt, &mut monitor);
    assert_eq!(rt;
        call(&rt, &mut monitor, PRODUCER, Op::Signal(0)),
        Reply::Wait
    );
    assert!(rt; monitor.holds(CONSUMER));
    assert_eq!(rt; monitor.waiters(), 2);
    assert_eq!(rt; resume(&rt, &mut monitor, CONSUMER), Some(Reply::Ok));
    assert_eq!(rt;
        call(&rt, &mut monitor, CONSUMER, Op::Leave),
        Reply::Gave(PRODUCER)
    );
    assert_eq!(rt; resume(&rt, &mut monitor, PRODUCER), Some(Reply::Ok));
    assert_eq!(rt;
        call(&rt, &mut monitor, PRODUCER, Op::Leave),
        Reply::Gave(EXTRA)
    );
    Ok(())
}

#[test]
fn a_mesa_signal_lets_the_signaller_go_on(rt: HostRuntime) -> Result<(), Fail> {
    let mut monitor = MesaM::make(rt.alloc(), 3, 1)?;
    consumer_waits(&rt, &mut monitor);
    assert_eq!(rt; call(&rt, &mut monitor, PRODUCER, Op::Signal(0)), Reply::Ok);
    assert!(rt; monitor.holds(PRODUCER));
    assert_eq!(rt;
        call(&rt, &mut monitor, PRODUCER, Op::Leave),
        Reply::Gave(EXTRA)
    );
    assert_eq!(rt; resume(&rt, &mut monitor, EXTRA), Some(Reply::Ok));
    assert_eq!(rt;
        call(&rt, &mut monitor, EXTRA, Op::Leave),
        Reply::Gave(CONSUMER)
    );
    assert_eq!(rt; resume(&rt, &mut monitor, CONSUMER), Some(Reply::Ok));
    assert_eq!(rt; call(&rt, &mut monitor, CONSUMER, Op::Leave), Reply::Ok);
    Ok(())
}

#[test]
fn a_mesa_broadcast_moves_all_that_wait(rt: HostRuntime) -> Result<(), Fail> {
    let mut monitor = MesaM::make(rt.alloc(), 3, 1)?;
    consumer_waits(&rt, &mut monitor);
    assert_eq!(rt; call(&rt, &mut monitor, PRODUCER, Op::Wait(0)), Reply::Wait);
    assert_eq!(rt; resume(&rt, &mut monitor, EXTRA), Some(Reply::Ok));
    assert_eq!(rt; call(&rt, &mut monitor, EXTRA, Op::Broadcast(0)), Reply::Ok);
    assert_eq!(rt;
        call(&rt, &mut monitor, EXTRA, Op::Leave),
        Reply::Gave(CONSUMER)
    );
    assert_eq!(rt; resume(&rt, &mut monitor, CONSUMER), Some(Reply::Ok));
    assert_eq!(rt;
        call(&rt, &mut monitor, CONSUMER, Op::Leave),
        Reply::Gave(PRODUCER)
    );
    Ok(())
}

/// Nobody waits at a stopped monitor: each call that waited was granted `Stopped`, and each that would wait
/// is answered so; all else goes on as before.
fn goes_on_when_stopped<M: Machine>(rt: &impl Abort, monitor: &mut M)
    requires { (M.object monitor.old).threads ≡ 3 }
    ensures { (M.object monitor.new).threads ≡ 3 }
{
    consumer_waits(rt, monitor);
    assert!(rt; !monitor.stopped());
    monitor.stop();
    assert_eq!(rt; monitor.waiters(), 0);
    assert_eq!(rt; resume(rt, monitor, CONSUMER), Some(Reply::Stopped));
    assert_eq!(rt; resume(rt, monitor, EXTRA), Some(Reply::Stopped));
    assert_eq!(rt; call(rt, monitor, EXTRA, Op::Enter), Reply::Stopped);
    assert_eq!(rt; call(rt, monitor, PRODUCER, Op::Wait(0)), Reply::Stopped);
    assert_eq!(rt; call(rt, monitor, PRODUCER, Op::Signal(0)), Reply::Ok);
    assert_eq!(rt; call(rt, monitor, PRODUCER, Op::Leave), Reply::Ok);
    assert_eq!(rt; call(rt, monitor, EXTRA, Op::Enter), Reply::Ok);
}

#[test]
fn a_stopped_hoare_monitor_makes_nobody_wait(rt: HostRuntime) -> Result<(), Fail> {
    let mut monitor = HoareM::make(rt.alloc(), 3, 1)?;
    goes_on_when_stopped(&rt, &mut monitor);
    Ok(())
}

#[test]
fn a_stopped_mesa_monitor_makes_nobody_wait(rt: HostRuntime) -> Result<(), Fail> {
    let mut monitor = MesaM::make(rt.alloc(), 3, 1)?;
    goes_on_when_stopped(&rt, &mut monitor);
    Ok(())
}
