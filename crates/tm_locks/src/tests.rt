use super::*;
use std::test::Fail;
use tm_base::{GREATEST_SEMAPHORE_VALUE, Machine, Op, Reply};

#[test]
fn an_unlock_hands_the_mutex_to_the_thread_that_waits(rt: HostRuntime) -> Result<(), Fail> {
    let mut mutex = MutexM::make(rt.alloc(), 2)?;
    assert_eq!(rt; mutex.step(1, Op::Lock), Reply::Ok);
    assert_eq!(rt; mutex.would(2, Op::Lock), Reply::Wait);
    assert_eq!(rt; mutex.step(2, Op::Lock), Reply::Wait);
    assert_eq!(rt; mutex.step(1, Op::Unlock), Reply::Gave(2));
    assert!(rt; mutex.holds(2));
    assert_eq!(rt; mutex.resume(2), Some(Reply::Ok));
    Ok(())
}

#[test]
fn a_semaphore_of_the_greatest_value_is_full_until_a_p(rt: HostRuntime) -> Result<(), Fail> {
    let mut semaphore = SemM::make(rt.alloc(), 1, GREATEST_SEMAPHORE_VALUE)?;
    assert_eq!(rt; semaphore.step(1, Op::V), Reply::Full);
    assert_eq!(rt; semaphore.step(1, Op::P), Reply::Ok);
    assert_eq!(rt; semaphore.step(1, Op::V), Reply::Ok);
    assert_eq!(rt; semaphore.would(1, Op::V), Reply::Full);
    Ok(())
}

#[test]
fn a_v_gives_to_the_thread_that_waits_in_p(rt: HostRuntime) -> Result<(), Fail> {
    let mut semaphore = SemM::make(rt.alloc(), 2, 0)?;
    assert_eq!(rt; semaphore.step(1, Op::TryP), Reply::Zero);
    assert_eq!(rt; semaphore.step(1, Op::P), Reply::Wait);
    assert_eq!(rt; semaphore.step(2, Op::V), Reply::Gave(1));
    assert_eq!(rt; semaphore.would(2, Op::TryP), Reply::Zero);
    assert_eq!(rt; semaphore.resume(1), Some(Reply::Ok));
    Ok(())
}

#[test]
fn a_barrier_opens_for_its_last_party_and_closes_again(rt: HostRuntime) -> Result<(), Fail> {
    let mut barrier = BarrierM::make(rt.alloc(), 2, 2)?;
    assert_eq!(rt; barrier.step(1, Op::Arrive), Reply::Wait);
    assert_eq!(rt; barrier.step(2, Op::Arrive), Reply::Last);
    assert_eq!(rt; barrier.resume(1), Some(Reply::Ok));
    assert_eq!(rt; barrier.step(2, Op::Arrive), Reply::Wait);
    assert_eq!(rt; barrier.step(1, Op::Arrive), Reply::Last);
    Ok(())
}

#[test]
fn a_waiting_writer_goes_in_before_later_readers(rt: HostRuntime) -> Result<(), Fail> {
    let mut lock = RwM::make(rt.alloc(), 3)?;
    assert_eq!(rt; lock.step(1, Op::RLock), Reply::Ok);
    assert_eq!(rt; lock.step(2, Op::WLock), Reply::Wait);
    assert_eq!(rt; lock.step(3, Op::RLock), Reply::Wait);
    assert_eq!(rt; lock.step(1, Op::RUnlock), Reply::Ok);
    assert!(rt; lock.holds(2));
    assert_eq!(rt; lock.waiters(), 1);
    assert_eq!(rt; lock.resume(2), Some(Reply::Ok));
    assert_eq!(rt; lock.step(2, Op::WUnlock), Reply::Ok);
    assert!(rt; lock.holds(3));
    assert_eq!(rt; lock.resume(3), Some(Reply::Ok));
    Ok(())
}

#[test]
fn a_stopped_mutex_lets_nobody_wait(rt: HostRuntime) -> Result<(), Fail> {
    let mut mutex = MutexM::make(rt.alloc(), 2)?;
    mutex.stop();
    assert_eq!(rt; mutex.step(1, Op::Lock), Reply::Ok);
    assert_eq!(rt; mutex.step(2, Op::Lock), Reply::Stopped);
    assert_eq!(rt; mutex.step(1, Op::Unlock), Reply::Ok);
    assert_eq!(rt; mutex.step(2, Op::Lock), Reply::Ok);
    Ok(())
}

#[test]
fn a_stopped_semaphore_lets_nobody_wait(rt: HostRuntime) -> Result<(), Fail> {
    let mut semaphore = SemM::make(rt.alloc(), 1, 0)?;
    semaphore.stop();
    assert_eq!(rt; semaphore.step(1, Op::P), Reply::Stopped);
    assert_eq!(rt; semaphore.step(1, Op::V), Reply::Ok);
    assert_eq!(rt; semaphore.step(1, Op::P), Reply::Ok);
    Ok(())
}

#[test]
fn a_stopped_barrier_lets_nobody_wait(rt: HostRuntime) -> Result<(), Fail> {
    let mut barrier = BarrierM::make(rt.alloc(), 2, 2)?;
    assert_eq!(rt; barrier.step(1, Op::Arrive), Reply::Wait);
    barrier.stop();
    assert_eq!(rt; barrier.resume(1), Some(Reply::Stopped));
    assert_eq!(rt; barrier.step(2, Op::Arrive), Reply::Stopped);
    Ok(())
}

#[test]
fn a_stopped_lock_lets_nobody_wait(rt: HostRuntime) -> Result<(), Fail> {
    let mut lock = RwM::make(rt.alloc(), 2)?;
    assert_eq!(rt; lock.step(1, Op::RLock), Reply::Ok);
    assert_eq!(rt; lock.step(2, Op::WLock), Reply::Wait);
    lock.stop();
    assert_eq!(rt; lock.resume(2), Some(Reply::Stopped));
    assert_eq!(rt; lock.step(2, Op::WLock), Reply::Stopped);
    assert_eq!(rt; lock.step(2, Op::RLock), Reply::Ok);
    Ok(())
}
