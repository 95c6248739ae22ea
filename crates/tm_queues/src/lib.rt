//! Where threads wait: a queue, the same with a value for each thread, the replies that were granted to
//! threads, and a wait state with a queue and granted replies. A machine with one queue delegates to its
//! wait state.
#![tactic(auto)]

mod granted_replies;
mod valued_queues;
mod wait_queues;
mod wait_states;
mod waiting_replies;

pub use granted_replies::Grants;
pub use valued_queues::ValuedQueue;
pub use wait_queues::WaitQueue;
pub use wait_states::WaitState;
pub use waiting_replies::waiting_reply;

#[cfg(test)]
mod tests {
    use super::*;
    use std::test::Fail;
    use tm_base::Reply;

    #[test]
    fn a_queue_is_first_in_first_out(rt: HostRuntime) -> Result<(), Fail> {
        let mut queue = WaitQueue::make(rt.alloc(), 3)?;
        queue.push(2);
        queue.push(1);
        assert_eq!(rt; queue.head(), Some(2));
        assert_eq!(rt; queue.pop(), Some(2));
        assert!(rt; queue.contains(1));
        assert_eq!(rt; queue.len(), 1);
        Ok(())
    }

    #[test]
    fn a_thread_leaves_a_queue_with_its_latest_value(rt: HostRuntime) -> Result<(), Fail> {
        let mut queue = ValuedQueue::make(rt.alloc(), 3, 0i64)?;
        queue.push(2, 20);
        queue.push(1, -10);
        assert_eq!(rt; queue.head(), Some((2, 20)));
        assert_eq!(rt; queue.pop(), Some((2, 20)));
        queue.push(2, 25);
        assert!(rt; queue.contains(2));
        assert_eq!(rt; queue.len(), 2);
        assert_eq!(rt; queue.pop(), Some((1, -10)));
        assert_eq!(rt; queue.pop(), Some((2, 25)));
        assert!(rt; queue.is_empty());
        queue.push(3, 30);
        queue.clear();
        assert_eq!(rt; queue.pop(), None);
        Ok(())
    }

    #[test]
    fn a_granted_reply_is_taken_once(rt: HostRuntime) -> Result<(), Fail> {
        let mut grants = Grants::make(rt.alloc(), 64)?;
        grants.grant(64, Reply::Ok);
        assert_eq!(rt; grants.take(65), None);
        assert_eq!(rt; grants.take(64), Some(Reply::Ok));
        assert_eq!(rt; grants.granted(64), None);
        Ok(())
    }

    #[test]
    fn all_in_a_queue_with_values_are_granted_one_reply(rt: HostRuntime) -> Result<(), Fail> {
        let mut writers = ValuedQueue::make(rt.alloc(), 3, false)?;
        let mut grants = Grants::make(rt.alloc(), 3)?;
        writers.push(3, true);
        writers.push(1, false);
        grants.grant_all_valued(&mut writers, Reply::Closed);
        assert!(rt; writers.is_empty());
        assert_eq!(rt; grants.granted(3), Some(Reply::Closed));
        assert_eq!(rt; grants.granted(2), None);
        Ok(())
    }

    #[test]
    fn a_call_waits_until_it_is_granted_or_stopped(rt: HostRuntime) -> Result<(), Fail> {
        let mut waiting = WaitState::make(rt.alloc(), 2)?;
        assert_eq!(rt; waiting.wait(2), Reply::Wait);
        assert_eq!(rt; waiting.wait(1), Reply::Wait);
        assert_eq!(rt; waiting.grant(Reply::Ok), Some(2));
        waiting.stop();
        assert_eq!(rt; waiting.poll(1), Some(Reply::Stopped));
        assert_eq!(rt; waiting.resume(2), Some(Reply::Ok));
        assert!(rt; !waiting.pending(2));
        assert_eq!(rt; waiting.wait(2), Reply::Stopped);
        Ok(())
    }
}
