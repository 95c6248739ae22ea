//! Objects over which threads meet: the channels of textbooks, the object of a thread, and the shared
//! variable.
#![tactic(auto)]

ghost use Rattle.tm_channels.specs.Assignments.{ReadsGetWhatWasWritten};
ghost use Rattle.tm_channels.specs.Capacities.{CapacityIsKept};
ghost use Rattle.tm_channels.specs.Deliveries.{ChannelsKeepOrder};
ghost use Rattle.tm_channels.specs.Joins.{GrantsAfterEnd, JoinsAfterEnd};

mod async_channels;
mod channel_queues;
mod sync_channels;
mod thread_objects;
mod variables;

pub use async_channels::{AsyncM, MOST_MESSAGES};
pub use sync_channels::SyncM;
pub use thread_objects::ThreadM;
pub use variables::VarM;

/// In every legal history of a thread object a `join` is answered `ok`, at once or after it waited,
/// only after the thread's `end`, and a `join` that waits is granted `ok` only after it.
pub fn joins_come_after_the_end()
    ensures answers { JoinsAfterEnd }
    ensures grants { GrantsAfterEnd }
{}

/// In every legal history of a variable each `read` and `add` gets what the writes and additions
/// before it leave.
pub fn reads_get_what_was_written()
    ensures { ReadsGetWhatWasWritten }
{}

/// In every legal history of a channel the values of all sends, in the order of their calls and
/// without those that were answered or granted `closed` or `stopped`, are in one order those that
/// receivers were given, and after them those on the way: the messages that the channel keeps, and
/// then the values of the sends that still wait. An asynchronous channel has room for one message
/// at least.
pub fn channels_keep_order()
    ensures { ChannelsKeepOrder }
{}

/// In every state of a legal history an asynchronous channel keeps at most its capacity of messages.
pub fn capacity_is_kept()
    ensures { CapacityIsKept }
{}

#[cfg(test)]
mod tests {
    use super::*;
    use std::test::Fail;
    use tm_base::{Machine, Op, Reply};

    #[test]
    fn a_join_waits_for_the_end(rt: HostRuntime) -> Result<(), Fail> {
        let mut object = ThreadM::make(rt.alloc(), 2, 1, false)?;
        assert_eq!(rt; object.step(1, Op::Begin), Reply::Ok);
        assert_eq!(rt; object.would(2, Op::Join), Reply::Wait);
        assert_eq!(rt; object.step(2, Op::Join), Reply::Wait);
        assert!(rt; object.holds(1));
        assert_eq!(rt; object.step(1, Op::End { cut: false }), Reply::Ok);
        assert_eq!(rt; object.resume(2), Some(Reply::Ok));
        Ok(())
    }

    #[test]
    fn a_held_thread_waits_for_its_start(rt: HostRuntime) -> Result<(), Fail> {
        let mut object = ThreadM::make(rt.alloc(), 2, 1, true)?;
        assert_eq!(rt; object.step(1, Op::Begin), Reply::Wait);
        assert_eq!(rt; object.waiters(), 1);
        assert_eq!(rt; object.step(2, Op::Start), Reply::Gave(1));
        assert_eq!(rt; object.resume(1), Some(Reply::Ok));
        Ok(())
    }

    #[test]
    fn a_sum_stops_at_the_greatest_value(rt: HostRuntime) -> Result<(), Fail> {
        let mut variable = VarM::make(2, i64::MAX);
        assert_eq!(rt; variable.step(1, Op::Add(1)), Reply::Got(i64::MAX));
        assert_eq!(rt; variable.step(2, Op::Read), Reply::Got(i64::MAX));
        assert_eq!(rt; variable.step(2, Op::Write(-2)), Reply::Ok);
        assert_eq!(rt; variable.would(1, Op::Add(5)), Reply::Got(3));
        assert_eq!(rt; variable.step(1, Op::Read), Reply::Got(-2));
        Ok(())
    }

    #[test]
    fn a_stopped_variable_keeps_its_value(rt: HostRuntime) -> Result<(), Fail> {
        let mut variable = VarM::make(1, 7);
        variable.stop();
        assert!(rt; variable.stopped());
        assert_eq!(rt; variable.waiters(), 0);
        assert_eq!(rt; variable.step(1, Op::Add(1)), Reply::Got(8));
        Ok(())
    }

    #[test]
    fn a_send_waits_for_a_receiver(rt: HostRuntime) -> Result<(), Fail> {
        let mut channel = SyncM::make(rt.alloc(), 2)?;
        assert_eq!(rt; channel.step(1, Op::Send(10)), Reply::Wait);
        assert_eq!(rt; channel.step(2, Op::Recv), Reply::Got(10));
        assert_eq!(rt; channel.resume(1), Some(Reply::Ok));
        Ok(())
    }

    #[test]
    fn a_receiver_that_waits_is_given_a_message(rt: HostRuntime) -> Result<(), Fail> {
        let mut channel = SyncM::make(rt.alloc(), 2)?;
        assert_eq!(rt; channel.step(1, Op::Recv), Reply::Wait);
        assert_eq!(rt; channel.step(2, Op::Send(-7)), Reply::Gave(1));
        assert_eq!(rt; channel.resume(1), Some(Reply::Got(-7)));
        Ok(())
    }

    #[test]
    fn a_closed_synchronous_channel_serves_nobody(rt: HostRuntime) -> Result<(), Fail> {
        let mut channel = SyncM::make(rt.alloc(), 2)?;
        assert_eq!(rt; channel.step(1, Op::Send(1)), Reply::Wait);
        assert_eq!(rt; channel.step(2, Op::Close), Reply::Ok);
        assert_eq!(rt; channel.resume(1), Some(Reply::Closed));
        assert_eq!(rt; channel.step(2, Op::Recv), Reply::Closed);
        Ok(())
    }

    #[test]
    fn a_stopped_synchronous_channel_lets_nobody_wait(rt: HostRuntime) -> Result<(), Fail> {
        let mut channel = SyncM::make(rt.alloc(), 2)?;
        assert_eq!(rt; channel.step(1, Op::Recv), Reply::Wait);
        channel.stop();
        assert_eq!(rt; channel.resume(1), Some(Reply::Stopped));
        assert_eq!(rt; channel.step(2, Op::Send(3)), Reply::Stopped);
        Ok(())
    }

    #[test]
    fn a_message_makes_room_for_the_oldest_sender(rt: HostRuntime) -> Result<(), Fail> {
        let mut channel = AsyncM::make(rt.alloc(), 2, 1)?;
        assert_eq!(rt; channel.step(1, Op::Send(1)), Reply::Ok);
        assert_eq!(rt; channel.step(1, Op::Send(2)), Reply::Wait);
        assert_eq!(rt; channel.step(2, Op::Recv), Reply::Got(1));
        assert_eq!(rt; channel.resume(1), Some(Reply::Ok));
        assert_eq!(rt; channel.step(2, Op::Recv), Reply::Got(2));
        Ok(())
    }

    #[test]
    fn a_closed_asynchronous_channel_gives_what_it_keeps(rt: HostRuntime) -> Result<(), Fail> {
        let mut channel = AsyncM::make(rt.alloc(), 2, 1)?;
        assert_eq!(rt; channel.step(1, Op::Send(1)), Reply::Ok);
        assert_eq!(rt; channel.step(1, Op::Send(2)), Reply::Wait);
        assert_eq!(rt; channel.step(2, Op::Close), Reply::Ok);
        assert_eq!(rt; channel.resume(1), Some(Reply::Closed));
        assert_eq!(rt; channel.step(2, Op::Recv), Reply::Got(1));
        assert_eq!(rt; channel.step(2, Op::Recv), Reply::Closed);
        Ok(())
    }

    #[test]
    fn a_close_lets_no_receiver_wait(rt: HostRuntime) -> Result<(), Fail> {
        let mut channel = AsyncM::make(rt.alloc(), 2, 1)?;
        assert_eq!(rt; channel.step(1, Op::Recv), Reply::Wait);
        assert_eq!(rt; channel.step(2, Op::Close), Reply::Ok);
        assert_eq!(rt; channel.resume(1), Some(Reply::Closed));
        Ok(())
    }

    #[test]
    fn a_stopped_asynchronous_channel_still_has_room(rt: HostRuntime) -> Result<(), Fail> {
        let mut channel = AsyncM::make(rt.alloc(), 2, 1)?;
        assert_eq!(rt; channel.step(1, Op::Recv), Reply::Wait);
        channel.stop();
        assert_eq!(rt; channel.resume(1), Some(Reply::Stopped));
        assert_eq!(rt; channel.step(2, Op::Send(1)), Reply::Ok);
        assert_eq!(rt; channel.step(2, Op::Send(2)), Reply::Stopped);
        Ok(())
    }
}
