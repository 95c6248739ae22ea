ghost use Rattle.std.specs.Prelude.{◌≡◌, ◌≤◌, ◌∷◌, [], Some, None, true, false, length, IfOk, IfNone, OnSome, MatchOption, slice_get, slice_set, slice_index_or};
ghost use Rattle.tm_base.specs.TableRows.{waiting_reply as reply_while};
ghost use Rattle.tm_channels.specs.ChannelQueues.{
  ChannelQueuesView,
  GivesReceiver,
  TakesSender,
  all_served,
  is_pending_at,
  nobody_at_channel,
  receiver_added,
  sender_added,
  waiting_at,
};

use std::alloc::Global;
use std::marker::Model;
use tm_base::{MOST_THREADS, NoMemory, Reply};
use tm_queues::{Grants, ValuedQueue, WaitQueue, waiting_reply};

/// Who waits at a channel: senders, each with its message, and receivers, with the granted replies, and
/// whether the channel was closed and whether it was stopped. Contracts see these, and how many threads
/// there are.
#[derive(Drop)]
pub struct ChannelQueues {
    senders: ValuedQueue<i64>,
    receivers: WaitQueue,
    grants: Grants,
    closed: bool,
    stopped: bool,
}

impl Model for ChannelQueues {
    ghost use Rattle.tm_channels.specs.ChannelQueues.{ChannelQueuesView};

    ghost Value = { ChannelQueuesView };

    ghost use Rattle.tm_channels.specs.StoredChannelQueues.{channel_queues_view, KeepsChannelQueues};

    ghost view = { channel_queues_view };

    ghost invariant = { KeepsChannelQueues };
}

impl ChannelQueues {
    /// The open channel's queues of threads 0 to `threads`, which are at most `MOST_THREADS`, at which nobody
    /// waits. Nothing later takes memory.
    pub fn make(alloc: Global, threads: u32) -> Result<ChannelQueues, NoMemory>
        requires { threads ≤ MOST_THREADS }
        ensures { IfOk result (λ queues. queues ≡ nobody_at_channel threads) }
    {
        let senders = ValuedQueue::make(alloc, threads, 0)?;
        let receivers = WaitQueue::make(alloc, threads)?;
        let grants = Grants::make(alloc, threads)?;
        Ok(ChannelQueues {
            senders,
            receivers,
            grants,
            closed: false,
            stopped: false,
        })
    }

    /// The thread waits with its message, behind the other senders.
    #[tactic(auto, using(tm_queues::proofs::ValuedQueuesLemmas::valued_steps))]
    pub fn add_sender(&mut self, thread: u32, message: i64)
        requires known { thread ≤ self.old.threads }
        requires free { is_pending_at self.old thread ≡ false }
        ensures { self.new ≡ sender_added self.old thread message }
    {
        self.senders.push(thread, message);
    }

    /// The thread waits for a message, behind the other receivers.
    #[tactic(auto, using(tm_queues::proofs::ValuedQueuesLemmas::valued_steps))]
    pub fn add_receiver(&mut self, thread: u32)
        requires known { thread ≤ self.old.threads }
        requires free { is_pending_at self.old thread ≡ false }
        ensures { self.new ≡ receiver_added self.old thread }
    {
        self.receivers.push(thread);
    }

    /// The oldest receiver is granted the message. `None` exactly where no receiver waits.
    pub fn give(&mut self, message: i64) -> Option<u32>
        ensures { GivesReceiver self.old message result self.new }
    {
        let receiver = self.receivers.pop()?;
        self.grants.grant(receiver, Reply::Got(message));
        Some(receiver)
    }

    /// The oldest sender is granted `Ok`, and its message is answered with it. `None` exactly where no sender
    /// waits.
    pub fn take(&mut self) -> Option<(u32, i64)>
        ensures { TakesSender self.old result self.new }
    {
        let (sender, message) = self.senders.pop()?;
        self.grants.grant(sender, Reply::Ok);
        Some((sender, message))
    }

    /// The oldest receiver that waits.
    pub fn first_receiver(&self) -> Option<u32>
        ensures { result ≡ slice_get self.now.receivers 0 }
    {
        self.receivers.head()
    }

    /// The oldest sender that waits, and its message.
    pub fn first_sender(&self) -> Option<(u32, i64)>
        ensures { MatchOption result (self.now.senders ≡ []) (λ head. slice_get self.now.senders 0 ≡ Some (record { thread = head.0; value = head.1 })) }
    {
        self.senders.head()
    }

    /// Closes the channel: each that waits is granted `Closed`.
    pub fn close(&mut self)
        ensures { self.new ≡ record (all_served self.old Reply.Closed) { closed = true } }
    {
        self.serve_all(Reply::Closed);
        self.closed = true;
    }

    /// Stops the channel: each that waits is granted `Stopped`, and none waits from now on.
    pub fn stop(&mut self)
        ensures { self.new ≡ record (all_served self.old Reply.Stopped) { stopped = true } }
    {
        self.serve_all(Reply::Stopped);
        self.stopped = true;
    }

    #[tactic(auto, using(crate::proofs::ChannelQueuesLemmas::grant_all_append))]
    fn serve_all(&mut self, reply: Reply)
        ensures { self.new ≡ all_served self.old reply }
    {
        self.grants.grant_all_valued(&mut self.senders, reply);
        self.grants.grant_all(&mut self.receivers, reply);
    }

    /// Whether the channel was closed.
    pub fn closed(&self) -> bool
        ensures { result ≡ self.now.closed }
    {
        self.closed
    }

    /// Whether the channel was stopped.
    pub fn stopped(&self) -> bool
        ensures { result ≡ self.now.stopped }
    {
        self.stopped
    }

    /// The reply of a call that would wait now.
    pub fn would_wait(&self) -> Reply
        ensures { result ≡ reply_while self.now.stopped }
    {
        waiting_reply(self.stopped)
    }

    /// Whether the thread waits, or was granted a reply that it hasn't taken.
    #[tactic(auto, using(tm_queues::proofs::ValuedQueuesLemmas::valued_steps))]
    pub fn pending(&self, thread: u32) -> bool
        ensures { result ≡ is_pending_at self.now thread }
    {
        self.senders.contains(thread)
            || self.receivers.contains(thread)
            || self.grants.granted(thread).is_some()
    }

    /// The thread's granted reply.
    pub fn poll(&self, thread: u32) -> Option<Reply>
        ensures { result ≡ slice_index_or self.now.granted thread None }
    {
        self.grants.granted(thread)
    }

    /// Takes the thread's granted reply. `None` leaves all unchanged.
    pub fn resume(&mut self, thread: u32) -> Option<Reply>
        ensures value { result ≡ slice_index_or self.old.granted thread None }
        ensures taken { OnSome result (self.new ≡ record self.old { granted = slice_set self.old.granted thread None }) }
        ensures unchanged { IfNone result (self.new ≡ self.old) }
    {
        self.grants.take(thread)
    }

    /// How many wait.
    pub fn waiters(&self) -> u32
        ensures { result ≡ length (waiting_at self.now) }
    {
        self.senders.len() + self.receivers.len()
    }
}
