ghost use Rattle.std.specs.Prelude.{◌≡◌, ◌≤◌, ◌+◌, ◌++◌, ◌∷◌, [], Some, None, true, false, length, IfOk, IfNone, OnSome, slice_get, slice_set, slice_index_or};
ghost use Rattle.tm_base.specs.States.{is_queued};
ghost use Rattle.tm_base.specs.TableRows.{waiting_reply as reply_while};
ghost use Rattle.tm_queues.specs.WaitStates.{WaitsAt, GrantsHead, nobody_waiting, served, all_granted, is_pending_in, stopped_waits};

use crate::granted_replies::Grants;
use crate::wait_queues::WaitQueue;
use crate::waiting_replies::waiting_reply;
use std::alloc::Global;
use std::marker::Model;
use tm_base::{MOST_THREADS, NoMemory, Reply};

/// A queue of threads with their granted replies, and whether it was stopped. Contracts see these, and
/// how many threads there are.
#[derive(Drop)]
pub struct WaitState {
    queue: WaitQueue,
    grants: Grants,
    stopped: bool,
}

impl Model for WaitState {
    ghost use Rattle.tm_queues.specs.WaitStates.{WaitView};

    ghost Value = { WaitView };

    ghost use Rattle.tm_queues.specs.StoredWaitStates.{wait_view, KeepsWaits};

    ghost view = { wait_view };

    ghost invariant = { KeepsWaits };
}

impl WaitState {
    /// The wait state of threads 0 to `threads`, which are at most `MOST_THREADS`, at which nobody waits. Nothing later
    /// takes memory.
    pub fn make(alloc: Global, threads: u32) -> Result<WaitState, NoMemory>
        requires { threads ≤ MOST_THREADS }
        ensures { IfOk result (λ waiting. waiting ≡ nobody_waiting threads) }
    {
        let queue = WaitQueue::make(alloc, threads)?;
        let grants = Grants::make(alloc, threads)?;
        Ok(WaitState {
            queue,
            grants,
            stopped: false,
        })
    }

    /// The thread's call waits: it goes to the end of the queue, and the reply is `Wait`. On a stopped
    /// wait state the reply is `Stopped` and nothing changes.
    pub fn wait(&mut self, thread: u32) -> Reply
        requires known { thread ≤ self.old.threads }
        requires new { is_queued self.old.queue thread ≡ false }
        ensures { WaitsAt self.old thread result self.new }
    {
        if self.stopped {
            return Reply::Stopped;
        }
        self.queue.push(thread);
        Reply::Wait
    }

    /// The thread goes to the end of the queue.
    pub fn push(&mut self, thread: u32)
        requires known { thread ≤ self.old.threads }
        requires new { is_queued self.old.queue thread ≡ false }
        ensures { self.new ≡ served self.old (self.old.queue ++ thread ∷ []) self.old.granted }
    {
        self.queue.push(thread);
    }

    /// The reply that `wait` would give now.
    pub fn would_wait(&self) -> Reply
        ensures { result ≡ reply_while self.now.stopped }
    {
        waiting_reply(self.stopped)
    }

    /// The oldest in the queue.
    pub fn head(&self) -> Option<u32>
        ensures { result ≡ slice_get self.now.queue 0 }
    {
        self.queue.head()
    }

    /// The oldest in the queue leaves it and is granted the reply. `None` exactly where nobody waits.
    pub fn grant(&mut self, reply: Reply) -> Option<u32>
        ensures { GrantsHead self.old reply result self.new }
    {
        let head = self.queue.pop()?;
        self.grants.grant(head, reply);
        Some(head)
    }

    /// The thread is granted the reply; the queue stays as it is.
    pub fn grant_to(&mut self, thread: u32, reply: Reply)
        requires { thread ≤ self.old.threads }
        ensures { self.new ≡ served self.old self.old.queue (slice_set self.old.granted thread (Some reply)) }
    {
        self.grants.grant(thread, reply);
    }

    /// All in the queue leave it and are granted the reply.
    pub fn grant_all(&mut self, reply: Reply)
        ensures { self.new ≡ all_granted self.old reply }
    {
        self.grants.grant_all(&mut self.queue, reply);
    }

    /// Whether the thread stands in the queue, or was granted a reply that it hasn't taken.
    pub fn pending(&self, thread: u32) -> bool
        ensures { result ≡ is_pending_in self.now thread }
    {
        self.queue.contains(thread) || self.grants.granted(thread).is_some()
    }

    /// The thread's granted reply.
    pub fn poll(&self, thread: u32) -> Option<Reply>
        ensures { result ≡ slice_index_or self.now.granted thread None }
    {
        self.grants.granted(thread)
    }

    /// Takes the thread's granted reply. `None` leaves all unchanged.
    pub fn resume(&mut self, thread: u32) -> Option<Reply>
        ensures value { result ≡ slice_index_or self.old.granted thread None }
        ensures taken { OnSome result (self.new ≡ served self.old self.old.queue (slice_set self.old.granted thread None)) }
        ensures unchanged { IfNone result (self.new ≡ self.old) }
    {
        self.grants.take(thread)
    }

    /// Stops the wait state: each in the queue is granted `Stopped`, and none waits from now on.
    pub fn stop(&mut self)
        ensures { self.new ≡ stopped_waits self.old }
    {
        self.grants.grant_all(&mut self.queue, Reply::Stopped);
        self.stopped = true;
    }

    /// How many stand in the queue: at most `MOST_THREADS` + 1.
    pub fn waiters(&self) -> u32
        ensures value { result ≡ length self.now.queue }
        ensures few { result ≤ MOST_THREADS + 1 }
    {
        self.queue.len()
    }

    /// Whether the wait state was stopped.
    pub fn stopped(&self) -> bool
        ensures { result ≡ self.now.stopped }
    {
        self.stopped
    }

    /// The greatest number of a thread.
    pub fn threads(&self) -> u32
        ensures value { result ≡ self.now.threads }
        ensures few { result ≤ MOST_THREADS }
    {
        self.queue.threads()
    }
}
