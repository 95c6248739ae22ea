ghost use Rattle.std.specs.Prelude.{◌≡◌, ◌≤◌, ◌++◌, ◌∷◌, ◌+◌, ◌==◌, [], true, false, length, IfOk, IfSome, MatchOption, slice_get};
ghost use Rattle.tm_base.specs.States.{is_queued};
ghost use Rattle.tm_queues.specs.WaitQueues.{QueueView, pushed, empty_queue};

use std::alloc::Global;
use std::collections::VecDeque;
use std::marker::Model;
use tm_base::{MOST_THREADS, NoMemory};

/// A queue of threads, first in, first out, in which no thread stands twice. Contracts see how many
/// threads there are and who stands in the queue, the oldest first.
#[derive(Drop)]
pub struct WaitQueue {
    threads: u32,
    queue: VecDeque<u32>,
    /// Whether each thread stands in the queue.
    standing: Vec<bool>,
}

impl Model for WaitQueue {
    ghost use Rattle.tm_queues.specs.WaitQueues.{QueueView};

    ghost Value = { QueueView };

    ghost use Rattle.tm_queues.specs.StoredWaitQueues.{queue_view, KeepsQueue};

    ghost view = { queue_view };

    ghost invariant = { KeepsQueue };
}

impl WaitQueue {
    /// The empty queue of threads 0 to `threads`, which are at most `MOST_THREADS`. Nothing later takes memory.
    pub fn make(alloc: Global, threads: u32) -> Result<WaitQueue, NoMemory>
        requires { threads ≤ MOST_THREADS }
        ensures { IfOk result (λ queue. queue ≡ empty_queue threads) }
    {
        let queue = VecDeque::with_capacity(alloc, threads as usize + 1)?;
        let standing = vec![in alloc; false; threads as usize + 1]?;
        Ok(WaitQueue {
            threads,
            queue,
            standing,
        })
    }

    /// The greatest number of a thread that may stand in the queue.
    pub fn threads(&self) -> u32
        ensures value { result ≡ self.now.threads }
        ensures few { result ≤ MOST_THREADS }
    {
        self.threads
    }

    /// The thread goes to the end of the queue, in which it doesn't stand yet.
    #[tactic(auto, using(crate::proofs::WaitQueueLemmas::queue_steps))]
    pub fn push(&mut self, thread: u32)
        requires known { thread ≤ self.old.threads }
        requires new { is_queued self.old.queue thread ≡ false }
        ensures { self.new ≡ pushed self.old thread }
    {
        self.standing[thread as usize] = true;
        self.queue.push_back_reserved(thread);
    }

    /// The oldest thread leaves the queue. `None` exactly where nobody stands in it.
    #[tactic(auto, using(crate::proofs::WaitQueueLemmas::queue_steps))]
    pub fn pop(&mut self) -> Option<u32>
        ensures oldest { MatchOption result ((self.old.queue ≡ []) × (self.new ≡ self.old)) (λ head. self.old ≡ record self.new { queue = head ∷ self.new.queue }) }
        ensures known { IfSome result (λ head. head ≤ self.old.threads) }
    {
        let head = self.queue.pop_front()?;
        self.standing[head as usize] = false;
        Some(head)
    }

    /// All leave the queue.
    pub fn clear(&mut self)
        ensures { self.new ≡ empty_queue self.old.threads }
    {
        while self.pop().is_some() {}
    }

    /// The oldest thread in the queue.
    pub fn head(&self) -> Option<u32>
        ensures { result ≡ slice_get self.now.queue 0 }
    {
        self.queue.front().copied()
    }

    /// Whether the thread stands in the queue. It is looked up, however many stand there.
    pub fn contains(&self, thread: u32) -> bool
        ensures { result ≡ is_queued self.now.queue thread }
    {
        self.standing.get(thread as usize).copied().unwrap_or(false)
    }

    /// How many stand in the queue: at most `MOST_THREADS` + 1.
    #[tactic(auto, using(crate::proofs::WaitQueueLemmas::queue_steps))]
    pub fn len(&self) -> u32
        ensures value { result ≡ length self.now.queue }
        ensures few { result ≤ MOST_THREADS + 1 }
    {
        self.queue.len() as u32
    }

    /// Whether nobody stands in the queue.
    pub fn is_empty(&self) -> bool
        ensures { result ≡ (length self.now.queue == 0) }
    {
        self.queue.is_empty()
    }
}
