ghost use Rattle.std.specs.Prelude.{◌≡◌, ◌≤◌, ◌+◌, ◌∷◌, ◌==◌, [], Some, true, false, length, IfOk, IfSome, MatchOption, slice_get};
ghost use Rattle.tm_base.specs.States.{is_queued};
ghost use Rattle.tm_queues.specs.ValuedQueues.{ValuedView, nobody_queued, joined, queued_threads};

use crate::wait_queues::WaitQueue;
use std::alloc::Global;
use std::marker::Model;
use tm_base::{MOST_THREADS, NoMemory};

/// A queue of threads, first in, first out, in which no thread stands twice, each with a value: a
/// sender's message, or whether the thread wants to write. Contracts see how many threads there are
/// and who stands in the queue with which value, the oldest first.
#[derive(Drop)]
pub struct ValuedQueue<T> {
    queue: WaitQueue,
    values: Vec<T>,
}

impl<T> Model for ValuedQueue<T> {
    ghost use Rattle.tm_queues.specs.ValuedQueues.{ValuedView};

    ghost Value = { ValuedView T };

    ghost use Rattle.tm_queues.specs.StoredValuedQueues.{valued_view, KeepsValues};

    ghost view = { λ q. valued_view q.queue q.values.items };

    ghost invariant = { λ q. KeepsValues q.queue q.values.items };
}

impl<T: Copy> ValuedQueue<T> {
    /// The empty queue of threads 0 to `threads`, which are at most `MOST_THREADS`. A thread has the initial
    /// value until it stands in the queue. Nothing later takes memory.
    pub fn make(alloc: Global, threads: u32, initial: T) -> Result<ValuedQueue<T>, NoMemory>
        requires { threads ≤ MOST_THREADS }
        ensures { IfOk result (λ queue. queue ≡ nobody_queued threads) }
    {
        let queue = WaitQueue::make(alloc, threads)?;
        let values = vec![in alloc; initial; threads as usize + 1]?;
        Ok(ValuedQueue { queue, values })
    }

    /// The greatest number of a thread that may stand in the queue.
    pub fn threads(&self) -> u32
        ensures value { result ≡ self.now.threads }
        ensures few { result ≤ MOST_THREADS }
    {
        self.queue.threads()
    }

    /// The thread goes to the end of the queue, in which it doesn't stand yet, with the value.
    pub fn push(&mut self, thread: u32, value: T)
        requires known { thread ≤ self.old.threads }
        requires new { is_queued (queued_threads self.old.queue) thread ≡ false }
        ensures { self.new ≡ joined self.old thread value }
    {
        self.values[thread as usize] = value;
        self.queue.push(thread);
    }

    /// The oldest thread leaves the queue, with its value. `None` exactly where nobody stands in it.
    pub fn pop(&mut self) -> Option<(u32, T)>
        ensures oldest { MatchOption result ((self.old.queue ≡ []) × (self.new ≡ self.old)) (λ head. self.old ≡ record self.new { queue = (record { thread = head.0; value = head.1 }) ∷ self.new.queue }) }
        ensures known { IfSome result (λ head. head.0 ≤ self.old.threads) }
    {
        let thread = self.queue.pop()?;
        Some((thread, self.values[thread as usize]))
    }

    /// All leave the queue.
    pub fn clear(&mut self)
        ensures { self.new ≡ nobody_queued self.old.threads }
    {
        self.queue.clear();
    }

    /// The oldest thread in the queue, and its value.
    pub fn head(&self) -> Option<(u32, T)>
        ensures { MatchOption result (self.now.queue ≡ []) (λ head. slice_get self.now.queue 0 ≡ Some (record { thread = head.0; value = head.1 })) }
    {
        let thread = self.queue.head()?;
        Some((thread, self.values[thread as usize]))
    }

    /// Whether the thread stands in the queue.
    pub fn contains(&self, thread: u32) -> bool
        ensures { result ≡ is_queued (queued_threads self.now.queue) thread }
    {
        self.queue.contains(thread)
    }

    /// How many stand in the queue: at most `MOST_THREADS` + 1.
    pub fn len(&self) -> u32
        ensures value { result ≡ length self.now.queue }
        ensures few { result ≤ MOST_THREADS + 1 }
    {
        self.queue.len()
    }

    /// Whether nobody stands in the queue.
    pub fn is_empty(&self) -> bool
        ensures { result ≡ (length self.now.queue == 0) }
    {
        self.queue.is_empty()
    }
}
