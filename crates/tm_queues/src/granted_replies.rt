ghost use Rattle.std.specs.Prelude.{◌≡◌, ◌≤◌, ◌<◌, ◌+◌, [], Some, None, length, replicate, IfOk, IfNone, OnSome, slice_set, slice_index_or};
ghost use Rattle.tm_base.specs.States.{grant_all};
ghost use Rattle.tm_queues.specs.ValuedQueues.{nobody_queued, queued_threads};
ghost use Rattle.tm_queues.specs.WaitQueues.{empty_queue};

use crate::valued_queues::ValuedQueue;
use crate::wait_queues::WaitQueue;
use std::alloc::Global;
use std::marker::Model;
use tm_base::{MOST_THREADS, NoMemory, Reply};

/// The replies that threads were granted and haven't taken yet. Contracts see them as a list with a
/// place for each thread, from thread 0.
#[derive(Drop)]
pub struct Grants {
    replies: Vec<Option<Reply>>,
}

impl Model for Grants {
    ghost use Rattle.std.specs.Prelude.{List, Option};
    ghost use Rattle.tm_base.specs.declared.replies.Reply.{Reply};

    ghost Value = { List (Option Reply) };

    ghost view = { λ g. g.replies.items };
}

impl Grants {
    /// Threads 0 to `threads`, which are at most `MOST_THREADS`, with no granted reply. Nothing later takes memory.
    pub fn make(alloc: Global, threads: u32) -> Result<Grants, NoMemory>
        requires { threads ≤ MOST_THREADS }
        ensures { IfOk result (λ grants. grants ≡ replicate (threads + 1) None) }
    {
        let replies = vec![in alloc; None; threads as usize + 1]?;
        Ok(Grants { replies })
    }

    /// The thread is granted the reply.
    pub fn grant(&mut self, thread: u32, reply: Reply)
        requires { thread < length self.old }
        ensures { self.new ≡ slice_set self.old thread (Some reply) }
    {
        self.replies[thread as usize] = Some(reply);
    }

    /// All that stand in the queue leave it, and are granted the reply.
    pub fn grant_all(&mut self, queue: &mut WaitQueue, reply: Reply)
        requires { queue.old.threads < length self.old }
        ensures granted { self.new ≡ grant_all queue.old.queue reply self.old }
        ensures places { length self.new ≡ length self.old }
        ensures queue { queue.new ≡ empty_queue queue.old.threads }
    {
        while let Some(thread) = queue.pop() {
            self.grant(thread, reply);
        }
    }

    /// All that stand in a queue with values leave it, and are granted the reply.
    pub fn grant_all_valued<T: Copy>(&mut self, queue: &mut ValuedQueue<T>, reply: Reply)
        requires { queue.old.threads < length self.old }
        ensures granted { self.new ≡ grant_all (queued_threads queue.old.queue) reply self.old }
        ensures places { length self.new ≡ length self.old }
        ensures queue { queue.new ≡ nobody_queued queue.old.threads }
    {
        while let Some((thread, _)) = queue.pop() {
            self.grant(thread, reply);
        }
    }

    /// The thread's granted reply.
    pub fn granted(&self, thread: u32) -> Option<Reply>
        ensures { result ≡ slice_index_or self.now thread None }
    {
        self.replies.get(thread as usize).copied().flatten()
    }

    /// Takes the thread's granted reply. `None` leaves all unchanged.
    pub fn take(&mut self, thread: u32) -> Option<Reply>
        ensures value { result ≡ slice_index_or self.old thread None }
        ensures taken { OnSome result (self.new ≡ slice_set self.old thread None) }
        ensures unchanged { IfNone result (self.new ≡ self.old) }
    {
        let granted = self.granted(thread)?;
        self.replies[thread as usize] = None;
        Some(granted)
    }
}
