ghost use Rattle.std.specs.Prelude.{◌≡◌, ◌≤◌, ◌<◌, ◌+◌, ◌∷◌, [], false, length};
ghost use Rattle.std.specs.Prelude.{IfOk, IfSome, MatchOption, slice_get};
ghost use Rattle.tm_base.specs.States.{grant_all, is_queued};
ghost use Rattle.tm_queues.specs.WaitQueues.{empty_queue};

use std::alloc::Global;
use std::collections::VecDeque;
use std::marker::Model;
use tm_base::{MOST_THREADS, NoMemory, Reply};
use tm_queues::Grants;

/// The stack of the signallers that wait in a Hoare monitor, last in, first out, on which no thread stands
/// twice. Contracts see how many threads there are and who stands on it, the newest first.
#[derive(Drop)]
pub struct UrgentStack {
    threads: u32,
    stack: VecDeque<u32>,
    /// Whether the thread stands on the stack, by its number.
    stacks: Vec<bool>,
}

impl Model for UrgentStack {
    ghost use Rattle.tm_queues.specs.WaitQueues.{QueueView};

    ghost Value = { QueueView };

    ghost use Rattle.tm_monitors.specs.StoredUrgentStacks.{stack_view, KeepsStack};

    ghost view = { stack_view };

    ghost invariant = { KeepsStack };
}

impl UrgentStack {
    /// The empty stack of threads 0 to `threads`, which are at most `MOST_THREADS`. Nothing later takes
    /// memory.
    pub fn make(alloc: Global, threads: u32) -> Result<UrgentStack, NoMemory>
        requires { threads ≤ MOST_THREADS }
        ensures { IfOk result (λ stack. stack ≡ empty_queue threads) }
    {
        let stack = VecDeque::with_capacity(alloc, threads as usize + 1)?;
        let stacks = vec![in alloc; false; threads as usize + 1]?;
        Ok(UrgentStack {
            threads,
            stack,
            stacks,
        })
    }

    /// The thread, which doesn't stand on the stack yet, goes to its top.
    #[tactic(auto, using(tm_queues::proofs::WaitQueueLemmas::queue_steps))]
    pub fn push(&mut self, thread: u32)
        requires known { thread ≤ self.old.threads }
        requires new { is_queued self.old.queue thread ≡ false }
        ensures { self.new ≡ record self.old { queue = thread ∷ self.old.queue } }
    {
        self.stack.push_front_reserved(thread);
        self.stacks[thread as usize] = true;
    }

    /// The newest leaves the stack. `None` exactly where nobody stands on it.
    pub fn pop(&mut self) -> Option<u32>
        ensures newest { MatchOption result ((self.old.queue ≡ []) × (self.new ≡ self.old))
            (λ top. self.old ≡ record self.new { queue = top ∷ self.new.queue }) }
        ensures known { IfSome result (λ top. top ≤ self.old.threads) }
    {
        let top = self.stack.pop_front()?;
        self.stacks[top as usize] = false;
        Some(top)
    }

    /// The newest on the stack.
    pub fn top(&self) -> Option<u32>
        ensures { result ≡ slice_get self.now.queue 0 }
    {
        self.stack.front().copied()
    }

    /// All on the stack leave it, the newest first, and are granted the reply.
    pub fn grant_all(&mut self, grants: &mut Grants, reply: Reply)
        requires { self.old.threads < length grants.old }
        ensures granted { grants.new ≡ grant_all self.old.queue reply grants.old }
        ensures places { length grants.new ≡ length grants.old }
        ensures emptied { self.new ≡ empty_queue self.old.threads }
    {
        while let Some(thread) = self.pop() {
            grants.grant(thread, reply);
        }
    }

    /// Whether the thread stands on the stack.
    pub fn contains(&self, thread: u32) -> bool
        ensures { result ≡ is_queued self.now.queue thread }
    {
        self.stacks.get(thread as usize).copied().unwrap_or(false)
    }

    /// How many stand on the stack: at most `MOST_THREADS` + 1.
    #[tactic(auto, using(tm_queues::proofs::WaitQueueLemmas::queue_steps))]
    pub fn len(&self) -> u32
        ensures value { result ≡ length self.now.queue }
        ensures few { result ≤ MOST_THREADS + 1 }
    {
        self.stack.len() as u32
    }
}
