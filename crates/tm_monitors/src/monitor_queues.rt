ghost use Rattle.std.specs.Prelude.{◌≡◌, ◌≤◌, ◌<◌, ◌+◌, ◌*◌, ◌++◌, ◌∷◌, [], false, length, replicate};
ghost use Rattle.std.specs.Prelude.{IfOk, IfSome, MatchOption, slice_get};
ghost use Rattle.std.specs.List.{All};
ghost use Rattle.tm_base.specs.States.{all_of, grant_all, is_queued};
ghost use Rattle.tm_monitors.specs.MonitorQueues.{
  AreLeftBy,
  IsFirstAt,
  all_notified,
  all_queued,
  empty_queues,
  notified,
  waiting_at,
  with_condition,
  with_entrance,
  without_conditions,
};
ghost use Rattle.tm_monitors.specs.StoredMonitorQueues.{lists_of};

use std::alloc::Global;
use std::marker::Model;
use tm_base::{MOST_THREADS, NoMemory, Reply};
use tm_queues::{Grants, WaitQueue};

/// The queues of a monitor: its entrance, and one for each of its conditions, numbered from 0. A thread
/// stands in one of them at most, once. Contracts see how many threads there are, and who stands in each
/// queue, the oldest first.
#[derive(Drop)]
pub struct MonitorQueues {
    entrance: WaitQueue,
    conditions: Vec<WaitQueue>,
    /// Whether the thread stands in one of the queues, by its number.
    waits: Vec<bool>,
}

impl Model for MonitorQueues {
    ghost use Rattle.tm_monitors.specs.MonitorQueues.{QueuesView};

    ghost Value = { QueuesView };

    ghost use Rattle.tm_monitors.specs.StoredMonitorQueues.{queues_view, KeepsQueues};

    ghost view = { queues_view };

    ghost invariant = { KeepsQueues };
}

/// An empty queue for each of so many conditions.
#[tactic(auto, using(crate::proofs::MonitorQueuesLemmas::empty_steps))]
fn empty_conditions(alloc: Global, threads: u32, count: u8) -> Result<Vec<WaitQueue>, NoMemory>
    requires { threads ≤ MOST_THREADS }
    ensures empty { IfOk result (λ queues. lists_of queues.items ≡ replicate count []) }
    ensures alike { IfOk result (λ queues. All (λ q. q.threads ≡ threads) queues.items) }
{
    let mut queues = Vec::new(alloc);
    for _ in 0..count {
        queues.push(WaitQueue::make(alloc, threads)?)?;
    }
    Ok(queues)
}

impl MonitorQueues {
    /// The empty queues of so many conditions, for threads 0 to `threads`, which are at most
    /// `MOST_THREADS`. Nothing later takes memory.
    #[tactic(auto, using(crate::proofs::MonitorQueuesLemmas::empty_steps))]
    pub fn make(alloc: Global, threads: u32, conditions: u8) -> Result<MonitorQueues, NoMemory>
        requires { threads ≤ MOST_THREADS }
        ensures { IfOk result (λ queues. queues ≡ empty_queues threads conditions) }
    {
        let entrance = WaitQueue::make(alloc, threads)?;
        let conditions = empty_conditions(alloc, threads, conditions)?;
        let waits = vec![in alloc; false; threads as usize + 1]?;
        Ok(MonitorQueues {
            entrance,
            conditions,
            waits,
        })
    }

    /// How many conditions there are.
    pub fn conditions(&self) -> u8
        ensures { result ≡ length self.now.conditions }
    {
        self.conditions.len() as u8
    }

    /// The thread, which stands in no queue, goes to the end of the entrance.
    pub fn enter(&mut self, thread: u32)
        requires known { thread ≤ self.old.threads }
        requires new { is_queued (all_queued self.old) thread ≡ false }
        ensures { self.new ≡ with_entrance self.old (self.old.entrance ++ thread ∷ []) }
    {
        self.entrance.push(thread);
        self.waits[thread as usize] = true;
    }

    /// The oldest at the entrance.
    pub fn first(&self) -> Option<u32>
        ensures { result ≡ slice_get self.now.entrance 0 }
    {
        self.entrance.head()
    }

    /// The oldest at the entrance leaves it. `None` exactly where nobody stands there.
    pub fn admit(&mut self) -> Option<u32>
        ensures oldest { MatchOption result ((self.old.entrance ≡ []) × (self.new ≡ self.old))
            (λ head. self.old ≡ with_entrance self.new (head ∷ self.new.entrance)) }
        ensures known { IfSome result (λ head. head ≤ self.old.threads) }
    {
        let head = self.entrance.pop()?;
        self.waits[head as usize] = false;
        Some(head)
    }

    /// The thread, which stands in no queue, goes to the end of the condition's.
    pub fn wait(&mut self, condition: u8, thread: u32)
        requires there { condition < length self.old.conditions }
        requires known { thread ≤ self.old.threads }
        requires new { is_queued (all_queued self.old) thread ≡ false }
        ensures { self.new
            ≡ with_condition self.old condition (waiting_at self.old.conditions condition ++ thread ∷ []) }
    {
        self.conditions[condition as usize].push(thread);
        self.waits[thread as usize] = true;
    }

    /// The oldest that waits at the condition.
    pub fn first_at(&self, condition: u8) -> Option<u32>
        requires { condition < length self.now.conditions }
        ensures { IsFirstAt self.now.conditions condition result }
    {
        self.conditions[condition as usize].head()
    }

    /// The oldest that waits at the condition leaves its queue. `None` exactly where nobody waits there.
    pub fn wake(&mut self, condition: u8) -> Option<u32>
        requires { condition < length self.old.conditions }
        ensures first { IsFirstAt self.old.conditions condition result }
        ensures left { AreLeftBy self.old condition result self.new }
        ensures known { IfSome result (λ head. head ≤ self.old.threads) }
        ensures gone { IfSome result (λ head. is_queued (all_queued self.new) head ≡ false) }
    {
        let head = self.conditions[condition as usize].pop()?;
        self.waits[head as usize] = false;
        Some(head)
    }

    /// The oldest that waits at the condition goes to the end of the entrance, if there is one.
    #[tactic(auto, using(crate::proofs::MonitorQueuesLemmas::condition_steps))]
    pub fn notify(&mut self, condition: u8)
        requires { condition < length self.old.conditions }
        ensures { self.new ≡ notified self.old condition (waiting_at self.old.conditions condition) }
    {
        if let Some(thread) = self.wake(condition) {
            self.enter(thread);
        }
    }

    /// All that wait at the condition go to the end of the entrance, in their order.
    #[tactic(auto, using(crate::proofs::MonitorQueuesLemmas::condition_steps))]
    pub fn notify_all(&mut self, condition: u8)
        requires { condition < length self.old.conditions }
        ensures { self.new ≡ all_notified self.old condition }
    {
        while let Some(thread) = self.wake(condition) {
            self.enter(thread);
        }
    }

    /// All at the entrance leave it, and are granted the reply.
    pub fn grant_entrance(&mut self, grants: &mut Grants, reply: Reply)
        requires { self.old.threads < length grants.old }
        ensures granted { grants.new ≡ grant_all self.old.entrance reply grants.old }
        ensures places { length grants.new ≡ length grants.old }
        ensures emptied { self.new ≡ with_entrance self.old [] }
    {
        while let Some(thread) = self.admit() {
            grants.grant(thread, reply);
        }
    }

    /// All that wait at the condition leave its queue, and are granted the reply.
    #[tactic(auto, using(crate::proofs::MonitorQueuesLemmas::condition_steps))]
    fn grant_condition(&mut self, condition: u8, grants: &mut Grants, reply: Reply)
        requires there { condition < length self.old.conditions }
        requires places { self.old.threads < length grants.old }
        ensures granted { grants.new ≡ grant_all (waiting_at self.old.conditions condition) reply grants.old }
        ensures places { length grants.new ≡ length grants.old }
        ensures emptied { self.new ≡ with_condition self.old condition [] }
    {
        while let Some(thread) = self.wake(condition) {
            grants.grant(thread, reply);
        }
    }

    /// All that wait at a condition leave its queue, and are granted the reply, condition by condition.
    #[tactic(auto, using(crate::proofs::MonitorQueuesLemmas::emptied_steps))]
    pub fn grant_conditions(&mut self, grants: &mut Grants, reply: Reply)
        requires { self.old.threads < length grants.old }
        ensures granted { grants.new ≡ grant_all (all_of self.old.conditions) reply grants.old }
        ensures places { length grants.new ≡ length grants.old }
        ensures emptied { self.new ≡ without_conditions self.old }
    {
        for condition in 0..self.conditions() {
            self.grant_condition(condition, grants, reply);
        }
    }

    /// Whether the thread stands in one of the queues.
    pub fn contains(&self, thread: u32) -> bool
        ensures { result ≡ is_queued (all_queued self.now) thread }
    {
        self.waits.get(thread as usize).copied().unwrap_or(false)
    }

    /// How many stand in the queues.
    pub fn len(&self) -> u32
        ensures value { result ≡ length (all_queued self.now) }
        ensures few { result ≤ 256 * (MOST_THREADS + 1) }
    {
        let mut waiting = self.entrance.len();
        for queue in &self.conditions {
            waiting += queue.len();
        }
        waiting
    }
}
