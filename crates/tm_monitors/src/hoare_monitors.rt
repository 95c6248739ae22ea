ghost use Rattle.std.specs.Prelude.{◌≡◌, ◌≤◌, ◌<◌, true, false, Some, None, IfOk};
ghost use Rattle.tm_base.specs.Machines.{Answers, CanStep, Steps, fresh};
ghost use Rattle.tm_monitors.specs.HoareMonitors.{heir_in_hoare, hoare_after};

use crate::monitor_queues::MonitorQueues;
use crate::urgent_stacks::UrgentStack;
use std::alloc::Global;
use std::marker::Model;
use tm_base::{Kind, MOST_THREADS, Machine, NoMemory, Op, Reply};
use tm_queues::{Grants, waiting_reply};

/// The monitor of Hoare: one thread inside, and a signal that lets a waiter in at once, while the signaller
/// waits on the urgent stack. Contracts see it as the object that it is.
#[derive(Drop)]
pub struct HoareM {
    inside: Option<u32>,
    queues: MonitorQueues,
    urgent: UrgentStack,
    grants: Grants,
    stopped: bool,
}

impl Model for HoareM {
    ghost use Rattle.tm_base.specs.Machines.{ObjectView};

    ghost Value = { ObjectView };

    ghost use Rattle.tm_monitors.specs.HoareMonitors.{hoare_object, KeepsHoare};

    ghost view = { hoare_object };

    ghost invariant = { KeepsHoare };
}

impl HoareM {
    /// A monitor with nobody inside and so many conditions, numbered from 0, for threads 1 to `threads`,
    /// which are at most `MOST_THREADS`. Nothing later takes memory.
    pub fn make(alloc: Global, threads: u32, conditions: u8) -> Result<HoareM, NoMemory>
        requires { threads ≤ MOST_THREADS }
        ensures { IfOk result (λ monitor. monitor ≡ fresh (Kind.Hoare conditions) threads) }
    {
        let queues = MonitorQueues::make(alloc, threads, conditions)?;
        let urgent = UrgentStack::make(alloc, threads)?;
        let grants = Grants::make(alloc, threads)?;
        Ok(HoareM {
            inside: None,
            queues,
            urgent,
            grants,
            stopped: false,
        })
    }

    /// Lets the newest signaller in, or the oldest at the entrance where no signaller waits, or frees the
    /// monitor.
    fn hand_on(&mut self)
        ensures { self.new ≡ hoare_after self.old }
    {
        self.inside = match self.urgent.pop() {
            Some(signaller) => Some(signaller),
            None => self.queues.admit(),
        };
        if let Some(next) = self.inside {
            self.grants.grant(next, Reply::Ok);
        }
    }

    fn enter(&mut self, thread: u32) -> Reply
        requires { CanStep self.old thread Op.Enter }
        ensures { Steps self.old thread Op.Enter result self.new }
    {
        let reply = self.would_enter(thread);
        match reply {
            Reply::Ok => self.inside = Some(thread),
            Reply::Wait => self.queues.enter(thread),
            _ => {}
        }
        reply
    }

    fn leave(&mut self, thread: u32) -> Reply
        requires { CanStep self.old thread Op.Leave }
        ensures { Steps self.old thread Op.Leave result self.new }
    {
        // The fields show the kind.
        let _ = &self.queues;
        let reply = self.would_leave(thread);
        if reply != Reply::NotOwner {
            self.hand_on();
        }
        reply
    }

    fn wait(&mut self, thread: u32, condition: u8) -> Reply
        requires { CanStep self.old thread (Op.Wait condition) }
        ensures { Steps self.old thread (Op.Wait condition) result self.new }
    {
        let reply = self.would_wait(thread, condition);
        if reply == Reply::Wait {
            self.queues.wait(condition, thread);
            self.hand_on();
        }
        reply
    }

    fn signal(&mut self, thread: u32, condition: u8) -> Reply
        requires { CanStep self.old thread (Op.Signal condition) }
        ensures { Steps self.old thread (Op.Signal condition) result self.new }
    {
        let reply = self.would_signal(thread, condition);
        if reply == Reply::Wait {
            self.inside = self.queues.wake(condition);
            self.urgent.push(thread);
            if let Some(waiter) = self.inside {
                self.grants.grant(waiter, Reply::Ok);
            }
        }
        reply
    }

    /// To whom the monitor would be handed on.
    fn heir(&self) -> Option<u32>
        ensures { result ≡ heir_in_hoare self.now.state.kind_state }
    {
        match self.urgent.top() {
            Some(signaller) => Some(signaller),
            None => self.queues.first(),
        }
    }

    fn would_enter(&self, thread: u32) -> Reply
        requires { CanStep self.now thread Op.Enter }
        ensures { Answers self.now thread Op.Enter result }
    {
        match self.inside {
            Some(inside) if inside == thread => Reply::Held,
            Some(_) => waiting_reply(self.stopped),
            None => Reply::Ok,
        }
    }

    fn would_leave(&self, thread: u32) -> Reply
        requires { CanStep self.now thread Op.Leave }
        ensures { Answers self.now thread Op.Leave result }
    {
        match self.inside {
            Some(inside) if inside == thread => match self.heir() {
                Some(next) => Reply::Gave(next),
                None => Reply::Ok,
            },
            _ => Reply::NotOwner,
        }
    }

    fn would_wait(&self, thread: u32, condition: u8) -> Reply
        requires { CanStep self.now thread (Op.Wait condition) }
        ensures { Answers self.now thread (Op.Wait condition) result }
    {
        match self.inside {
            Some(inside) if inside == thread => waiting_reply(self.stopped),
            _ => Reply::NotOwner,
        }
    }

    fn would_signal(&self, thread: u32, condition: u8) -> Reply
        requires { CanStep self.now thread (Op.Signal condition) }
        ensures { Answers self.now thread (Op.Signal condition) result }
    {
        match self.inside {
            Some(inside) if inside == thread => match self.queues.first_at(condition) {
                Some(_) => Reply::Wait,
                None => Reply::Ok,
            },
            _ => Reply::NotOwner,
        }
    }
}

impl Machine for HoareM {
    ghost object = { λ m. m };

    fn kind(&self) -> Kind {
        Kind::Hoare {
            conditions: self.queues.conditions(),
        }
    }

    fn step(&mut self, thread: u32, op: Op) -> Reply {
        match op {
            Op::Enter => self.enter(thread),
            Op::Leave => self.leave(thread),
            Op::Wait(condition) => self.wait(thread, condition),
            Op::Signal(condition) => self.signal(thread, condition),
            _ => {
                // The fields show the kind, which has no other operation.
                let _ = &self.queues;
                unreachable!()
            }
        }
    }

    fn would(&self, thread: u32, op: Op) -> Reply {
        // The fields show the kind, which has no other operation.
        let _ = &self.queues;
        match op {
            Op::Enter => self.would_enter(thread),
            Op::Leave => self.would_leave(thread),
            Op::Wait(condition) => self.would_wait(thread, condition),
            Op::Signal(condition) => self.would_signal(thread, condition),
            _ => unreachable!(),
        }
    }

    fn pending(&self, thread: u32) -> bool {
        self.queues.contains(thread)
            || self.urgent.contains(thread)
            || self.grants.granted(thread).is_some()
    }

    fn poll(&self, thread: u32) -> Option<Reply> {
        self.grants.granted(thread)
    }

    fn resume(&mut self, thread: u32) -> Option<Reply> {
        self.grants.take(thread)
    }

    fn waiters(&self) -> u32 {
        self.queues.len() + self.urgent.len()
    }

    fn stopped(&self) -> bool {
        self.stopped
    }

    #[tactic(auto, using(crate::proofs::MonitorQueuesLemmas::stop_steps))]
    fn stop(&mut self) {
        self.queues.grant_entrance(&mut self.grants, Reply::Stopped);
        self.urgent.grant_all(&mut self.grants, Reply::Stopped);
        self.queues
            .grant_conditions(&mut self.grants, Reply::Stopped);
        self.stopped = true;
    }

    fn holds(&self, thread: u32) -> bool {
        self.inside == Some(thread)
    }
}
