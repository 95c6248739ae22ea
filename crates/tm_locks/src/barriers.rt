ghost use Rattle.std.specs.Prelude.{◌≡◌, ◌≤◌, true, false, IfOk};
ghost use Rattle.tm_base.specs.Machines.{Answers, CanStep, Steps, fresh};

use std::alloc::Global;
use std::marker::Model;
use tm_base::{Kind, MOST_THREADS, Machine, NoMemory, Op, Reply};
use tm_queues::WaitState;

/// The barrier of textbooks: the last of its parties to arrive lets all others go on, and it closes
/// again. Contracts see it as the object that it is.
#[derive(Drop)]
pub struct BarrierM {
    parties: u32,
    waiting: WaitState,
}

impl Model for BarrierM {
    ghost use Rattle.tm_base.specs.Machines.{ObjectView};

    ghost Value = { ObjectView };

    ghost use Rattle.tm_locks.specs.Barriers.{barrier_object};

    ghost view = { barrier_object };
}

impl BarrierM {
    /// A closed barrier of so many parties, at which nobody has arrived, for threads 1 to `threads`,
    /// which are at most `MOST_THREADS`. Where there are more parties than threads it never opens.
    /// Nothing later takes memory.
    pub fn make(alloc: Global, threads: u32, parties: u32) -> Result<BarrierM, NoMemory>
        requires few { threads ≤ MOST_THREADS }
        requires some { 1 ≤ parties }
        ensures { IfOk result (λ barrier. barrier ≡ fresh (Kind.Barrier parties) threads) }
    {
        let waiting = WaitState::make(alloc, threads)?;
        Ok(BarrierM { parties, waiting })
    }

    fn arrive(&mut self, thread: u32) -> Reply
        requires { CanStep self.old thread Op.Arrive }
        ensures { Steps self.old thread Op.Arrive result self.new }
    {
        let reply = self.would_arrive(thread);
        match reply {
            Reply::Last => self.waiting.grant_all(Reply::Ok),
            Reply::Wait => self.waiting.push(thread),
            _ => {}
        }
        reply
    }

    fn would_arrive(&self, thread: u32) -> Reply
        requires { CanStep self.now thread Op.Arrive }
        ensures { Answers self.now thread Op.Arrive result }
    {
        if self.waiting.waiters() + 1 == self.parties {
            Reply::Last
        } else {
            self.waiting.would_wait()
        }
    }
}

impl Machine for BarrierM {
    ghost object = { λ m. m };

    fn kind(&self) -> Kind {
        Kind::Barrier {
            parties: self.parties,
        }
    }

    fn step(&mut self, thread: u32, op: Op) -> Reply {
        match op {
            Op::Arrive => self.arrive(thread),
            _ => {
                // The fields show the kind, which has no other operation.
                let _ = &self.waiting;
                unreachable!()
            }
        }
    }

    fn would(&self, thread: u32, op: Op) -> Reply {
        // The fields show the kind, which has no other operation.
        let _ = &self.waiting;
        match op {
            Op::Arrive => self.would_arrive(thread),
            _ => unreachable!(),
        }
    }

    fn pending(&self, thread: u32) -> bool {
        self.waiting.pending(thread)
    }

    fn poll(&self, thread: u32) -> Option<Reply> {
        self.waiting.poll(thread)
    }

    fn resume(&mut self, thread: u32) -> Option<Reply> {
        self.waiting.resume(thread)
    }

    fn waiters(&self) -> u32 {
        self.waiting.waiters()
    }

    fn stopped(&self) -> bool {
        self.waiting.stopped()
    }

    fn stop(&mut self) {
        self.waiting.stop();
    }

    /// Nobody holds a barrier.
    fn holds(&self, _thread: u32) -> bool {
        let _ = &self.waiting;
        false
    }
}
