ghost use Rattle.std.specs.Prelude.{◌≡◌, ◌≤◌, true, false, Some, None, IfOk};
ghost use Rattle.tm_base.specs.Machines.{Answers, CanStep, Steps, fresh};

use std::alloc::Global;
use std::marker::Model;
use tm_base::{GREATEST_SEMAPHORE_VALUE, Kind, MOST_THREADS, Machine, NoMemory, Op, Reply};
use tm_queues::WaitState;

/// Dijkstra's semaphore, first in, first out. Contracts see it as the object that it is.
#[derive(Drop)]
pub struct SemM {
    start: u32,
    value: u32,
    waiting: WaitState,
}

impl Model for SemM {
    ghost use Rattle.tm_base.specs.Machines.{ObjectView};

    ghost Value = { ObjectView };

    ghost use Rattle.tm_locks.specs.Semaphores.{sem_object, KeepsSem};

    ghost view = { sem_object };

    ghost invariant = { KeepsSem };
}

impl SemM {
    /// A semaphore of this value, at most `GREATEST_SEMAPHORE_VALUE`, for threads 1 to `threads`, which are
    /// at most `MOST_THREADS`. Nothing later takes memory.
    pub fn make(alloc: Global, threads: u32, value: u32) -> Result<SemM, NoMemory>
        requires few { threads ≤ MOST_THREADS }
        requires small { value ≤ GREATEST_SEMAPHORE_VALUE }
        ensures { IfOk result (λ semaphore. semaphore ≡ fresh (Kind.Sem value) threads) }
    {
        let waiting = WaitState::make(alloc, threads)?;
        Ok(SemM {
            start: value,
            value,
            waiting,
        })
    }

    fn p(&mut self, thread: u32) -> Reply
        requires { CanStep self.old thread Op.P }
        ensures { Steps self.old thread Op.P result self.new }
    {
        let reply = self.would_p(thread);
        match reply {
            Reply::Ok => self.value -= 1,
            Reply::Wait => self.waiting.push(thread),
            _ => {}
        }
        reply
    }

    fn try_p(&mut self, thread: u32) -> Reply
        requires { CanStep self.old thread Op.TryP }
        ensures { Steps self.old thread Op.TryP result self.new }
    {
        let reply = self.would_try_p(thread);
        if reply == Reply::Ok {
            self.value -= 1;
        }
        reply
    }

    fn v(&mut self, thread: u32) -> Reply
        requires { CanStep self.old thread Op.V }
        ensures { Steps self.old thread Op.V result self.new }
    {
        let reply = self.would_v(thread);
        match reply {
            Reply::Ok => self.value += 1,
            Reply::Gave(_) => {
                self.waiting.grant(Reply::Ok);
            }
            _ => {}
        }
        reply
    }

    fn would_p(&self, thread: u32) -> Reply
        requires { CanStep self.now thread Op.P }
        ensures { Answers self.now thread Op.P result }
    {
        if self.value > 0 {
            Reply::Ok
        } else {
            self.waiting.would_wait()
        }
    }

    fn would_try_p(&self, thread: u32) -> Reply
        requires { CanStep self.now thread Op.TryP }
        ensures { Answers self.now thread Op.TryP result }
    {
        if self.value > 0 {
            Reply::Ok
        } else {
            Reply::Zero
        }
    }

    fn would_v(&self, thread: u32) -> Reply
        requires { CanStep self.now thread Op.V }
        ensures { Answers self.now thread Op.V result }
    {
        match self.waiting.head() {
            Some(next) => Reply::Gave(next),
            None if self.value == GREATEST_SEMAPHORE_VALUE => Reply::Full,
            None => Reply::Ok,
        }
    }
}

impl Machine for SemM {
    ghost object = { λ m. m };

    fn kind(&self) -> Kind {
        Kind::Sem { value: self.start }
    }

    fn step(&mut self, thread: u32, op: Op) -> Reply {
        match op {
            Op::P => self.p(thread),
            Op::TryP => self.try_p(thread),
            Op::V => self.v(thread),
            _ => {
                // The fields show the kind, which has no other operation.
                let _ = &self.waiting;
                unreachable!()
            }
        }
    }

    fn would(&self, thread: u32, op: Op) -> Reply {
        // The fields show the kind, which has no other operation.
        let _ = &self.waiting;
        match op {
            Op::P => self.would_p(thread),
            Op::TryP => self.would_try_p(thread),
            Op::V => self.would_v(thread),
            _ => unreachable!(),
        }
    }

    fn pending(&self, thread: u32) -> bool {
        self.waiting.pending(thread)
    }

    fn poll(&self, thread: u32) -> Option<Reply> {
        self.waiting.poll(thread)
    }

    fn resume(&mut self, thread: u32) -> Option<Reply> {
        self.waiting.resume(thread)
    }

    fn waiters(&self) -> u32 {
        self.waiting.waiters()
    }

    fn stopped(&self) -> bool {
        self.waiting.stopped()
    }

    fn stop(&mut self) {
        self.waiting.stop();
    }

    /// Nobody holds a semaphore.
    fn holds(&self, _thread: u32) -> bool {
        let _ = &self.waiting;
        false
    }
}
