ghost use Rattle.std.specs.Prelude.{◌≡◌, ◌≤◌, true, false, Some, None, IfOk};
ghost use Rattle.tm_base.specs.Machines.{Answers, CanStep, Steps, fresh};

use std::alloc::Global;
use std::marker::Model;
use tm_base::{Kind, MOST_THREADS, Machine, NoMemory, Op, Reply};
use tm_queues::WaitState;

/// The mutex of textbooks, first in, first out. Contracts see it as the object that it is.
#[derive(Drop)]
pub struct MutexM {
    owner: Option<u32>,
    waiting: WaitState,
}

impl Model for MutexM {
    ghost use Rattle.tm_base.specs.Machines.{ObjectView};

    ghost Value = { ObjectView };

    ghost use Rattle.tm_locks.specs.Mutexes.{mutex_object};

    ghost view = { mutex_object };
}

impl MutexM {
    /// A mutex that nobody owns, for threads 1 to `threads`, which are at most `MOST_THREADS`. Nothing
    /// later takes memory.
    pub fn make(alloc: Global, threads: u32) -> Result<MutexM, NoMemory>
        requires { threads ≤ MOST_THREADS }
        ensures { IfOk result (λ mutex. mutex ≡ fresh Kind.Mutex threads) }
    {
        let waiting = WaitState::make(alloc, threads)?;
        Ok(MutexM {
            owner: None,
            waiting,
        })
    }

    fn lock(&mut self, thread: u32) -> Reply
        requires { CanStep self.old thread Op.Lock }
        ensures { Steps self.old thread Op.Lock result self.new }
    {
        let reply = self.would_lock(thread);
        match reply {
            Reply::Ok => self.owner = Some(thread),
            Reply::Wait => self.waiting.push(thread),
            _ => {}
        }
        reply
    }

    fn try_lock(&mut self, thread: u32) -> Reply
        requires { CanStep self.old thread Op.TryLock }
        ensures { Steps self.old thread Op.TryLock result self.new }
    {
        let reply = self.would_try_lock(thread);
        if reply == Reply::Ok {
            self.owner = Some(thread);
        }
        reply
    }

    fn unlock(&mut self, thread: u32) -> Reply
        requires { CanStep self.old thread Op.Unlock }
        ensures { Steps self.old thread Op.Unlock result self.new }
    {
        let reply = self.would_unlock(thread);
        if reply != Reply::NotOwner {
            self.owner = self.waiting.grant(Reply::Ok);
        }
        reply
    }

    fn would_lock(&self, thread: u32) -> Reply
        requires { CanStep self.now thread Op.Lock }
        ensures { Answers self.now thread Op.Lock result }
    {
        match self.owner {
            Some(owner) if owner != thread => self.waiting.would_wait(),
            _ => self.would_try_lock(thread),
        }
    }

    fn would_try_lock(&self, thread: u32) -> Reply
        requires { CanStep self.now thread Op.TryLock }
        ensures { Answers self.now thread Op.TryLock result }
    {
        match self.owner {
            Some(owner) if owner == thread => Reply::Held,
            Some(_) => Reply::Busy,
            None => Reply::Ok,
        }
    }

    fn would_unlock(&self, thread: u32) -> Reply
        requires { CanStep self.now thread Op.Unlock }
        ensures { Answers self.now thread Op.Unlock result }
    {
        match self.owner {
            Some(owner) if owner == thread => match self.waiting.head() {
                Some(next) => Reply::Gave(next),
                None => Reply::Ok,
            },
            _ => Reply::NotOwner,
        }
    }
}

impl Machine for MutexM {
    ghost object = { λ m. m };

    fn kind(&self) -> Kind {
        // Any field shows that it is a mutex.
        let _ = &self.waiting;
        Kind::Mutex
    }

    fn step(&mut self, thread: u32, op: Op) -> Reply {
        match op {
            Op::Lock => self.lock(thread),
            Op::TryLock => self.try_lock(thread),
            Op::Unlock => self.unlock(thread),
            _ => {
                // The fields show the kind, which has no other operation.
                let _ = &self.waiting;
                unreachable!()
            }
        }
    }

    fn would(&self, thread: u32, op: Op) -> Reply {
        // The fields show the kind, which has no other operation.
        let _ = &self.waiting;
        match op {
            Op::Lock => self.would_lock(thread),
            Op::TryLock => self.would_try_lock(thread),
            Op::Unlock => self.would_unlock(thread),
            _ => unreachable!(),
        }
    }

    fn pending(&self, thread: u32) -> bool {
        self.waiting.pending(thread)
    }

    fn poll(&self, thread: u32) -> Option<Reply> {
        self.waiting.poll(thread)
    }

    fn resume(&mut self, thread: u32) -> Option<Reply> {
        self.waiting.resume(thread)
    }

    fn waiters(&self) -> u32 {
        self.waiting.waiters()
    }

    fn stopped(&self) -> bool {
        self.waiting.stopped()
    }

    fn stop(&mut self) {
        self.waiting.stop();
    }

    fn holds(&self, thread: u32) -> bool {
        self.owner == Some(thread)
    }
}
