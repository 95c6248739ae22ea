ghost use Rattle.std.specs.Prelude.{◌≡◌, ◌≤◌, ◌||◌, true, false, Some, None, IfOk};
ghost use Rattle.tm_base.specs.Machines.{Answers, CanStep, Steps, fresh, holds};
ghost use Rattle.tm_locks.specs.ReaderWriterLocks.{Admits};

use crate::readers::{admit_readers, take_out};
use std::alloc::Global;
use std::marker::Model;
use tm_base::{Kind, MOST_THREADS, Machine, NoMemory, Op, Reply};
use tm_queues::{Grants, ValuedQueue, WaitQueue, waiting_reply};

/// The reader-writer lock of textbooks, with one queue in order of arrival. Contracts see it as the
/// object that it is.
#[derive(Drop)]
pub struct RwM {
    /// Who reads, in the order in which they came.
    readers: WaitQueue,
    writer: Option<u32>,
    /// Who waits, and whether to write.
    queue: ValuedQueue<bool>,
    grants: Grants,
    stopped: bool,
}

impl Model for RwM {
    ghost use Rattle.tm_base.specs.Machines.{ObjectView};

    ghost Value = { ObjectView };

    ghost use Rattle.tm_locks.specs.ReaderWriterLocks.{lock_object, KeepsLock};

    ghost view = { lock_object };

    ghost invariant = { KeepsLock };
}

impl RwM {
    /// A lock with nobody inside, for threads 1 to `threads`, which are at most `MOST_THREADS`. Nothing
    /// later takes memory.
    pub fn make(alloc: Global, threads: u32) -> Result<RwM, NoMemory>
        requires { threads ≤ MOST_THREADS }
        ensures { IfOk result (λ lock. lock ≡ fresh Kind.Rw threads) }
    {
        let readers = WaitQueue::make(alloc, threads)?;
        let queue = ValuedQueue::make(alloc, threads, false)?;
        let grants = Grants::make(alloc, threads)?;
        Ok(RwM {
            readers,
            writer: None,
            queue,
            grants,
            stopped: false,
        })
    }

    fn read_lock(&mut self, thread: u32) -> Reply
        requires { CanStep self.old thread Op.RLock }
        ensures { Steps self.old thread Op.RLock result self.new }
    {
        let reply = self.would_read_lock(thread);
        match reply {
            Reply::Ok => self.readers.push(thread),
            Reply::Wait => self.queue.push(thread, false),
            _ => {}
        }
        reply
    }

    fn write_lock(&mut self, thread: u32) -> Reply
        requires { CanStep self.old thread Op.WLock }
        ensures { Steps self.old thread Op.WLock result self.new }
    {
        let reply = self.would_write_lock(thread);
        match reply {
            Reply::Ok => self.writer = Some(thread),
            Reply::Wait => self.queue.push(thread, true),
            _ => {}
        }
        reply
    }

    fn read_unlock(&mut self, thread: u32) -> Reply
        requires { CanStep self.old thread Op.RUnlock }
        ensures { Steps self.old thread Op.RUnlock result self.new }
    {
        let reply = self.would_read_unlock(thread);
        if reply == Reply::Ok {
            take_out(&mut self.readers, thread);
            self.admit();
        }
        reply
    }

    fn write_unlock(&mut self, thread: u32) -> Reply
        requires { CanStep self.old thread Op.WUnlock }
        ensures { Steps self.old thread Op.WUnlock result self.new }
    {
        let reply = self.would_write_unlock(thread);
        if reply == Reply::Ok {
            self.writer = None;
            self.admit();
        }
        reply
    }

    /// Who may go in is admitted: the writer at the head of the queue where nobody is inside, or the
    /// readers at its head where no writer is.
    fn admit(&mut self)
        ensures { Admits self.old self.new }
    {
        if self.writer.is_some() {
            return;
        }
        match self.queue.head() {
            Some((thread, true)) if self.readers.is_empty() => {
                self.queue.pop();
                self.writer = Some(thread);
                self.grants.grant(thread, Reply::Ok);
            }
            Some((_, false)) => admit_readers(&mut self.queue, &mut self.readers, &mut self.grants),
            _ => {}
        }
    }

    fn would_read_lock(&self, thread: u32) -> Reply
        requires { CanStep self.now thread Op.RLock }
        ensures { Answers self.now thread Op.RLock result }
    {
        if self.is_inside(thread) {
            Reply::Held
        } else if self.writer.is_none() && self.queue.is_empty() {
            Reply::Ok
        } else {
            waiting_reply(self.stopped)
        }
    }

    fn would_write_lock(&self, thread: u32) -> Reply
        requires { CanStep self.now thread Op.WLock }
        ensures { Answers self.now thread Op.WLock result }
    {
        if self.is_inside(thread) {
            Reply::Held
        } else if self.writer.is_none() && self.readers.is_empty() && self.queue.is_empty() {
            Reply::Ok
        } else {
            waiting_reply(self.stopped)
        }
    }

    fn would_read_unlock(&self, thread: u32) -> Reply
        requires { CanStep self.now thread Op.RUnlock }
        ensures { Answers self.now thread Op.RUnlock result }
    {
        if self.readers.contains(thread) {
            Reply::Ok
        } else {
            Reply::NotOwner
        }
    }

    fn would_write_unlock(&self, thread: u32) -> Reply
        requires { CanStep self.now thread Op.WUnlock }
        ensures { Answers self.now thread Op.WUnlock result }
    {
        if self.writer == Some(thread) {
            Reply::Ok
        } else {
            Reply::NotOwner
        }
    }

    /// Whether the thread is the writer or a reader.
    fn is_inside(&self, thread: u32) -> bool
        ensures { result ≡ holds self.now thread }
    {
        self.writer == Some(thread) || self.readers.contains(thread)
    }
}

impl Machine for RwM {
    ghost object = { λ m. m };

    fn kind(&self) -> Kind {
        // Any field shows that it is a reader-writer lock.
        let _ = &self.readers;
        Kind::Rw
    }

    fn step(&mut self, thread: u32, op: Op) -> Reply {
        match op {
            Op::RLock => self.read_lock(thread),
            Op::RUnlock => self.read_unlock(thread),
            Op::WLock => self.write_lock(thread),
            Op::WUnlock => self.write_unlock(thread),
            _ => {
                // The fields show the kind, which has no other operation.
                let _ = &self.readers;
                unreachable!()
            }
        }
    }

    fn would(&self, thread: u32, op: Op) -> Reply {
        // The fields show the kind, which has no other operation.
        let _ = &self.readers;
        match op {
            Op::RLock => self.would_read_lock(thread),
            Op::RUnlock => self.would_read_unlock(thread),
            Op::WLock => self.would_write_lock(thread),
            Op::WUnlock => self.would_write_unlock(thread),
            _ => unreachable!(),
        }
    }

    fn pending(&self, thread: u32) -> bool {
        self.queue.contains(thread) || self.grants.granted(thread).is_some()
    }

    fn poll(&self, thread: u32) -> Option<Reply> {
        self.grants.granted(thread)
    }

    fn resume(&mut self, thread: u32) -> Option<Reply> {
        self.grants.take(thread)
    }

    fn waiters(&self) -> u32 {
        self.queue.len()
    }

    fn stopped(&self) -> bool {
        self.stopped
    }

    fn stop(&mut self) {
        self.grants
            .grant_all_valued(&mut self.queue, Reply::Stopped);
        self.stopped = true;
    }

    fn holds(&self, thread: u32) -> bool {
        self.is_inside(thread)
    }
}
