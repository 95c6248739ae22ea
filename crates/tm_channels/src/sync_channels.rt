ghost use Rattle.std.specs.Prelude.{◌≡◌, ◌≤◌, IfOk};
ghost use Rattle.tm_base.specs.Machines.{Answers, CanStep, Steps, fresh};

use crate::channel_queues::ChannelQueues;
use std::alloc::Global;
use std::marker::Model;
use tm_base::{Kind, MOST_THREADS, Machine, NoMemory, Op, Reply};

/// The synchronous channel of textbooks: a sender and a receiver meet. Contracts see it as the object
/// that it is.
#[derive(Drop)]
pub struct SyncM {
    queues: ChannelQueues,
}

impl Model for SyncM {
    ghost use Rattle.tm_base.specs.Machines.{ObjectView};

    ghost Value = { ObjectView };

    ghost use Rattle.tm_channels.specs.SyncChannels.{sync_object};

    ghost view = { sync_object };
}

impl SyncM {
    /// An open channel at which nobody waits, for threads 1 to `threads`, which are at most `MOST_THREADS`.
    /// Nothing later takes memory.
    pub fn make(alloc: Global, threads: u32) -> Result<SyncM, NoMemory>
        requires { threads ≤ MOST_THREADS }
        ensures { IfOk result (λ channel. channel ≡ fresh Kind.Sync threads) }
    {
        let queues = ChannelQueues::make(alloc, threads)?;
        Ok(SyncM { queues })
    }

    fn send(&mut self, thread: u32, message: i64) -> Reply
        requires { CanStep self.old thread (Op.Send message) }
        ensures { Steps self.old thread (Op.Send message) result self.new }
    {
        let reply = self.would_send(thread, message);
        match reply {
            Reply::Gave(_) => {
                self.queues.give(message);
            }
            Reply::Wait => self.queues.add_sender(thread, message),
            _ => {}
        }
        reply
    }

    fn recv(&mut self, thread: u32) -> Reply
        requires { CanStep self.old thread Op.Recv }
        ensures { Steps self.old thread Op.Recv result self.new }
    {
        let reply = self.would_recv(thread);
        match reply {
            Reply::Got(_) => {
                self.queues.take();
            }
            Reply::Wait => self.queues.add_receiver(thread),
            _ => {}
        }
        reply
    }

    fn close(&mut self, thread: u32) -> Reply
        requires { CanStep self.old thread Op.Close }
        ensures { Steps self.old thread Op.Close result self.new }
    {
        let reply = self.would_close(thread);
        if reply == Reply::Ok {
            self.queues.close();
        }
        reply
    }

    fn would_send(&self, thread: u32, message: i64) -> Reply
        requires { CanStep self.now thread (Op.Send message) }
        ensures { Answers self.now thread (Op.Send message) result }
    {
        if self.queues.closed() {
            return Reply::Closed;
        }
        match self.queues.first_receiver() {
            Some(receiver) => Reply::Gave(receiver),
            None => self.queues.would_wait(),
        }
    }

    fn would_recv(&self, thread: u32) -> Reply
        requires { CanStep self.now thread Op.Recv }
        ensures { Answers self.now thread Op.Recv result }
    {
        match self.queues.first_sender() {
            Some((_, message)) => Reply::Got(message),
            None if self.queues.closed() => Reply::Closed,
            None => self.queues.would_wait(),
        }
    }

    fn would_close(&self, thread: u32) -> Reply
        requires { CanStep self.now thread Op.Close }
        ensures { Answers self.now thread Op.Close result }
    {
        if self.queues.closed() {
            Reply::Closed
        } else {
            Reply::Ok
        }
    }
}

impl Machine for SyncM {
    ghost object = { λ m. m };

    fn kind(&self) -> Kind {
        // Any field shows that it is a synchronous channel.
        let _ = &self.queues;
        Kind::Sync
    }

    fn step(&mut self, thread: u32, op: Op) -> Reply {
        match op {
            Op::Send(message) => self.send(thread, message),
            Op::Recv => self.recv(thread),
            Op::Close => self.close(thread),
            _ => {
                // The fields show the kind, which has no other operation.
                let _ = &self.queues;
                unreachable!()
            }
        }
    }

    fn would(&self, thread: u32, op: Op) -> Reply {
        // The fields show the kind, which has no other operation.
        let _ = &self.queues;
        match op {
            Op::Send(message) => self.would_send(thread, message),
            Op::Recv => self.would_recv(thread),
            Op::Close => self.would_close(thread),
            _ => unreachable!(),
        }
    }

    fn pending(&self, thread: u32) -> bool {
        self.queues.pending(thread)
    }

    fn poll(&self, thread: u32) -> Option<Reply> {
        self.queues.poll(thread)
    }

    fn resume(&mut self, thread: u32) -> Option<Reply> {
        self.queues.resume(thread)
    }

    fn waiters(&self) -> u32 {
        self.queues.waiters()
    }

    fn stopped(&self) -> bool {
        self.queues.stopped()
    }

    fn stop(&mut self) {
        self.queues.stop();
    }

    fn holds(&self, thread: u32) -> bool {
        // Nobody holds a channel.
        let _ = &self.queues;
        false
    }
}
