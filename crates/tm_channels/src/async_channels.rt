ghost use Rattle.std.specs.Prelude.{◌≡◌, ◌≤◌, IfOk};
ghost use Rattle.tm_base.specs.Machines.{Answers, CanStep, Steps, fresh};

use crate::channel_queues::ChannelQueues;
use std::alloc::Global;
use std::collections::VecDeque;
use std::marker::Model;
use tm_base::{Kind, MOST_THREADS, Machine, NoMemory, Op, Reply};

/// The most messages that an asynchronous channel has room for.
pub const MOST_MESSAGES: u32 = 65_535;

/// The asynchronous channel of textbooks: room for a number of messages, first in, first out. Contracts
/// see it as the object that it is.
#[derive(Drop)]
pub struct AsyncM {
    capacity: u32,
    messages: VecDeque<i64>,
    queues: ChannelQueues,
}

impl Model for AsyncM {
    ghost use Rattle.tm_base.specs.Machines.{ObjectView};

    ghost Value = { ObjectView };

    ghost use Rattle.tm_channels.specs.AsyncChannels.{async_object, KeepsMessages};

    ghost view = { async_object };

    ghost invariant = { KeepsMessages };
}

impl AsyncM {
    /// An open channel with room for `capacity` messages, from 1 to `MOST_MESSAGES`, that keeps none and at
    /// which nobody waits, for threads 1 to `threads`, which are at most `MOST_THREADS`. Nothing later takes
    /// memory.
    pub fn make(alloc: Global, threads: u32, capacity: u32) -> Result<AsyncM, NoMemory>
        requires few { threads ≤ MOST_THREADS }
        requires some { 1 ≤ capacity }
        requires small { capacity ≤ MOST_MESSAGES }
        ensures { IfOk result (λ channel. channel ≡ fresh (Kind.Async capacity) threads) }
    {
        let messages = VecDeque::with_capacity(alloc, capacity as usize)?;
        let queues = ChannelQueues::make(alloc, threads)?;
        Ok(AsyncM {
            capacity,
            messages,
            queues,
        })
    }

    fn send(&mut self, thread: u32, message: i64) -> Reply
        requires { CanStep self.old thread (Op.Send message) }
        ensures { Steps self.old thread (Op.Send message) result self.new }
    {
        let reply = self.would_send(thread, message);
        match reply {
            Reply::Gave(_) => {
                self.queues.give(message);
            }
            Reply::Ok => self.messages.push_back_reserved(message),
            Reply::Wait => self.queues.add_sender(thread, message),
            _ => {}
        }
        reply
    }

    fn recv(&mut self, thread: u32) -> Reply
        requires { CanStep self.old thread Op.Recv }
        ensures { Steps self.old thread Op.Recv result self.new }
    {
        let reply = self.would_recv(thread);
        match reply {
            Reply::Got(_) => {
                self.messages.pop_front();
                if let Some((_, message)) = self.queues.take() {
                    self.messages.push_back_reserved(message);
                }
            }
            Reply::Wait => self.queues.add_receiver(thread),
            _ => {}
        }
        reply
    }

    fn close(&mut self, thread: u32) -> Reply
        requires { CanStep self.old thread Op.Close }
        ensures { Steps self.old thread Op.Close result self.new }
    {
        let reply = self.would_close(thread);
        if reply == Reply::Ok {
            self.queues.close();
        }
        reply
    }

    fn would_send(&self, thread: u32, message: i64) -> Reply
        requires { CanStep self.now thread (Op.Send message) }
        ensures { Answers self.now thread (Op.Send message) result }
    {
        if self.queues.closed() {
            return Reply::Closed;
        }
        match self.queues.first_receiver() {
            Some(receiver) => Reply::Gave(receiver),
            None if self.messages.len() < self.capacity as usize => Reply::Ok,
            None => self.queues.would_wait(),
        }
    }

    fn would_recv(&self, thread: u32) -> Reply
        requires { CanStep self.now thread Op.Recv }
        ensures { Answers self.now thread Op.Recv result }
    {
        match self.messages.front() {
            Some(message) => Reply::Got(*message),
            None if self.queues.closed() => Reply::Closed,
            None => self.queues.would_wait(),
        }
    }

    fn would_close(&self, thread: u32) -> Reply
        requires { CanStep self.now thread Op.Close }
        ensures { Answers self.now thread Op.Close result }
    {
        if self.queues.closed() {
            Reply::Closed
        } else {
            Reply::Ok
        }
    }
}

impl Machine for AsyncM {
    ghost object = { λ m. m };

    fn kind(&self) -> Kind {
        Kind::Async {
            capacity: self.capacity,
        }
    }

    fn step(&mut self, thread: u32, op: Op) -> Reply {
        match op {
            Op::Send(message) => self.send(thread, message),
            Op::Recv => self.recv(thread),
            Op::Close => self.close(thread),
            _ => {
                // The fields show the kind, which has no other operation.
                let _ = &self.queues;
                unreachable!()
            }
        }
    }

    fn would(&self, thread: u32, op: Op) -> Reply {
        // The fields show the kind, which has no other operation.
        let _ = &self.queues;
        match op {
            Op::Send(message) => self.would_send(thread, message),
            Op::Recv => self.would_recv(thread),
            Op::Close => self.would_close(thread),
            _ => unreachable!(),
        }
    }

    fn pending(&self, thread: u32) -> bool {
        self.queues.pending(thread)
    }

    fn poll(&self, thread: u32) -> Option<Reply> {
        self.queues.poll(thread)
    }

    fn resume(&mut self, thread: u32) -> Option<Reply> {
        self.queues.resume(thread)
    }

    fn waiters(&self) -> u32 {
        self.queues.waiters()
    }

    fn stopped(&self) -> bool {
        self.queues.stopped()
    }

    fn stop(&mut self) {
        self.queues.stop();
    }

    fn holds(&self, thread: u32) -> bool {
        // Nobody holds a channel.
        let _ = &self.queues;
        false
    }
}
