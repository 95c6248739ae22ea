ghost use Rattle.std.specs.Prelude.{◌≡◌, ◌≤◌, true, false, IfOk};
ghost use Rattle.tm_base.specs.Machines.{Answers, CanStep, Steps, fresh};

use std::alloc::Global;
use std::marker::Model;
use tm_base::{Kind, MOST_THREADS, Machine, NoMemory, Op, Reply};
use tm_queues::WaitState;

/// The object that stands for a thread: who starts it, where it begins and ends, and who waits for its
/// end. Contracts see it as the object that it is.
#[derive(Drop)]
pub struct ThreadM {
    own: u32,
    held: bool,
    started: bool,
    begun: bool,
    ended: bool,
    /// Whether the own thread waits in `begin`.
    beginning: bool,
    /// Where the others wait for its end.
    waiting: WaitState,
}

impl Model for ThreadM {
    ghost use Rattle.tm_base.specs.Machines.{ObjectView};

    ghost Value = { ObjectView };

    ghost use Rattle.tm_channels.specs.Threads.{thread_object_view, KeepsThread};

    ghost view = { thread_object_view };

    ghost invariant = { KeepsThread };
}

impl ThreadM {
    /// The object of thread `own`, which has to be started first where it is held, among threads 1 to
    /// `threads`, which are at most `MOST_THREADS`. Nothing later takes memory.
    pub fn make(alloc: Global, threads: u32, own: u32, held: bool) -> Result<ThreadM, NoMemory>
        requires few { threads ≤ MOST_THREADS }
        requires program { 1 ≤ own }
        requires known { own ≤ threads }
        ensures { IfOk result (λ object. object ≡ fresh (Kind.Thread own held) threads) }
    {
        let waiting = WaitState::make(alloc, threads)?;
        Ok(ThreadM {
            own,
            held,
            started: !held,
            begun: false,
            ended: false,
            beginning: false,
            waiting,
        })
    }

    fn begin(&mut self, thread: u32) -> Reply
        requires { CanStep self.old thread Op.Begin }
        ensures { Steps self.old thread Op.Begin result self.new }
    {
        let reply = self.would_begin(thread);
        self.begun = true;
        self.beginning = reply == Reply::Wait;
        reply
    }

    fn start(&mut self, thread: u32) -> Reply
        requires { CanStep self.old thread Op.Start }
        ensures { Steps self.old thread Op.Start result self.new }
    {
        let reply = self.would_start(thread);
        self.started = true;
        if let Reply::Gave(own) = reply {
            self.beginning = false;
            self.waiting.grant_to(own, Reply::Ok);
        }
        reply
    }

    fn join(&mut self, thread: u32) -> Reply
        requires { CanStep self.old thread Op.Join }
        ensures { Steps self.old thread Op.Join result self.new }
    {
        let reply = self.would_join(thread);
        if reply == Reply::Wait {
            self.waiting.push(thread);
        }
        reply
    }

    fn end(&mut self, thread: u32, cut: bool) -> Reply
        requires { CanStep self.old thread (Op.End cut) }
        ensures { Steps self.old thread (Op.End cut) result self.new }
    {
        let reply = self.would_end(thread, cut);
        self.ended = true;
        self.waiting.grant_all(Reply::Ok);
        reply
    }

    fn would_begin(&self, thread: u32) -> Reply
        requires { CanStep self.now thread Op.Begin }
        ensures { Answers self.now thread Op.Begin result }
    {
        if self.started {
            Reply::Ok
        } else {
            self.waiting.would_wait()
        }
    }

    fn would_start(&self, thread: u32) -> Reply
        requires { CanStep self.now thread Op.Start }
        ensures { Answers self.now thread Op.Start result }
    {
        if self.started {
            Reply::Already
        } else if self.beginning {
            Reply::Gave(self.own)
        } else {
            Reply::Ok
        }
    }

    fn would_join(&self, thread: u32) -> Reply
        requires { CanStep self.now thread Op.Join }
        ensures { Answers self.now thread Op.Join result }
    {
        if thread == self.own {
            Reply::Myself
        } else if self.ended {
            Reply::Ok
        } else {
            self.waiting.would_wait()
        }
    }

    fn would_end(&self, thread: u32, cut: bool) -> Reply
        requires { CanStep self.now thread (Op.End cut) }
        ensures { Answers self.now thread (Op.End cut) result }
    {
        let _ = &self.waiting;
        if cut { Reply::Cut } else { Reply::Ok }
    }
}

impl Machine for ThreadM {
    ghost object = { λ m. m };

    fn kind(&self) -> Kind {
        Kind::Thread {
            own: self.own,
            held: self.held,
        }
    }

    fn step(&mut self, thread: u32, op: Op) -> Reply {
        match op {
            Op::Begin => self.begin(thread),
            Op::Start => self.start(thread),
            Op::Join => self.join(thread),
            Op::End { cut } => self.end(thread, cut),
            _ => {
                // The fields show the kind, which has no other operation.
                let _ = &self.waiting;
                unreachable!()
            }
        }
    }

    fn would(&self, thread: u32, op: Op) -> Reply {
        // The fields show the kind, which has no other operation.
        let _ = &self.waiting;
        match op {
            Op::Begin => self.would_begin(thread),
            Op::Start => self.would_start(thread),
            Op::Join => self.would_join(thread),
            Op::End { cut } => self.would_end(thread, cut),
            _ => unreachable!(),
        }
    }

    fn pending(&self, thread: u32) -> bool {
        (self.beginning && thread == self.own) || self.waiting.pending(thread)
    }

    fn poll(&self, thread: u32) -> Option<Reply> {
        self.waiting.poll(thread)
    }

    fn resume(&mut self, thread: u32) -> Option<Reply> {
        self.waiting.resume(thread)
    }

    fn waiters(&self) -> u32 {
        self.waiting.waiters() + u32::from(self.beginning)
    }

    fn stopped(&self) -> bool {
        self.waiting.stopped()
    }

    fn stop(&mut self) {
        if self.beginning {
            self.beginning = false;
            self.waiting.grant_to(self.own, Reply::Stopped);
        }
        self.waiting.stop();
    }

    fn holds(&self, thread: u32) -> bool {
        !self.ended && thread == self.own
    }
}
