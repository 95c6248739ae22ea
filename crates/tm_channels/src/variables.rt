ghost use Rattle.std.specs.Prelude.{◌≡◌};
ghost use Rattle.tm_base.specs.Machines.{Answers, CanStep, Steps, fresh};

use std::marker::Model;
use tm_base::{Kind, Machine, Op, Reply};

/// A shared variable: a signed number of 64 bits, at which nobody waits. Contracts see it as the object
/// that it is.
#[derive(Drop)]
pub struct VarM {
    threads: u32,
    start: i64,
    value: i64,
    stopped: bool,
}

impl Model for VarM {
    ghost use Rattle.tm_base.specs.Machines.{ObjectView};

    ghost Value = { ObjectView };

    ghost use Rattle.tm_channels.specs.Variables.{variable_object};

    ghost view = { variable_object };
}

impl VarM {
    /// A variable with this value, for threads 1 to `threads`. It takes no memory.
    pub fn make(threads: u32, value: i64) -> VarM
        ensures { result ≡ fresh (Kind.Var value) threads }
    {
        VarM {
            threads,
            start: value,
            value,
            stopped: false,
        }
    }

    fn write(&mut self, thread: u32, value: i64) -> Reply
        requires { CanStep self.old thread (Op.Write value) }
        ensures { Steps self.old thread (Op.Write value) result self.new }
    {
        let reply = self.would_write(thread, value);
        self.value = value;
        reply
    }

    fn add(&mut self, thread: u32, amount: i64) -> Reply
        requires { CanStep self.old thread (Op.Add amount) }
        ensures { Steps self.old thread (Op.Add amount) result self.new }
    {
        let reply = self.would_add(thread, amount);
        if let Reply::Got(sum) = reply {
            self.value = sum;
        }
        reply
    }

    fn would_read(&self, thread: u32) -> Reply
        requires { CanStep self.now thread Op.Read }
        ensures { Answers self.now thread Op.Read result }
    {
        Reply::Got(self.value)
    }

    fn would_write(&self, thread: u32, value: i64) -> Reply
        requires { CanStep self.now thread (Op.Write value) }
        ensures { Answers self.now thread (Op.Write value) result }
    {
        // Any field shows that it is a variable.
        let _ = &self.value;
        Reply::Ok
    }

    fn would_add(&self, thread: u32, amount: i64) -> Reply
        requires { CanStep self.now thread (Op.Add amount) }
        ensures { Answers self.now thread (Op.Add amount) result }
    {
        Reply::Got(self.value.saturating_add(amount))
    }
}

impl Machine for VarM {
    ghost object = { λ m. m };

    fn kind(&self) -> Kind {
        Kind::Var { value: self.start }
    }

    fn step(&mut self, thread: u32, op: Op) -> Reply {
        match op {
            Op::Read => self.would_read(thread),
            Op::Write(value) => self.write(thread, value),
            Op::Add(amount) => self.add(thread, amount),
            _ => {
                // The fields show the kind, which has no other operation.
                let _ = &self.value;
                unreachable!()
            }
        }
    }

    fn would(&self, thread: u32, op: Op) -> Reply {
        // The fields show the kind, which has no other operation.
        let _ = &self.value;
        match op {
            Op::Read => self.would_read(thread),
            Op::Write(value) => self.would_write(thread, value),
            Op::Add(amount) => self.would_add(thread, amount),
            _ => unreachable!(),
        }
    }

    #[tactic(auto, using(crate::proofs::VariablesLemmas::none_granted))]
    fn pending(&self, thread: u32) -> bool {
        // Any field shows that it is a variable, at which nobody waits.
        let _ = &self.value;
        false
    }

    #[tactic(auto, using(crate::proofs::VariablesLemmas::none_granted))]
    fn poll(&self, thread: u32) -> Option<Reply> {
        // No call is pending.
        let _ = &self.value;
        unreachable!()
    }

    #[tactic(auto, using(crate::proofs::VariablesLemmas::none_granted))]
    fn resume(&mut self, thread: u32) -> Option<Reply> {
        // No call is pending.
        let _ = &self.value;
        unreachable!()
    }

    fn waiters(&self) -> u32 {
        let _ = &self.value;
        0
    }

    fn stopped(&self) -> bool {
        self.stopped
    }

    fn stop(&mut self) {
        self.stopped = true;
    }

    fn holds(&self, thread: u32) -> bool {
        let _ = &self.value;
        false
    }
}
