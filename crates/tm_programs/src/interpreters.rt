ghost use Rattle.std.specs.Prelude.{◌≡◌, IfOk};
ghost use Rattle.tm_programs.specs.Instructions.{IsNested, program_of};
ghost use Rattle.tm_programs.specs.Programs.{Over, answered, asked_of, whole};

use crate::Instruction;
use crate::code::Code;
use crate::cursors::Cursor;
use std::alloc::Global;
use std::marker::Model;
use tm_base::{Ask, NoMemory, Reply};

/// A program as it goes on. Contracts see what is left of it, with the registers and the last final reply.
#[derive(Drop)]
pub struct Interpreter {
    code: Code,
    cursor: Cursor,
    last: Option<Reply>,
}

impl Model for Interpreter {
    ghost use Rattle.tm_programs.specs.Programs.{Rest};
    ghost use Rattle.tm_programs.specs.Codes.{rest_code};

    ghost Value = { Rest };

    ghost coded = { rest_code };

    ghost use Rattle.tm_programs.specs.Instructions.{IsNested};
    ghost use Rattle.tm_programs.specs.Running.{IsResting, Stands, rest_at};

    ghost view = { λ i. rest_at i.code i.cursor i.last };

    ghost invariant = { λ i. IsNested i.code × Stands i.code i.cursor × IsResting i.code i.cursor i.last };
}

impl Interpreter {
    /// The program that these instructions spell, of which nothing was answered yet. Nothing later takes
    /// memory.
    pub fn make(alloc: Global, instructions: &[Instruction]) -> Result<Interpreter, NoMemory>
        requires nested { IsNested instructions.now }
        ensures { IfOk result (λ i. i ≡ whole (program_of instructions.now)) }
    {
        let code = Code::make(alloc, instructions)?;
        Ok(Interpreter {
            code,
            cursor: Cursor::new(),
            last: None,
        })
    }

    /// A program with no instructions. Takes no memory.
    pub fn empty(alloc: Global) -> Interpreter
        ensures { result ≡ whole Over }
    {
        Interpreter {
            code: Code::empty(alloc),
            cursor: Cursor::new(),
            last: None,
        }
    }

    /// What the program asks next: a call, or that it is over. `None` after the reply `Stopped`.
    pub fn asked(&self) -> Option<Ask>
        ensures { result ≡ asked_of self.now }
    {
        if self.last == Some(Reply::Stopped) {
            return None;
        }
        Some(self.cursor.ask(&self.code, self.last))
    }

    /// The last final reply, where there is one. That of `begin` is the first.
    pub fn last(&self) -> Option<Reply>
        ensures { result ≡ self.now.last }
    {
        self.last
    }

    /// Takes the final reply of `begin` or of the call that was asked last, and goes on to the next call.
    pub fn answer(&mut self, reply: Reply)
        ensures { self.new ≡ answered self.old reply }
    {
        self.cursor.accept(&self.code, self.last, reply);
        self.cursor.settle(&self.code);
        self.last = Some(reply);
    }
}
