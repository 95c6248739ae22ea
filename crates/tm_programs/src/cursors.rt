ghost use Rattle.std.specs.Prelude.{◌≡◌, ◌^◌, [], ◌<◌, ◌≤◌, length, slice_get};
ghost use Rattle.tm_programs.specs.Instructions.{IsNested};
ghost use Rattle.tm_programs.specs.Programs.{first_registers};
ghost use Rattle.tm_programs.specs.Running.{IsAsking, IsLocalAt, IsResting, Leaves, Stands, Steps};
ghost use Rattle.tm_programs.specs.Running.{accepted_at, ask_at, chosen, entered, remainder_at, repeated};
ghost use Rattle.tm_programs.specs.Running.{settled_at};

use crate::code::Code;
use crate::registers::Registers;
use crate::{Instruction, MOST_BLOCKS};
use arrayvec::ArrayVec;
use tm_base::{Ask, Reply};

/// How it goes on at the end of an open block.
#[derive(Clone, Copy, Drop)]
pub(crate) enum OpenBlock {
    /// At this place: after an `if`, or at the `while` again.
    Once { next: usize },
    /// So many more turns of the body, and then at `next`.
    Turns { left: u32, body: usize, next: usize },
}

impl Default for OpenBlock {
    fn default() -> OpenBlock {
        OpenBlock::Once { next: 0 }
    }
}

/// Where a program stands: the place of its next instruction, the registers, and the open blocks, from the
/// outermost on.
#[derive(Drop)]
pub(crate) struct Cursor {
    pub(crate) place: usize,
    pub(crate) registers: Registers,
    pub(crate) blocks: ArrayVec<OpenBlock, MOST_BLOCKS>,
}

impl Cursor {
    /// At the first instruction, with no open block.
    pub(crate) fn new() -> Cursor
        ensures place { result.place ≡ 0 }
        ensures registers { result.registers ≡ first_registers }
        ensures blocks { result.blocks.items ≡ [] }
    {
        Cursor {
            place: 0,
            registers: Registers::new(),
            blocks: ArrayVec::new(),
        }
    }

    /// What the program asks where it stands. Before the first reply that is what its first instruction asks.
    pub(crate) fn ask(&self, code: &Code, last: Option<Reply>) -> Ask
        requires stands { Stands code.now self.now }
        requires resting { IsResting code.now self.now last }
        ensures { result ≡ ask_at code.now self.now }
    {
        let Some(instruction) = code.at(self.place) else {
            return Ask::Over;
        };
        match instruction {
            Instruction::Call {
                object,
                opcode,
                operand,
            } => Ask::Call {
                object,
                op: self.registers.op(opcode, operand),
            },
            _ => Ask::Over,
        }
    }

    /// Takes a final reply. That of a call, which comes after another, goes to the call's register.
    pub(crate) fn accept(&mut self, code: &Code, last: Option<Reply>, reply: Reply)
        requires stands { Stands code.now self.old }
        requires resting { IsResting code.now self.old last }
        ensures left { settled_at code.now self.new ≡ accepted_at code.now self.old last reply }
        ensures stands { Stands code.now self.new }
    {
        if last.is_none() {
            return;
        }
        let Some(instruction) = code.at(self.place) else {
            return;
        };
        if let Instruction::Call {
            opcode,
            operand,
            ..
        } = instruction
        {
            self.registers.take_reply(opcode, operand, reply);
            self.place += 1;
        }
    }

    /// Does the local instructions before the next call.
    pub(crate) fn settle(&mut self, code: &Code)
        requires nested { IsNested code.now }
        requires stands { Stands code.now self.old }
        ensures left { remainder_at code.now self.new ≡ settled_at code.now self.old }
        ensures stands { Stands code.now self.new }
        ensures asking { IsAsking (slice_get code.now self.new.place) }
    {
        while let Some(instruction) = code.local_at(self.place) {
            self.step(code, instruction);
        }
    }

    /// Does a local instruction.
    fn step(&mut self, code: &Code, instruction: Instruction)
        requires nested { IsNested code.now }
        requires stands { Stands code.now self.old }
        requires small { self.old.place < 2 ^ 63 }
        requires local { IsLocalAt code.now self.old.place instruction }
        ensures { Steps code.now self.old self.new }
    {
        let (place, next) = (self.place, self.place + 1);
        match instruction {
            Instruction::Call { .. } => {}
            Instruction::Set { register, value } => {
                self.registers.set(register, value);
                self.place = next;
            }
            Instruction::Inc { register, value } => {
                self.registers.add(register, value);
                self.place = next;
            }
            Instruction::Repeat { turns } => self.repeat(turns, next, code.exit(place)),
            Instruction::While {
                register,
                comparison,
                value,
            } => {
                let again = self.registers.meets(register, comparison, value);
                self.choose(again, next, place, code.exit(place));
            }
            Instruction::If {
                register,
                comparison,
                value,
            } => {
                let (taken, exit) = (
                    self.registers.meets(register, comparison, value),
                    code.exit(place),
                );
                self.choose(taken, next, exit, exit);
            }
            Instruction::End => self.leave(),
        }
    }

    /// Begins the first of so many turns of the body, or goes on at `next` where there is none.
    fn repeat(&mut self, turns: u32, body: usize, next: usize)
        requires { length self.old.blocks.items < MOST_BLOCKS }
        ensures { self.new ≡ repeated turns body next self.old }
    {
        match turns.checked_sub(1) {
            Some(left) => self.enter(body, OpenBlock::Turns { left, body, next }),
            None => self.place = next,
        }
    }

    /// Goes into a block where its comparison holds, and else past it. After the block it goes on at `next`.
    fn choose(&mut self, holds: bool, body: usize, next: usize, exit: usize)
        requires { length self.old.blocks.items < MOST_BLOCKS }
        ensures { self.new ≡ chosen holds body next exit self.old }
    {
        if holds {
            self.enter(body, OpenBlock::Once { next });
        } else {
            self.place = exit;
        }
    }

    /// Goes into a block.
    fn enter(&mut self, body: usize, block: OpenBlock)
        requires { length self.old.blocks.items < MOST_BLOCKS }
        ensures { self.new ≡ entered body block self.old }
    {
        self.blocks.push(block);
        self.place = body;
    }

    /// Goes on at the end of the innermost block.
    fn leave(&mut self)
        requires { length self.old.blocks.items ≤ MOST_BLOCKS }
        ensures { Leaves self.old self.new }
    {
        match self.blocks.pop() {
            Some(OpenBlock::Once { next }) => self.place = next,
            Some(OpenBlock::Turns { left, body, next }) => self.repeat(left, body, next),
            None => {}
        }
    }
}
