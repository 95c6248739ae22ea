ghost use Rattle.std.specs.Prelude.{◌≡◌, slice_set};
ghost use Rattle.tm_programs.specs.Programs.{added, first_registers, holds};
ghost use Rattle.tm_programs.specs.Programs.{op_of, register_of, registers_after};

use crate::{Comparison, Operand};
use std::marker::Model;
use tm_base::{Op, Opcode, Reply};

/// The eight registers. Contracts see their values. A register that isn't there reads as 0, and a write to it
/// changes nothing.
#[derive(Drop)]
pub(crate) struct Registers {
    values: [i64; 8],
}

impl Model for Registers {
    ghost use Rattle.std.specs.Prelude.{List, ℤ};

    ghost Value = { List ℤ };

    ghost view = { λ r. r.values };
}

impl Registers {
    /// All registers at 0.
    pub(crate) fn new() -> Registers
        ensures { result ≡ first_registers }
    {
        Registers { values: [0; 8] }
    }

    /// What the register holds.
    pub(crate) fn get(&self, register: u8) -> i64
        ensures { result ≡ register_of self.now register }
    {
        self.values.get(register as usize).copied().unwrap_or(0)
    }

    /// Writes the register.
    pub(crate) fn set(&mut self, register: u8, value: i64)
        ensures { self.new ≡ slice_set self.old register value }
    {
        let place = register as usize;
        if place < self.values.len() {
            self.values[place] = value;
        }
    }

    /// Adds to a register, which stops at the ends of 64 bits.
    pub(crate) fn add(&mut self, register: u8, value: i64)
        ensures { self.new ≡ added register value self.old }
    {
        self.set(register, self.get(register).saturating_add(value));
    }

    /// The comparison holds of a register and the number.
    pub(crate) fn meets(&self, register: u8, comparison: Comparison, value: i64) -> bool
        ensures { result ≡ holds comparison (register_of self.now register) value }
    {
        comparison.holds(self.get(register), value)
    }

    /// The operation of a call, with its operand's value now.
    pub(crate) fn op(&self, opcode: Opcode, operand: Operand) -> Op
        ensures { result ≡ op_of self.now opcode operand }
    {
        match operand {
            Operand::Nothing => opcode.with(0, 0),
            Operand::Condition(condition) => opcode.with(condition, 0),
            Operand::Number(value) => opcode.with(0, value),
            Operand::Register(register) => opcode.with(0, self.get(register)),
        }
    }

    /// The call's register takes what the reply says.
    pub(crate) fn take_reply(&mut self, opcode: Opcode, operand: Operand, reply: Reply)
        ensures { self.new ≡ registers_after opcode operand reply self.old }
    {
        let Operand::Register(register) = operand else {
            return;
        };
        let value = match (opcode, reply) {
            (Opcode::Recv | Opcode::Read, Reply::Got(value)) => value,
            (Opcode::TryLock | Opcode::TryP, Reply::Ok) => 1,
            (Opcode::TryLock | Opcode::TryP, _) => 0,
            _ => return,
        };
        self.set(register, value);
    }
}
