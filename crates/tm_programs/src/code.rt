ghost use Rattle.std.specs.Prelude.{◌≡◌, ◌<◌, ◌^◌, IfSome, Some, [], IfOk, MatchOption, slice_get};
ghost use Rattle.tm_programs.specs.declared.instructions.Instruction.{Instruction as Line};
ghost use Rattle.tm_programs.specs.Instructions.{IsNested};
ghost use Rattle.tm_programs.specs.Running.{ExitsAre, IsAsking, IsExit, IsLocalAt, Opens};

use crate::{Instruction, MOST_BLOCKS};
use arrayvec::ArrayVec;
use std::alloc::Global;
use std::marker::Model;
use tm_base::NoMemory;

/// The instructions of a program, with the way out of each block. Contracts see the instructions.
#[derive(Drop)]
pub(crate) struct Code {
    instructions: Vec<Instruction>,
    /// Where an instruction opens a block, the place after the block's end.
    exits: Vec<usize>,
}

impl Model for Code {
    ghost use Rattle.std.specs.Prelude.{List};
    ghost use Rattle.tm_programs.specs.declared.instructions.Instruction.{Instruction};
    ghost use Rattle.tm_programs.specs.Running.{ExitsAre};

    ghost Value = { List Instruction };

    ghost view = { λ c. c.instructions.items };

    ghost invariant = { λ c. ExitsAre c.instructions.items c.exits.items };
}

impl Code {
    /// These instructions, which are nested.
    pub(crate) fn make(alloc: Global, instructions: &[Instruction]) -> Result<Code, NoMemory>
        requires { IsNested instructions.now }
        ensures { IfOk result (λ code. code ≡ instructions.now) }
    {
        let exits = exits_of(alloc, instructions)?;
        let mut copy = Vec::new(alloc);
        copy.extend_from_slice(instructions)?;
        Ok(Code {
            instructions: copy,
            exits,
        })
    }

    /// No instructions. Takes no memory.
    pub(crate) fn empty(alloc: Global) -> Code
        ensures { result ≡ [] }
    {
        Code {
            instructions: Vec::new(alloc),
            exits: Vec::new(alloc),
        }
    }

    /// The instruction at the place, where there is one.
    pub(crate) fn at(&self, place: usize) -> Option<Instruction>
        ensures value { result ≡ slice_get self.now place }
        ensures small { IfSome result (λ _. place < 2 ^ 63) }
    {
        self.instructions.get(place).copied()
    }

    /// The instruction, unless it is a call.
    pub(crate) fn local_at(&self, place: usize) -> Option<Instruction>
        ensures value { MatchOption result (IsAsking (slice_get self.now place)) (IsLocalAt self.now place) }
        ensures small { IfSome result (λ _. place < 2 ^ 63) }
    {
        match self.at(place) {
            Some(Instruction::Call { .. }) => None,
            other => other,
        }
    }

    /// The place after the block that the instruction there opens.
    pub(crate) fn exit(&self, place: usize) -> usize
        ensures { (i : Line) → slice_get self.now place ≡ Some i → Opens i → IsExit self.now place result }
    {
        self.exits.get(place).copied().unwrap_or(0)
    }
}

/// For each place where a block opens, the place after its end. From the last instruction to the first, the
/// ways out of the blocks that are open there are known.
fn exits_of(alloc: Global, instructions: &[Instruction]) -> Result<Vec<usize>, NoMemory>
    requires { IsNested instructions.now }
    ensures { IfOk result (λ exits. ExitsAre instructions.now exits.items) }
{
    let mut exits = vec![in alloc; 0; instructions.len()]?;
    let mut open: ArrayVec<usize, MOST_BLOCKS> = ArrayVec::new();
    for place in (0..instructions.len()).rev() {
        match instructions[place] {
            Instruction::End => open.push(place + 1),
            Instruction::Repeat { .. } | Instruction::While { .. } | Instruction::If { .. } => {
                if let Some(exit) = open.pop() {
                    exits[place] = exit;
                }
            }
            _ => {}
        }
    }
    Ok(exits)
}
