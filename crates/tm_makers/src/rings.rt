ghost use Rattle.std.specs.Prelude.{◌≡◌, ◌<◌, true, IfOk};
ghost use Rattle.tm_text.specs.SpelledLines.{spelled};
ghost use Rattle.tm_makers.specs.Rings.{is_ring, lines_of_ring};
ghost use Rattle.tm_makers.specs.RingPrograms.{ring_program};

use crate::drafts::Draft;
use crate::instructions::{call_with, repeat};
use crate::numbered_names::numbered;
use std::alloc::Global;
use tm_base::{Kind, NoMemory, Opcode};
use tm_programs::{Instruction, Operand};
use tm_text::Exercise;

/// The exercise of a token that so many threads hand round so often. Channel i is object i.
pub fn ring(alloc: Global, n: u32, rounds: u32) -> Result<Exercise, NoMemory>
    requires { is_ring n rounds ≡ true }
    ensures { IfOk result (λ x. spelled x ≡ lines_of_ring n rounds) }
{
    let mut draft = Draft::new(alloc);
    draft.declare_all(alloc, b"c", n, Kind::Sync)?;
    for i in 0..n {
        draft.run(alloc, numbered(alloc, b"T", i)?, &pass(n, rounds, i))?;
    }
    draft.finish(alloc)
}

/// The program of thread i.
fn pass(n: u32, rounds: u32, i: u32) -> [Instruction; 4]
    requires { i < n }
    ensures { result ≡ ring_program n rounds i }
{
    let taken = Operand::Register(0);
    if i == 0 {
        [
            repeat(rounds),
            call_with(Opcode::Send, 0, Operand::Number(1)),
            call_with(Opcode::Recv, n - 1, taken),
            Instruction::End,
        ]
    } else {
        [
            repeat(rounds),
            call_with(Opcode::Recv, i - 1, taken),
            call_with(Opcode::Send, i, taken),
            Instruction::End,
        ]
    }
}
