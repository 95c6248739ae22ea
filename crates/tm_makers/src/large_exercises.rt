ghost use Rattle.std.specs.Prelude.{◌≡◌, ◌+◌, ◌<◌, IfOk, OnOk};
ghost use Rattle.tm_text.specs.SpelledLines.{spelled};
ghost use Rattle.tm_makers.specs.Drafts.{with_parts};
ghost use Rattle.tm_makers.specs.LargeExercises.{lines_of_large, picked};
ghost use Rattle.tm_makers.specs.LargePrograms.{large_program, sem_parts};

use crate::drafts::Draft;
use crate::instructions::{call, call_with, repeat};
use crate::numbered_names::numbered;
use std::alloc::Global;
use tm_base::{Kind, NoMemory, Opcode, next_draw, place_of};
use tm_programs::{Instruction, Operand};
use tm_text::Exercise;

/// The first semaphore and the first variable, as objects. The mutexes come first.
const SEMAPHORES: u32 = 8;

const VARIABLES: u32 = 16;

/// The large exercise of the number: 64 threads that work on 8 mutexes, 8 semaphores and 8 variables, each on
/// those that its three draws pick. `NoMemory` only where memory runs out.
pub fn large(alloc: Global, number: u64) -> Result<Exercise, NoMemory>
    ensures made { IfOk result (λ x. spelled x ≡ lines_of_large number) }
{
    let mut draft = Draft::new(alloc);
    draft.declare_all(alloc, b"m", 8, Kind::Mutex)?;
    declare_semaphores(alloc, &mut draft)?;
    draft.declare_all(alloc, b"x", 8, Kind::Var { value: 0 })?;
    let mut draw = number;
    for i in 1..65 {
        let first = next_draw(draw);
        let second = next_draw(first);
        let third = next_draw(second);
        let program = work(picked(first), picked(second), picked(third));
        draft.run(alloc, numbered(alloc, b"T", i)?, &program)?;
        draw = third;
    }
    draft.finish(alloc)
}

/// Which of eight objects the drawn number picks, from 0.
fn picked(draw: u64) -> u32
    ensures value { result ≡ picked draw }
    ensures few { result < 8 }
{
    place_of(draw, 8) as u32
}

/// Declares the semaphores, which begin at 1, 2 or 3.
fn declare_semaphores(alloc: Global, draft: &mut Draft) -> Result<(), NoMemory>
    ensures added { OnOk result (draft.new ≡ with_parts draft.old (sem_parts 8)) }
    ensures threads { OnOk result (draft.new.programs ≡ draft.old.programs) }
{
    for i in 0..8 {
        draft.declare(numbered(alloc, b"s", i)?, Kind::Sem { value: 1 + i % 3 })?;
    }
    Ok(())
}

/// The program that works on these: first a mutex with its variable, then a semaphore and a variable.
fn work(first: u32, second: u32, third: u32) -> [Instruction; 8]
    requires a { first < 8 }
    requires b { second < 8 }
    requires c { third < 8 }
    ensures { result ≡ large_program first second third }
{
    [
        repeat(50),
        call(Opcode::Lock, first),
        call_with(Opcode::Add, VARIABLES + first, Operand::Number(1)),
        call(Opcode::Unlock, first),
        call(Opcode::P, SEMAPHORES + second),
        call_with(Opcode::Read, VARIABLES + third, Operand::Register(0)),
        call(Opcode::V, SEMAPHORES + second),
        Instruction::End,
    ]
}
