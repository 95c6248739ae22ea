ghost use Rattle.std.specs.Prelude.{◌≡◌, true, IfOk, OnOk};
ghost use Rattle.tm_text.specs.SpelledLines.{spelled};
ghost use Rattle.tm_makers.specs.Drafts.{with_parts};
ghost use Rattle.tm_makers.specs.CoasterPrograms.{car_program, coaster_parts, passenger_program};
ghost use Rattle.tm_makers.specs.Coasters.{is_coaster, lines_of_coaster};

use crate::drafts::Draft;
use crate::instructions::{call, call_with, repeat};
use crate::numbered_names::plain;
use std::alloc::Global;
use tm_base::{Kind, NoMemory, Opcode};
use tm_programs::{Instruction, Operand};
use tm_text::Exercise;

/// The semaphores and the variable, as objects.
const QUEUE: u32 = 0;

const BOARDED: u32 = 1;

const UNLOAD: u32 = 2;

const OUT: u32 = 3;

const RIDES: u32 = 4;

/// The exercise of a car with so many seats that makes so many rides, each with other passengers.
pub fn coaster(alloc: Global, seats: u32, rides: u32) -> Result<Exercise, NoMemory>
    requires { is_coaster seats rides ≡ true }
    ensures { IfOk result (λ x. spelled x ≡ lines_of_coaster seats rides) }
{
    let mut draft = Draft::new(alloc);
    declare_objects(&mut draft)?;
    draft.run(alloc, plain(b"Car"), &car(seats, rides))?;
    draft.run_all(alloc, b"P", seats * rides, &ride())?;
    draft.finish(alloc)
}

/// Declares the semaphores, and the count of the rides.
fn declare_objects(draft: &mut Draft) -> Result<(), NoMemory>
    ensures { OnOk result (draft.new ≡ with_parts draft.old coaster_parts) }
{
    draft.declare(plain(b"queue"), Kind::Sem { value: 0 })?;
    draft.declare(plain(b"boarded"), Kind::Sem { value: 0 })?;
    draft.declare(plain(b"unload"), Kind::Sem { value: 0 })?;
    draft.declare(plain(b"out"), Kind::Sem { value: 0 })?;
    draft.declare(plain(b"rides"), Kind::Var { value: 0 })
}

/// The program of the car.
fn car(seats: u32, rides: u32) -> [Instruction; 15]
    ensures { result ≡ car_program seats rides }
{
    [
        repeat(rides),
        repeat(seats),
        call(Opcode::V, QUEUE),
        Instruction::End,
        repeat(seats),
        call(Opcode::P, BOARDED),
        Instruction::End,
        call_with(Opcode::Add, RIDES, Operand::Number(1)),
        repeat(seats),
        call(Opcode::V, UNLOAD),
        Instruction::End,
        repeat(seats),
        call(Opcode::P, OUT),
        Instruction::End,
        Instruction::End,
    ]
}

/// The program of a passenger.
fn ride() -> [Instruction; 4]
    ensures { result ≡ passenger_program }
{
    [
        call(Opcode::P, QUEUE),
        call(Opcode::V, BOARDED),
        call(Opcode::P, UNLOAD),
        call(Opcode::V, OUT),
    ]
}
