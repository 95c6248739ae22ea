ghost use Rattle.std.specs.Prelude.{◌≡◌, true, IfOk, OnOk};
ghost use Rattle.tm_text.specs.SpelledLines.{spelled};
ghost use Rattle.tm_makers.specs.Drafts.{with_parts};
ghost use Rattle.tm_makers.specs.Buffers.{are_buffer_sizes, lines_of_buffer};
ghost use Rattle.tm_makers.specs.BufferPrograms.{buffer_parts, buffer_program};
ghost use Rattle.tm_makers.specs.declared.plans.Guard.TheVariants.{Hoare, Mesa, Semaphores};

use crate::drafts::Draft;
use crate::instructions::{call, call_with, repeat};
use crate::numbered_names::plain;
use crate::plans::Guard;
use std::alloc::Global;
use tm_base::{Kind, NoMemory, Opcode};
use tm_programs::{Comparison, Instruction, Operand};
use tm_text::Exercise;

/// The mutex and the count as objects, where semaphores guard the buffer. The semaphores are objects 0 and 1.
const MUTEX: u32 = 2;

const COUNT: u32 = 3;

/// The monitor and the count as objects, where a monitor guards it.
const MONITOR: u32 = 0;

const MONITOR_COUNT: u32 = 1;

/// A producer's or a consumer's work on the buffer.
#[derive(Clone, Copy)]
struct Work {
    /// How often it is done.
    turns: u32,
    /// The count of items at which it can't be done.
    limit: u32,
    /// How the count changes.
    change: i64,
    /// The semaphore or the condition that it waits on: 0 for a free place, 1 for an item.
    awaits: u8,
    /// The one that it signals.
    signals: u8,
}

/// The exercise of a buffer with these sizes. The consumers share all items out evenly.
pub fn buffer(
    alloc: Global,
    producers: u32,
    consumers: u32,
    places: u32,
    items: u32,
    guard: Guard,
) -> Result<Exercise, NoMemory>
    requires { are_buffer_sizes producers consumers places items ≡ true }
    ensures { IfOk result (λ x. spelled x ≡ lines_of_buffer producers consumers places items guard) }
{
    let put = Work {
        turns: items,
        limit: places,
        change: 1,
        awaits: 0,
        signals: 1,
    };
    let take = Work {
        turns: producers * items / consumers,
        limit: 0,
        change: -1,
        awaits: 1,
        signals: 0,
    };
    let mut draft = Draft::new(alloc);
    declare_objects(&mut draft, places, guard)?;
    draft.run_all(
        alloc,
        b"P",
        producers,
        program(alloc, guard, put)?.as_slice(),
    )?;
    draft.run_all(
        alloc,
        b"C",
        consumers,
        program(alloc, guard, take)?.as_slice(),
    )?;
    draft.finish(alloc)
}

/// Declares the objects that guard the buffer, and the count of its items.
fn declare_objects(draft: &mut Draft, places: u32, guard: Guard) -> Result<(), NoMemory>
    ensures { OnOk result (draft.new ≡ with_parts draft.old (buffer_parts places guard)) }
{
    let count = plain(b"count");
    let no_items = Kind::Var { value: 0 };
    match guard {
        Guard::Semaphores => {
            draft.declare(plain(b"empty"), Kind::Sem { value: places })?;
            draft.declare(plain(b"full"), Kind::Sem { value: 0 })?;
            draft.declare(plain(b"m"), Kind::Mutex)?;
            draft.declare(count, no_items)
        }
        Guard::Hoare => {
            draft.declare(plain(b"b"), Kind::Hoare { conditions: 2 })?;
            draft.declare(count, no_items)
        }
        Guard::Mesa => {
            draft.declare(plain(b"b"), Kind::Mesa { conditions: 2 })?;
            draft.declare(count, no_items)
        }
    }
}

/// The program of a thread that does the work.
fn program(alloc: Global, guard: Guard, work: Work) -> Result<Vec<Instruction>, NoMemory>
    ensures { IfOk result (λ program. program.items ≡ buffer_program guard work) }
{
    match guard {
        Guard::Semaphores => Ok(Vec::from_slice(alloc, &under_semaphores(work))?),
        Guard::Hoare => Ok(Vec::from_slice(alloc, &under_hoare(work))?),
        Guard::Mesa => Ok(Vec::from_slice(alloc, &under_mesa(work))?),
    }
}

fn under_semaphores(work: Work) -> [Instruction; 7]
    ensures { result ≡ buffer_program Semaphores work }
{
    [
        repeat(work.turns),
        call(Opcode::P, u32::from(work.awaits)),
        call(Opcode::Lock, MUTEX),
        call_with(Opcode::Add, COUNT, Operand::Number(work.change)),
        call(Opcode::Unlock, MUTEX),
        call(Opcode::V, u32::from(work.signals)),
        Instruction::End,
    ]
}

/// Under a Hoare monitor what was signaled still holds when a waiter goes on.
fn under_hoare(work: Work) -> [Instruction; 10]
    ensures { result ≡ buffer_program Hoare work }
{
    [
        repeat(work.turns),
        call(Opcode::Enter, MONITOR),
        call_with(Opcode::Read, MONITOR_COUNT, Operand::Register(0)),
        Instruction::If {
            register: 0,
            comparison: Comparison::Equal,
            value: i64::from(work.limit),
        },
        call_with(Opcode::Wait, MONITOR, Operand::Condition(work.awaits)),
        Instruction::End,
        call_with(Opcode::Add, MONITOR_COUNT, Operand::Number(work.change)),
        call_with(Opcode::Signal, MONITOR, Operand::Condition(work.signals)),
        call(Opcode::Leave, MONITOR),
        Instruction::End,
    ]
}

/// Under a Mesa monitor a waiter has to look again.
fn under_mesa(work: Work) -> [Instruction; 11]
    ensures { result ≡ buffer_program Mesa work }
{
    [
        repeat(work.turns),
        call(Opcode::Enter, MONITOR),
        call_with(Opcode::Read, MONITOR_COUNT, Operand::Register(0)),
        Instruction::While {
            register: 0,
            comparison: Comparison::Equal,
            value: i64::from(work.limit),
        },
        call_with(Opcode::Wait, MONITOR, Operand::Condition(work.awaits)),
        call_with(Opcode::Read, MONITOR_COUNT, Operand::Register(0)),
        Instruction::End,
        call_with(Opcode::Add, MONITOR_COUNT, Operand::Number(work.change)),
        call_with(Opcode::Signal, MONITOR, Operand::Condition(work.signals)),
        call(Opcode::Leave, MONITOR),
        Instruction::End,
    ]
}
