ghost use Rattle.std.specs.Prelude.{◌≡◌, true, IfOk};
ghost use Rattle.tm_text.specs.SpelledLines.{spelled};
ghost use Rattle.tm_makers.specs.ReaderPrograms.{reader_program, writer_program};
ghost use Rattle.tm_makers.specs.ReadersAndWriters.{are_readers_and_writers, lines_of_readers_and_writers};

use crate::drafts::Draft;
use crate::instructions::{call, call_with, repeat};
use crate::numbered_names::plain;
use std::alloc::Global;
use tm_base::{Kind, NoMemory, Opcode};
use tm_programs::{Instruction, Operand};
use tm_text::Exercise;

/// The lock and the variable, as objects.
const LOCK: u32 = 0;

const VARIABLE: u32 = 1;

/// The exercise of so many readers and writers of one variable, who go in so often.
pub fn readers_and_writers(
    alloc: Global,
    readers: u32,
    writers: u32,
    rounds: u32,
) -> Result<Exercise, NoMemory>
    requires { are_readers_and_writers readers writers rounds ≡ true }
    ensures { IfOk result (λ x. spelled x ≡ lines_of_readers_and_writers readers writers rounds) }
{
    let mut draft = Draft::new(alloc);
    draft.declare(plain(b"l"), Kind::Rw)?;
    draft.declare(plain(b"x"), Kind::Var { value: 0 })?;
    draft.run_all(alloc, b"R", readers, &read(rounds))?;
    draft.run_all(alloc, b"W", writers, &write(rounds))?;
    draft.finish(alloc)
}

/// The program of a reader.
fn read(rounds: u32) -> [Instruction; 5]
    ensures { result ≡ reader_program rounds }
{
    [
        repeat(rounds),
        call(Opcode::RLock, LOCK),
        call_with(Opcode::Read, VARIABLE, Operand::Register(0)),
        call(Opcode::RUnlock, LOCK),
        Instruction::End,
    ]
}

/// The program of a writer.
fn write(rounds: u32) -> [Instruction; 5]
    ensures { result ≡ writer_program rounds }
{
    [
        repeat(rounds),
        call(Opcode::WLock, LOCK),
        call_with(Opcode::Add, VARIABLE, Operand::Number(1)),
        call(Opcode::WUnlock, LOCK),
        Instruction::End,
    ]
}
