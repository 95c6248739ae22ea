ghost use Rattle.std.specs.Prelude.{◌≡◌, ◌<◌, ◌≤◌, true, IfOk, OnOk};
ghost use Rattle.tm_text.specs.SpelledLines.{spelled};
ghost use Rattle.tm_makers.specs.Drafts.{with_parts};
ghost use Rattle.tm_makers.specs.Philosophers.{are_philosophers, lines_of_philosophers};
ghost use Rattle.tm_makers.specs.PhilosopherPrograms.{chairs_parts, forks_of, philosopher_program};

use crate::drafts::Draft;
use crate::instructions::{call, repeat};
use crate::numbered_names::{numbered, plain};
use crate::plans::Way;
use std::alloc::Global;
use tm_base::{Kind, NoMemory, Opcode};
use tm_programs::Instruction;
use tm_text::Exercise;

/// The exercise of so many philosophers, who eat so often. Fork i is object i, and the chairs are the object
/// behind the last fork.
pub fn philosophers(alloc: Global, n: u32, rounds: u32, way: Way) -> Result<Exercise, NoMemory>
    requires { are_philosophers n rounds ≡ true }
    ensures { IfOk result (λ x. spelled x ≡ lines_of_philosophers n rounds way) }
{
    let mut draft = Draft::new(alloc);
    draft.declare_all(alloc, b"f", n, Kind::Mutex)?;
    declare_chairs(&mut draft, n, way)?;
    for i in 0..n {
        let name = numbered(alloc, b"P", i)?;
        let program = program(alloc, n, rounds, way, i)?;
        draft.run(alloc, name, program.as_slice())?;
    }
    draft.finish(alloc)
}

/// Declares the chairs, where there are chairs: one fewer than philosophers.
fn declare_chairs(draft: &mut Draft, n: u32, way: Way) -> Result<(), NoMemory>
    requires { 1 ≤ n }
    ensures { OnOk result (draft.new ≡ with_parts draft.old (chairs_parts n way)) }
{
    match way {
        Way::Chairs => draft.declare(plain(b"chairs"), Kind::Sem { value: n - 1 }),
        _ => Ok(()),
    }
}

/// The forks of philosopher i, in the order in which they are taken.
fn forks(n: u32, way: Way, i: u32) -> (u32, u32)
    requires many { n ≤ 60 }
    requires known { i < n }
    ensures { result ≡ forks_of n way i }
{
    let next = (i + 1) % n;
    match way {
        Way::Asymmetric if i + 1 == n => (next, i),
        _ => (i, next),
    }
}

/// The program of philosopher i.
fn program(
    alloc: Global,
    n: u32,
    rounds: u32,
    way: Way,
    i: u32,
) -> Result<Vec<Instruction>, NoMemory>
    requires many { n ≤ 60 }
    requires known { i < n }
    ensures { IfOk result (λ program. program.items ≡ philosopher_program n rounds way i) }
{
    let (first, second) = forks(n, way, i);
    match way {
        Way::Chairs => Ok(Vec::from_slice(
            alloc,
            &[
                repeat(rounds),
                call(Opcode::P, n),
                call(Opcode::Lock, first),
                call(Opcode::Lock, second),
                call(Opcode::Unlock, second),
                call(Opcode::Unlock, first),
                call(Opcode::V, n),
                Instruction::End,
            ],
        )?),
        _ => Ok(Vec::from_slice(
            alloc,
            &[
                repeat(rounds),
                call(Opcode::Lock, first),
                call(Opcode::Lock, second),
                call(Opcode::Unlock, second),
                call(Opcode::Unlock, first),
                Instruction::End,
            ],
        )?),
    }
}
