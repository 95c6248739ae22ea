ghost use Rattle.std.specs.Prelude.{◌≡◌, ◌≤◌, false, length, IfErr, IfOk, OnOk, map};
ghost use Rattle.tm_lines.specs.Checks.{before, fault_left, is_empty};
ghost use Rattle.tm_lines.specs.TextFaults.{first_fault};
ghost use Rattle.tm_text.specs.Readings.{GoesOn, IsWhole, Refuses};
ghost use Rattle.tm_text.specs.Texts.{IsExercise};

use crate::exercises::Exercise;
use crate::instructions::instruction;
use crate::objects::Objects;
use crate::programs::Programs;
use crate::text_faults::TextFault;
use std::alloc::Global;
use tm_lines::{Checker, Fault, Line, MOST_BYTES};
use tm_programs::Instruction;

/// The exercise of the text.
pub fn read(alloc: Global, bytes: &[u8]) -> Result<Exercise, TextFault>
    ensures read { IfOk result (λ x. IsExercise bytes.now x) }
    ensures refused { IfErr result (λ why. Refuses why (first_fault bytes.now)) }
{
    if MOST_BYTES < bytes.len() {
        return Err(TextFault::Line {
            line: 0,
            kind: Fault::Size,
        });
    }
    let (objects, programs) = parts(alloc, bytes)?;
    let declarations = objects.into_declarations();
    Ok(Exercise::new(alloc, declarations, programs)?)
}

/// The objects of the text, and the programs of its threads in order.
fn parts(alloc: Global, text: &[u8]) -> Result<(Objects, Vec<Vec<Instruction>>), TextFault>
    requires { length text.now ≤ MOST_BYTES }
    ensures read { IfOk result (λ parts. IsWhole text.now parts.0 (map (λ p. p.items) parts.1.items)) }
    ensures refused { IfErr result (λ why. Refuses why (fault_left (before text.now))) }
{
    let mut checker = Checker::of_text(alloc, text)?;
    let mut objects = Objects::new(alloc);
    let mut programs = Programs::new(alloc);
    while !checker.is_done() {
        step(alloc, &mut checker, &mut objects, &mut programs)?;
    }
    match checker.at_end() {
        None => Ok((objects, programs.into_ended())),
        Some(faulty) => Err(TextFault::of_line(faulty)),
    }
}

/// Looks at the next line, and adds what it says to the objects and the programs.
fn step(
    alloc: Global,
    checker: &mut Checker,
    objects: &mut Objects,
    programs: &mut Programs,
) -> Result<(), TextFault>
    requires { is_empty checker.old.rest ≡ false }
    ensures goes_on { OnOk result
        (GoesOn checker.old checker.new objects.old objects.new programs.old programs.new) }
    ensures refused { IfErr result (λ why. Refuses why (fault_left checker.old)) }
{
    match checker.next_line() {
        Line::Ignored => Ok(()),
        Line::Said(said) => {
            objects.take(said.first, &said.words)?;
            programs.take(alloc, said.first, instruction(&said))?;
            Ok(())
        }
        Line::Faulty(faulty) => Err(TextFault::of_line(faulty)),
    }
}
