ghost use Rattle.std.specs.Prelude.{◌≡◌, ◌≤◌, ◌<◌, ◌++◌, ◌∷◌, [], true, length, pos, slice_get, IfOk, OnOk, IfSome};
ghost use Rattle.std.specs.List.{list_all};
ghost use Rattle.tm_lines.specs.declared.limits.TheConstants.{MOST_BYTES};
ghost use Rattle.tm_lines.specs.declared.first_words.FirstWord.TheVariants.{Calls, Declares};
ghost use Rattle.tm_text.specs.declared.values.Value.TheVariants.{Comparison as ComparisonValue, Name as NameValue, Number, Register};
ghost use Rattle.tm_text.specs.CanonicalTexts.{are_long, canonical_text, is_long, line_text, lines_text};
ghost use Rattle.tm_text.specs.Exercises.{instructions_of, is_instruction_on};
ghost use Rattle.tm_text.specs.SpelledLines.{line_of_instruction, line_of_kind, lines_behind, lines_of_object, lines_of_program, values_of_operand};
ghost use Rattle.tm_text.specs.Texts.{IsExercise};

use crate::exercises::Exercise;
use crate::values::{Value, integer, natural, push_values};
use std::alloc::Global;
use tm_base::{Bytes, Kind, Name, NoMemory, Opcode};
use tm_lines::{Declarator, FirstWord};
use tm_programs::{Comparison, Instruction, Operand};

/// The canonical text of the exercise: the lines that spell it, with one space between words, numbers in
/// their shortest form, and LF after each line. It reads as the same exercise, where it is no longer than
/// `MOST_BYTES`. `NoMemory` only where memory runs out.
pub fn print(alloc: Global, exercise: &Exercise) -> Result<Bytes, NoMemory>
    ensures text { IfOk result (λ bytes. bytes ≡ canonical_text exercise.now) }
    ensures reads_back { IfOk result (λ bytes. length bytes ≤ MOST_BYTES → IsExercise bytes exercise.now) }
{
    let mut out = Vec::new(alloc);
    for object in 0..exercise.objects() {
        push_object(alloc, &mut out, exercise, object)?;
    }
    Ok(Bytes::from_vec(out))
}

/// Appends the lines of the object: the one that declares it, and behind that of a thread its program's.
fn push_object(
    alloc: Global,
    out: &mut Vec<u8>,
    exercise: &Exercise,
    object: u32,
) -> Result<(), NoMemory>
    requires { object < length exercise.now.objects }
    ensures text { OnOk result (IfSome (slice_get exercise.now.objects object)
        (λ d. out.new.items ≡ out.old.items ++ lines_text (lines_of_object exercise.now d))) }
    ensures long { OnOk result (IfSome (slice_get exercise.now.objects object)
        (λ d. are_long (lines_of_object exercise.now d) ≡ true)) }
{
    let kind = exercise.kind(object);
    push_declaration(alloc, out, exercise.name(object), kind)?;
    match kind {
        Kind::Thread { own, .. } => {
            // What holds of every exercise is known from this call.
            let _threads = exercise.threads();
            push_program(alloc, out, exercise, own)
        }
        _ => Ok(()),
    }
}

/// Appends the line that declares an object with this name and this kind.
fn push_declaration(
    alloc: Global,
    out: &mut Vec<u8>,
    name: Name,
    kind: Kind,
) -> Result<(), NoMemory>
    ensures text { OnOk result (out.new.items ≡ out.old.items ++ line_text (line_of_kind name kind)) }
    ensures long { list_all is_long (line_of_kind name kind).values ≡ true }
{
    let name = Value::Name(name);
    match kind {
        Kind::Mutex => declare(alloc, out, Declarator::Mutex, &[name]),
        Kind::Rw => declare(alloc, out, Declarator::Rwlock, &[name]),
        Kind::Sync => declare(alloc, out, Declarator::Sync, &[name]),
        Kind::Sem { value } => declare(alloc, out, Declarator::Sem, &[name, natural(value)]),
        Kind::Hoare { conditions } => {
            let values = [name, Value::Hoare, natural(u32::from(conditions))];
            declare(alloc, out, Declarator::Monitor, &values)
        }
        Kind::Mesa { conditions } => {
            let values = [name, Value::Mesa, natural(u32::from(conditions))];
            declare(alloc, out, Declarator::Monitor, &values)
        }
        Kind::Barrier { parties } => {
            declare(alloc, out, Declarator::Barrier, &[name, natural(parties)])
        }
        Kind::Async { capacity } => {
            declare(alloc, out, Declarator::Async, &[name, natural(capacity)])
        }
        Kind::Var { value } => declare(alloc, out, Declarator::Var, &[name, integer(value)]),
        Kind::Thread { held: true, .. } => {
            declare(alloc, out, Declarator::Thread, &[name, Value::Held])
        }
        Kind::Thread { held: false, .. } => declare(alloc, out, Declarator::Thread, &[name]),
    }
}

/// Appends the line that declares by this word, with these values.
fn declare(
    alloc: Global,
    out: &mut Vec<u8>,
    declarator: Declarator,
    values: &[Value],
) -> Result<(), NoMemory>
    ensures { OnOk result (out.new.items ≡ out.old.items
        ++ line_text (record { first = Declares declarator; values = values.now })) }
{
    push_line(alloc, out, FirstWord::Declares(declarator), values)
}

/// Appends the lines of the thread's program, up to its `end`.
fn push_program(
    alloc: Global,
    out: &mut Vec<u8>,
    exercise: &Exercise,
    thread: u32,
) -> Result<(), NoMemory>
    requires program { 1 ≤ thread }
    requires known { thread ≤ length exercise.now.programs }
    ensures text { OnOk result (out.new.items ≡ out.old.items
        ++ lines_text (lines_of_program exercise.now.objects (instructions_of exercise.now thread))) }
    ensures long { OnOk result
        (are_long (lines_of_program exercise.now.objects (instructions_of exercise.now thread)) ≡ true) }
{
    // What holds of every exercise is known from this call.
    let _threads = exercise.threads();
    let instructions = exercise.instructions(thread);
    for instruction in instructions {
        push_instruction(alloc, out, exercise, *instruction)?;
    }
    push_line(alloc, out, FirstWord::End, &[])
}

/// Appends the line of the instruction.
fn push_instruction(
    alloc: Global,
    out: &mut Vec<u8>,
    exercise: &Exercise,
    instruction: Instruction,
) -> Result<(), NoMemory>
    requires { is_instruction_on exercise.now.objects instruction ≡ true }
    ensures text { OnOk result (out.new.items ≡ out.old.items
        ++ line_text (line_of_instruction exercise.now.objects instruction)) }
    ensures long { list_all is_long (line_of_instruction exercise.now.objects instruction).values ≡ true }
{
    match instruction {
        Instruction::Call {
            object,
            opcode,
            operand,
        } => push_call(alloc, out, exercise.name(object), opcode, operand),
        Instruction::Set { register, value } => {
            push_line(alloc, out, FirstWord::Set, &change(register, value))
        }
        Instruction::Inc { register, value } => {
            push_line(alloc, out, FirstWord::Inc, &change(register, value))
        }
        Instruction::Repeat { turns } => {
            push_line(alloc, out, FirstWord::Repeat, &[natural(turns)])
        }
        Instruction::While {
            register,
            comparison,
            value,
        } => push_line(
            alloc,
            out,
            FirstWord::While,
            &test(register, comparison, value),
        ),
        Instruction::If {
            register,
            comparison,
            value,
        } => push_line(
            alloc,
            out,
            FirstWord::If,
            &test(register, comparison, value),
        ),
        Instruction::End => push_line(alloc, out, FirstWord::End, &[]),
    }
}

/// The values of a line that changes the register by the number.
fn change(register: u8, number: i64) -> [Value; 2]
    ensures values { result ≡ Register register ∷ Number number ∷ [] }
    ensures long { list_all is_long result ≡ true }
{
    [Value::Register(register), integer(number)]
}

/// The values of a line that compares the register with the number.
fn test(register: u8, comparison: Comparison, number: i64) -> [Value; 3]
    ensures values { result ≡ Register register ∷ ComparisonValue comparison ∷ Number number ∷ [] }
    ensures long { list_all is_long result ≡ true }
{
    [
        Value::Register(register),
        Value::Comparison(comparison),
        integer(number),
    ]
}

/// Appends the line of a call of the object with this name.
fn push_call(
    alloc: Global,
    out: &mut Vec<u8>,
    name: Name,
    opcode: Opcode,
    operand: Operand,
) -> Result<(), NoMemory>
    ensures text { OnOk result (out.new.items ≡ out.old.items
        ++ line_text (record { first = Calls opcode; values = NameValue name ∷ values_of_operand operand })) }
    ensures long { list_all is_long (values_of_operand operand) ≡ true }
{
    let name = Value::Name(name);
    let first = FirstWord::Calls(opcode);
    match operand {
        Operand::Nothing => push_line(alloc, out, first, &[name]),
        Operand::Condition(condition) => {
            push_line(alloc, out, first, &[name, natural(u32::from(condition))])
        }
        Operand::Number(value) => push_line(alloc, out, first, &[name, integer(value)]),
        Operand::Register(register) => {
            push_line(alloc, out, first, &[name, Value::Register(register)])
        }
    }
}

/// Appends a line of these words.
fn push_line(
    alloc: Global,
    out: &mut Vec<u8>,
    first: FirstWord,
    values: &[Value],
) -> Result<(), NoMemory>
    ensures { OnOk result (out.new.items ≡ out.old.items ++ line_text (record { first = first; values = values.now })) }
{
    out.extend_from_slice(first.spelling())?;
    push_values(alloc, out, values)?;
    out.extend_from_slice(b"\n")?;
    Ok(())
}
