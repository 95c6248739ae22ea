ghost use Rattle.std.specs.Prelude.{◌≡◌, pos, List};
ghost use Rattle.tm_programs.specs.declared.instructions.Instruction.TheVariants.{Call};
ghost use Rattle.tm_lines.specs.declared.first_words.Slot.TheVariants.{Value};
ghost use Rattle.tm_lines.specs.FirstWords.{operand_slots};
ghost use Rattle.tm_lines.specs.NamedLines.{natural_or};
ghost use Rattle.tm_text.specs.declared.exercises.Declaration.{Declaration};
ghost use Rattle.tm_text.specs.SpelledPrograms.{NamesObject, words_after};
ghost use Rattle.tm_text.specs.Texts.{comparison_said, instruction_said, number_said, operand_by, operand_said, register_said};

use tm_base::Opcode;
use tm_lines::{
    FirstWord, GREATEST_NUMBER, LEAST_NUMBER, MOST_TURNS, Said, Slot, begins_with_r, comparison,
    number, register,
};
use tm_programs::{Comparison, Instruction, Operand};

/// The instruction that a line says. Most lines call, so a call is made before all others are told apart.
#[inline(always)]
pub fn instruction(said: &Said) -> Instruction
    ensures { (ds : List Declaration) → NamesObject ds said.now said.now.first
        → result ≡ instruction_said ds said.now.first (words_after said.now.words) }
{
    match said.first {
        FirstWord::Calls(opcode) => call(said.object, opcode, said.words.third),
        _ => any_instruction(*said),
    }
}

/// The call of an operation on the object, by its third word.
#[inline(always)]
fn call(object: u32, opcode: Opcode, word: &[u8]) -> Instruction
    ensures { result ≡ Call object opcode (operand_said (operand_slots opcode) word.now) }
{
    Instruction::Call {
        object,
        opcode,
        operand: operand(opcode, word),
    }
}

/// The instruction that any line says.
#[inline(never)]
fn any_instruction(said: Said) -> Instruction
    ensures { (ds : List Declaration) → NamesObject ds said.entry said.entry.first
        → result ≡ instruction_said ds said.entry.first (words_after said.entry.words) }
{
    let words = said.words;
    match said.first {
        FirstWord::Declares(_) => Instruction::End,
        FirstWord::Calls(opcode) => call(said.object, opcode, words.third),
        FirstWord::Set => Instruction::Set {
            register: register_or(words.second),
            value: number_or(words.third),
        },
        FirstWord::Inc => Instruction::Inc {
            register: register_or(words.second),
            value: number_or(words.third),
        },
        FirstWord::Repeat => Instruction::Repeat {
            turns: turns(words.second),
        },
        FirstWord::While => Instruction::While {
            register: register_or(words.second),
            comparison: comparison_or(words.third),
            value: number_or(words.fourth),
        },
        FirstWord::If => Instruction::If {
            register: register_or(words.second),
            comparison: comparison_or(words.third),
            value: number_or(words.fourth),
        },
        FirstWord::End => Instruction::End,
    }
}

/// What a call of the operation has beside its object, by its third word.
#[inline(always)]
fn operand(opcode: Opcode, word: &[u8]) -> Operand
    ensures { result ≡ operand_said (operand_slots opcode) word.now }
{
    match FirstWord::Calls(opcode).slots().get(1) {
        Some(Slot::Register) => Operand::Register(register_or(word)),
        Some(Slot::Condition) => Operand::Condition(condition(word)),
        Some(Slot::Value) => value(word),
        _ => Operand::Nothing,
    }
}

/// The register or the number that the word says.
fn value(word: &[u8]) -> Operand
    ensures { result ≡ operand_by Value word.now }
{
    if begins_with_r(word) {
        Operand::Register(register_or(word))
    } else {
        Operand::Number(number_or(word))
    }
}

/// The register that the word names, or the first where it names none.
fn register_or(word: &[u8]) -> u8
    ensures { result ≡ register_said word.now }
{
    register(word).unwrap_or(0)
}

/// The number that the word writes, or 0 where it writes none.
fn number_or(word: &[u8]) -> i64
    ensures { result ≡ number_said word.now }
{
    number(LEAST_NUMBER, GREATEST_NUMBER, word).unwrap_or(0)
}

/// The comparison with this sign, or `=` where it is no sign.
fn comparison_or(word: &[u8]) -> Comparison
    ensures { result ≡ comparison_said word.now }
{
    comparison(word).unwrap_or(Comparison::Equal)
}

/// The condition that the word says, or the first where it says none.
fn condition(word: &[u8]) -> u8
    ensures { result ≡ natural_or 0 (pos 0) (pos 15) word.now }
{
    match number(0, 15, word) {
        None => 0,
        Some(k) => k.unsigned_abs() as u8,
    }
}

/// How many turns the word says, or none where it says nothing.
fn turns(word: &[u8]) -> u32
    ensures { result ≡ natural_or 0 (pos 0) MOST_TURNS word.now }
{
    match number(0, MOST_TURNS, word) {
        None => 0,
        Some(k) => k.unsigned_abs() as u32,
    }
}
