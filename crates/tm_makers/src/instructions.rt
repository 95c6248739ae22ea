ghost use Rattle.std.specs.Prelude.{◌≡◌};
ghost use Rattle.tm_programs.specs.declared.instructions.Instruction.TheVariants.{Call, Repeat};
ghost use Rattle.tm_programs.specs.declared.instructions.Operand.TheVariants.{Nothing};

use tm_base::Opcode;
use tm_programs::{Instruction, Operand};

/// A call of the operation on the object.
pub fn call(opcode: Opcode, object: u32) -> Instruction
    ensures { result ≡ Call object opcode Nothing }
{
    call_with(opcode, object, Operand::Nothing)
}

/// A call of the operation on the object, with what it has beside it.
pub fn call_with(opcode: Opcode, object: u32, operand: Operand) -> Instruction
    ensures { result ≡ Call object opcode operand }
{
    Instruction::Call {
        object,
        opcode,
        operand,
    }
}

/// The beginning of a block that is run so often.
pub fn repeat(turns: u32) -> Instruction
    ensures { result ≡ Repeat turns }
{
    Instruction::Repeat { turns }
}
