ghost use Rattle.std.specs.Prelude.{◌≡◌};
ghost use Rattle.tm_programs.specs.Programs.{holds};

use tm_base::Opcode;

/// How a register is compared with a number.
#[derive(Clone, Copy, Debug, PartialEq, Eq)]
pub enum Comparison {
    Equal,
    NotEqual,
    Less,
    AtMost,
    Greater,
    AtLeast,
}

impl Comparison {
    /// The comparison holds of the value and the number.
    pub fn holds(self, value: i64, number: i64) -> bool
        ensures { result ≡ holds self value number }
    {
        match self {
            Comparison::Equal => value == number,
            Comparison::NotEqual => value != number,
            Comparison::Less => value < number,
            Comparison::AtMost => value <= number,
            Comparison::Greater => value > number,
            Comparison::AtLeast => value >= number,
        }
    }
}

/// What a call has beside its object.
#[derive(Clone, Copy, Debug, PartialEq, Eq)]
pub enum Operand {
    Nothing,
    /// A monitor's condition, from 0.
    Condition(u8),
    /// The value that is sent, written or added.
    Number(i64),
    /// The register that has that value, or that takes what the call answers. 0 to 7.
    Register(u8),
}

/// A line of a program.
#[derive(Clone, Copy, Debug, PartialEq, Eq)]
pub enum Instruction {
    /// A call of an operation on an object.
    Call {
        object: u32,
        opcode: Opcode,
        operand: Operand,
    },
    /// The register becomes the number.
    Set {
        register: u8,
        value: i64,
    },
    /// The number is added to the register, which stops at the ends of 64 bits.
    Inc {
        register: u8,
        value: i64,
    },
    /// The block that follows is run this often.
    Repeat {
        turns: u32,
    },
    /// The block that follows is run as long as the comparison holds before it.
    While {
        register: u8,
        comparison: Comparison,
        value: i64,
    },
    /// The block that follows is run where the comparison holds.
    If {
        register: u8,
        comparison: Comparison,
        value: i64,
    },
    /// The end of a block.
    End,
}
