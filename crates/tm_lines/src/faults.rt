ghost use Rattle.std.specs.Prelude.{◌≡◌};
ghost use Rattle.tm_lines.specs.FaultWords.{fault_word};

/// What is wrong with a text, in the order in which it is looked for.
#[derive(Clone, Copy, Debug, PartialEq, Eq)]
pub enum Fault {
    /// The text is longer than it may be.
    Size,
    /// A byte may not stand in a line.
    Byte,
    /// The first word isn't allowed at this place, or a word of few choices is another.
    Word,
    /// The number of words isn't that of the first word.
    Count,
    /// A declared name is none, is `main`, or was declared before.
    Name,
    /// A used name isn't declared anywhere.
    Unknown,
    /// The named object doesn't have the operation.
    Kind,
    /// A word that must be a number is none, or is out of its range.
    Number,
    /// A word that must be a register is none.
    Register,
    /// Blocks nest too deep.
    Depth,
    /// A loop has no call directly in its body.
    Idle,
    /// There are too many objects, threads or instructions.
    Limit,
    /// A thread or a block isn't ended.
    NotEnded,
}

impl Fault {
    /// The word that says it.
    pub fn word(self) -> &'static [u8]
        ensures { result.now ≡ fault_word self }
    {
        match self {
            Fault::Size => b"size",
            Fault::Byte => b"byte",
            Fault::Word => b"word",
            Fault::Count => b"count",
            Fault::Name => b"name",
            Fault::Unknown => b"unknown",
            Fault::Kind => b"kind",
            Fault::Number => b"number",
            Fault::Register => b"register",
            Fault::Depth => b"depth",
            Fault::Idle => b"idle",
            Fault::Limit => b"limit",
            Fault::NotEnded => b"open",
        }
    }
}

/// The first faulty line of a text, and what is wrong with it.
#[derive(Clone, Copy, Debug, PartialEq, Eq)]
pub struct FaultyLine {
    /// The number of the line, from 1; 0 where the text is too long.
    pub line: u64,
    pub kind: Fault,
}
