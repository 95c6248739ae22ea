ghost use Rattle.std.specs.Prelude.{◌≡◌};
ghost use Rattle.tm_text.specs.declared.text_faults.TextFault.TheVariants.{Line, NoMemory};

use tm_base::NoMemory;
use tm_lines::{Fault, FaultyLine};

/// Why a text gives no exercise.
#[derive(Clone, Copy, Debug, PartialEq, Eq)]
pub enum TextFault {
    /// The first faulty line, and what is wrong with it. The line is 0 where the text is too long.
    Line { line: u64, kind: Fault },
    /// Memory ran out.
    NoMemory,
}

impl From<NoMemory> for TextFault {
    ghost from_gives = { λ _ e. e ≡ NoMemory };

    fn from(_error: NoMemory) -> TextFault {
        TextFault::NoMemory
    }
}

impl TextFault {
    /// The first faulty line is this.
    pub fn of_line(faulty: FaultyLine) -> TextFault
        ensures { result ≡ Line faulty.line faulty.kind }
    {
        TextFault::Line {
            line: faulty.line,
            kind: faulty.kind,
        }
    }
}
