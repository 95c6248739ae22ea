ghost use Rattle.std.specs.Prelude.{◌≡◌};
ghost use Rattle.tm_trace_texts.specs.declared.trace_faults.TraceFault.TheVariants.{NoMemory};
ghost use Rattle.tm_trace_texts.specs.Readings.{of_text_fault};

use tm_base::NoMemory;
use tm_lines::Fault;
use tm_text::TextFault;

/// Why a text gives no trace.
#[derive(Clone, Copy, Debug, PartialEq, Eq)]
pub enum TraceFault {
    /// The first faulty line, and what is wrong with it. The line is 0 where the text or its exercise is too long.
    Line { line: u64, kind: Fault },
    /// None of the text's lines, of which there are so many, is `trace`.
    NoTraceLine { lines: u64 },
    /// Memory ran out.
    NoMemory,
}

impl From<NoMemory> for TraceFault {
    ghost from_gives = { λ _ fault. fault ≡ NoMemory };

    fn from(_error: NoMemory) -> TraceFault {
        TraceFault::NoMemory
    }
}

impl From<TextFault> for TraceFault {
    ghost from_gives = { λ why fault. fault ≡ of_text_fault why };

    fn from(why: TextFault) -> TraceFault {
        match why {
            TextFault::Line { line, kind } => TraceFault::Line { line, kind },
            TextFault::NoMemory => TraceFault::NoMemory,
        }
    }
}
