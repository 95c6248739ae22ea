ghost use Rattle.std.specs.Prelude.{◌≡◌};

use tm_base::NoMemory;
use tm_joint::Illegal;
use tm_merge::{Hold, Refused};

/// Why the events of a trace can't have been a run. Want of memory stands apart, and says nothing of them.
#[derive(Clone, Copy, Debug, PartialEq, Eq)]
pub enum JudgeFault {
    /// An event can't be together with those on the lines before it.
    Refused(Refused),
    /// An event waits for one that the trace doesn't have.
    Held(Hold),
    /// An event can't happen after those before it.
    Illegal(Illegal),
    NoMemory,
}

impl From<NoMemory> for JudgeFault {
    ghost use Rattle.tm_trace.specs.declared.faults.JudgeFault.{JudgeFault};

    ghost from_gives = { λ _ fault. fault ≡ JudgeFault.NoMemory };

    fn from(_error: NoMemory) -> JudgeFault {
        JudgeFault::NoMemory
    }
}

impl From<Refused> for JudgeFault {
    ghost use Rattle.tm_trace.specs.Faults.{of_refusal};

    ghost from_gives = { λ refused fault. fault ≡ of_refusal refused };

    fn from(refused: Refused) -> JudgeFault {
        match refused {
            Refused::NoMemory => JudgeFault::NoMemory,
            refused => JudgeFault::Refused(refused),
        }
    }
}

impl From<Illegal> for JudgeFault {
    ghost use Rattle.tm_trace.specs.declared.faults.JudgeFault.{JudgeFault};

    ghost from_gives = { λ illegal fault. fault ≡ JudgeFault.Illegal illegal };

    fn from(illegal: Illegal) -> JudgeFault {
        JudgeFault::Illegal(illegal)
    }
}
