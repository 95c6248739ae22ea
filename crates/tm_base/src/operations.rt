ghost use Rattle.std.specs.Prelude.{◌≡◌};
ghost use Rattle.tm_base.specs.Fits.{fits, is_call};

use crate::kinds::Kind;

/// What a thread, or `main`, does to an object. A condition is numbered from 0.
#[derive(Clone, Copy, Debug, PartialEq, Eq)]
pub enum Op {
    Lock,
    TryLock,
    Unlock,
    P,
    TryP,
    V,
    Enter,
    Leave,
    Wait(u8),
    Signal(u8),
    Broadcast(u8),
    Arrive,
    RLock,
    RUnlock,
    WLock,
    WUnlock,
    Send(i64),
    Recv,
    Close,
    Read,
    Write(i64),
    Add(i64),
    Start,
    Join,
    Begin,
    End { cut: bool },
    Resume,
    Stop,
}

impl Op {
    /// Whether objects of this kind have the operation: its table has a row for it, and a condition
    /// is one of the monitor's. `Resume` and `Stop` fit every kind.
    pub fn fits(self, kind: Kind) -> bool
        ensures { result ≡ fits self kind }
    {
        match self {
            Op::Lock | Op::TryLock | Op::Unlock => matches!(kind, Kind::Mutex),
            Op::P | Op::TryP | Op::V => matches!(kind, Kind::Sem { .. }),
            Op::Enter | Op::Leave => matches!(kind, Kind::Hoare { .. } | Kind::Mesa { .. }),
            Op::Wait(condition) | Op::Signal(condition) => match kind {
                Kind::Hoare { conditions } => condition < conditions,
                Kind::Mesa { conditions } => condition < conditions,
                _ => false,
            },
            Op::Broadcast(condition) => match kind {
                Kind::Mesa { conditions } => condition < conditions,
                _ => false,
            },
            Op::Arrive => matches!(kind, Kind::Barrier { .. }),
            Op::RLock | Op::RUnlock | Op::WLock | Op::WUnlock => matches!(kind, Kind::Rw),
            Op::Send(_) | Op::Recv | Op::Close => {
                matches!(kind, Kind::Sync | Kind::Async { .. })
            }
            Op::Read | Op::Write(_) | Op::Add(_) => matches!(kind, Kind::Var { .. }),
            Op::Start | Op::Join | Op::Begin | Op::End { .. } => {
                matches!(kind, Kind::Thread { .. })
            }
            Op::Resume | Op::Stop => true,
        }
    }

    /// Whether it is a call, which is what a program asks: none of `Begin`, `End`, `Resume` and `Stop`.
    pub fn is_call(self) -> bool
        ensures { result ≡ is_call self }
    {
        !matches!(self, Op::Begin | Op::End { .. } | Op::Resume | Op::Stop)
    }
}
