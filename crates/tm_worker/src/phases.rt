ghost use Rattle.std.specs.Prelude.{◌≡◌};
ghost use Rattle.tm_worker.specs.Progresses.{phase_after};

use tm_base::{Entry, Op, Reply};

/// Where a worker stands with its program.
#[derive(Clone, Copy, Debug, PartialEq, Eq)]
pub enum Phase {
    /// It made no event; its `begin` is next.
    NotBegun,
    /// Its `begin`, or its last call, waits at this object; its `resume` is next.
    Waits(u32),
    /// This is the final reply of its `begin`, or of its last call. Its program is to be asked for the next.
    Replied(Reply),
    /// Its program asked this call, which is next.
    Asked { object: u32, op: Op },
    /// Its `end` is next.
    Ends { cut: bool },
    /// It made its `end`.
    Ended,
}

/// The phase after the event.
pub(crate) fn phase_after(entry: &Entry) -> Phase
    ensures { result ≡ phase_after entry.now }
{
    match entry.op {
        Op::End { .. } => Phase::Ended,
        _ => match entry.reply {
            Reply::Wait => Phase::Waits(entry.object),
            reply => Phase::Replied(reply),
        },
    }
}
