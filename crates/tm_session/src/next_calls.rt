ghost use Rattle.tm_replay.specs.JointSteps.{MayIn};
ghost use Rattle.tm_session.specs.NextCalls.{AsksCalls, GoesOn, IsWithin};
ghost use Rattle.tm_session.specs.Turns.{KeepsLimit};

use tm_base::{Ask, Op};
use tm_joint::Seat;
use tm_replay::Phase;

/// What a thread does next, and on which object.
#[derive(Clone, Copy, Debug, PartialEq, Eq)]
pub struct NextCall {
    pub object: u32,
    pub op: Op,
}

impl NextCall {
    /// What a thread that stands so does next, which has this own object and this limit of calls.
    pub fn of(seat: &Seat, own: u32, limit: u32) -> NextCall
        requires goes_on { GoesOn seat.now.phase }
        requires asks { AsksCalls seat.now.rest }
        ensures may { MayIn own seat.now.phase seat.now.rest result.object result.op }
        ensures limit { KeepsLimit limit seat.now result.op }
    {
        match seat.phase() {
            Phase::NotBegun => NextCall {
                object: own,
                op: Op::Begin,
            },
            Phase::Waits(object) => NextCall {
                object,
                op: Op::Resume,
            },
            Phase::Free => free_call(seat, own, seat.made() < u64::from(limit)),
            Phase::Main | Phase::Ended { .. } => unreachable!(),
        }
    }
}

/// What a free thread does next, which may make a call or not by its limit.
fn free_call(seat: &Seat, own: u32, calls: bool) -> NextCall
    requires { AsksCalls seat.now.rest }
    ensures may { MayIn own Phase.Free seat.now.rest result.object result.op }
    ensures limit { IsWithin calls seat.now.rest.last result.op }
{
    match seat.asked() {
        Some(Ask::Over) => NextCall {
            object: own,
            op: Op::End { cut: false },
        },
        Some(Ask::Call { object, op }) if calls => NextCall { object, op },
        _ => NextCall {
            object: own,
            op: Op::End { cut: true },
        },
    }
}
