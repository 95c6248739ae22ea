ghost use Rattle.std.specs.Prelude.{◌≡◌, ◌≤◌, All, IfOk, Some, length};
ghost use Rattle.tm_timeline.specs.Rows.{IsProgramThread};
ghost use Rattle.tm_programs.specs.Programs.{asked_of};
ghost use Rattle.tm_replay.specs.SoundStates.{IsSoundJoint};
ghost use Rattle.tm_replay.specs.Ends.{end_of, is_cut, is_cut_by_limit, is_more, named_of, threads_where};
ghost use Rattle.tm_session.specs.CutThreads.{test_of};

use std::alloc::Global;
use tm_base::{Ask, End, NoMemory};
use tm_joint::{Joint, Seat};
use tm_replay::Phase;
use tm_text::Exercise;

/// What cut a thread short.
#[derive(Clone, Copy, Debug, PartialEq, Eq)]
pub enum Cut {
    /// An object that was stopped, or the limit of calls.
    Any,
    /// This limit of calls.
    ByLimit(u32),
}

/// How a run ended, and the threads that its last line names, in rising number.
#[derive(Drop)]
pub struct Ending {
    pub end: End,
    pub named: Vec<u32>,
}

impl Ending {
    /// The ending that the joint state shows, under this limit of calls.
    pub fn of(
        alloc: Global,
        exercise: &Exercise,
        joint: &Joint,
        limit: u32,
    ) -> Result<Ending, NoMemory>
        requires exercise { joint.now.exercise ≡ exercise.now }
        requires sound { IsSoundJoint exercise.now joint.now.state }
        ensures end { IfOk result (λ ending. ending.end ≡ end_of limit joint.now.state) }
        ensures named { IfOk result (λ ending. ending.named.items ≡ named_of limit joint.now.state) }
        ensures known { IfOk result (λ ending. All (IsProgramThread exercise.now) ending.named.items) }
    {
        let limited = cut_threads(alloc, exercise, joint, Cut::ByLimit(limit))?;
        if !limited.is_empty() {
            return Ok(Ending {
                end: End::Budget,
                named: limited,
            });
        }
        let cut = cut_threads(alloc, exercise, joint, Cut::Any)?;
        let end = if cut.is_empty() {
            End::Done
        } else {
            End::Stuck
        };
        Ok(Ending { end, named: cut })
    }
}

/// The program threads that were cut so, in rising number.
fn cut_threads(
    alloc: Global,
    exercise: &Exercise,
    joint: &Joint,
    cut: Cut,
) -> Result<Vec<u32>, NoMemory>
    requires exercise { joint.now.exercise ≡ exercise.now }
    requires sound { IsSoundJoint exercise.now joint.now.state }
    ensures threads { IfOk result (λ threads. threads.items ≡ threads_where (test_of cut) joint.now.state) }
    ensures known { IfOk result (λ threads. All (IsProgramThread exercise.now) threads.items) }
{
    let mut threads = Vec::new(alloc);
    for thread in 1..exercise.threads() + 1 {
        if was_cut(joint.seat(thread), cut) {
            threads.push(thread)?;
        }
    }
    Ok(threads)
}

/// Whether the thread ended so.
fn was_cut(seat: &Seat, cut: Cut) -> bool
    ensures { result ≡ test_of cut (Some seat.now) }
{
    let ended = matches!(seat.phase(), Phase::Ended { cut: true });
    match cut {
        Cut::Any => ended,
        Cut::ByLimit(limit) => ended && seat.made() == u64::from(limit) && asks_more(seat),
    }
}

/// Whether the thread's program asks one more call.
fn asks_more(seat: &Seat) -> bool
    ensures { result ≡ is_more (asked_of seat.now.rest) }
{
    matches!(seat.asked(), Some(Ask::Call { .. }))
}
