ghost use Rattle.std.specs.Prelude.{◌≡◌, [], IfErr, IfOk, MatchOption};
ghost use Rattle.tm_order.specs.Interleavings.{AreInRange};
ghost use Rattle.tm_order.specs.LegalEvents.{AreLegal};
ghost use Rattle.tm_trace.specs.Judging.{IsAccepted, IsExact, IsFault};
ghost use Rattle.tm_trace.specs.Merging.{HoldsNothing, IsMergeFault};
ghost use Rattle.tm_trace.specs.Offering.{IsOfferFault, IsOffered};
ghost use Rattle.tm_trace.specs.Replaying.{IsFirstIllegal, Replays};

use crate::faults::JudgeFault;
use crate::sorting::in_stamp_order;
use crate::traces::Trace;
use std::alloc::Global;
use tm_base::{Entry, NoMemory};
use tm_joint::{Illegal, Joint};
use tm_merge::Merger;
use tm_text::Exercise;

/// Whether the events of the trace, in whatever order, can have been a run of its exercise. If so, gives them
/// by rising stamp and then thread number, which is such an order (Lamport, CACM 1978). Otherwise gives the
/// first event that is refused when the events are offered to a merger in the order of their lines; else the
/// first of those that are held then, and for which place it waits; else the first event shown that can't
/// happen after those before it. `NoMemory` only where memory runs out.
pub fn judge(alloc: Global, trace: &Trace) -> Result<Vec<Entry>, JudgeFault>
    ensures accepted { IfOk result (λ order. IsAccepted trace.now.exercise trace.now.entries order.items) }
    ensures refused { IfErr result (IsFault trace.now.exercise trace.now.entries) }
    ensures exact { IfErr result (IsExact trace.now.exercise trace.now.entries) }
{
    match run_by_stamp(alloc, trace)? {
        Some(order) => Ok(order),
        None => Err(first_fault(alloc, trace)),
    }
}

/// The events of the trace by rising stamp and then thread number, if they are a run in that order. If they
/// aren't, they are a run in no order.
fn run_by_stamp(alloc: Global, trace: &Trace) -> Result<Option<Vec<Entry>>, NoMemory>
    ensures { IfOk result (λ run. MatchOption run (AreLegal trace.now.exercise trace.now.entries → ⊥) (λ order. IsAccepted trace.now.exercise trace.now.entries order.items)) }
{
    let order = in_stamp_order(alloc, trace.entries())?;
    match first_illegal(alloc, trace.exercise(), order.as_slice())? {
        None => Ok(Some(order)),
        Some(_) => Ok(None),
    }
}

/// What is wrong with the events of the trace, which are no run in any order: what is found first where they
/// are offered to a merger, shown, and applied.
fn first_fault(alloc: Global, trace: &Trace) -> JudgeFault
    requires { AreLegal trace.now.exercise trace.now.entries → ⊥ }
    ensures { IsFault trace.now.exercise trace.now.entries result }
{
    let merger = match merged(alloc, trace) {
        Ok(merger) => merger,
        Err(fault) => return fault,
    };
    match first_illegal(alloc, trace.exercise(), merger.shown()) {
        Ok(Some(illegal)) => JudgeFault::Illegal(illegal),
        Ok(None) => unreachable!(),
        Err(NoMemory) => JudgeFault::NoMemory,
    }
}

/// A merger that shows all events of the trace.
fn merged(alloc: Global, trace: &Trace) -> Result<Merger, JudgeFault>
    ensures merged { IfOk result (HoldsNothing trace.now.exercise trace.now.entries) }
    ensures fault { IfErr result (IsMergeFault trace.now.exercise trace.now.entries) }
{
    let mut merger = offered(alloc, trace)?;
    merger.settle();
    match merger.held(0) {
        Some(hold) => Err(JudgeFault::Held(hold)),
        None => Ok(merger),
    }
}

/// A merger that took all events of the trace, in the order of their lines, and has shown none yet.
fn offered(alloc: Global, trace: &Trace) -> Result<Merger, JudgeFault>
    ensures offered { IfOk result (IsOffered trace.now.exercise trace.now.entries) }
    ensures fault { IfErr result (IsOfferFault trace.now.exercise trace.now.entries) }
{
    let exercise = trace.exercise();
    let mut merger = Merger::make(alloc, exercise.threads(), exercise.objects())?;
    for entry in trace.entries() {
        merger.offer(*entry)?;
    }
    Ok(merger)
}

/// Applies the events to the exercise's joint state, one after the other from its start on, and gives the first
/// that can't happen.
fn first_illegal(
    alloc: Global,
    exercise: &Exercise,
    events: &[Entry],
) -> Result<Option<Illegal>, NoMemory>
    requires { AreInRange exercise.now events.now }
    ensures { IfOk result (λ found. MatchOption found (Replays exercise.now events.now) (IsFirstIllegal exercise.now events.now)) }
{
    let mut joint = Joint::make(alloc, exercise)?;
    for entry in events {
        if let Err(illegal) = joint.apply(entry) {
            return Ok(Some(illegal));
        }
    }
    Ok(None)
}
