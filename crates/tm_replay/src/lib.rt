//! Joint runs: all objects and threads of an exercise together, one event at a time.
#![tactic(auto)]

mod phases;

ghost use Rattle.tm_replay.specs.ClosedPrefixes.{PrefixesAreClosed};
ghost use Rattle.tm_replay.specs.DeterminedSteps.{StepsAreDetermined};
ghost use Rattle.tm_replay.specs.JointOrder.{RunsAreStamped, RunsAreWellPlaced};
ghost use Rattle.tm_replay.specs.Projections.{ObjectsHaveHistories, ThreadsHavePlaces};
ghost use Rattle.tm_replay.specs.RunnableThreads.{RunnableThreadsCanMove};

pub use phases::Phase;

/// In a joint run the events of each object, in their order, are a legal history of it: they are
/// numbered from 1, their stamps rise, and they leave the state in which the run has the object.
pub fn objects_have_histories()
    ensures { ObjectsHaveHistories }
{}

/// In a joint run the events of each thread, in their order, have the places 1, 2, 3 and so on, and
/// the place of its next event is one more than their number.
pub fn threads_have_places()
    ensures { ThreadsHavePlaces }
{}

/// The first events of a joint run, however many, are closed under Lamport's happened-before, and
/// so a consistent cut of the run: they are events of the run, none stands twice, and all that
/// happened before one of them stands before it.
pub fn prefixes_are_closed()
    ensures { PrefixesAreClosed }
{}

/// In a joint run the places of each thread's events run from 1, each once, and so do the places at
/// each object.
pub fn runs_are_well_placed()
    ensures { RunsAreWellPlaced }
{}

/// In a joint run each event's stamp is 1 plus the greatest stamp of its direct predecessors, which
/// are the events with the place before its own in its thread and at its object; it is 1 where there
/// is none. So the stamps are Lamport's clocks.
pub fn runs_are_stamped()
    ensures { RunsAreStamped }
{}

/// In a sound joint state of a well-formed exercise, what a runnable program thread may do by its phase
/// and its program is on one of the exercise's objects, which can answer it.
pub fn runnable_threads_can_move()
    ensures { RunnableThreadsCanMove }
{}

/// Thread, object and operation fix a joint step: the event that happens, with its places, stamp and reply, and
/// the joint state after it.
pub fn steps_are_determined()
    ensures { StepsAreDetermined }
{}
