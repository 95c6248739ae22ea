//! The laws of the textbook machines: what holds in every state of a legal history, and what its events
//! do to the calls that are pending. Nothing here runs.
#![tactic(auto)]

ghost use Rattle.tm_laws.specs.Answered.{AnswersAreThoseOfSteps, EventsAreAnswered, NamedThreadsAreKnown};
ghost use Rattle.tm_laws.specs.EndedThreads.{ThreadsEndByAnEnd};
ghost use Rattle.tm_laws.specs.Owed.{OwedMoves};
ghost use Rattle.tm_laws.specs.Waiters.{WaitersAreThreads};
ghost use Rattle.tm_laws.specs.Laws.{AnswersAreFixed, HistoriesAreTidy, HistoryLeavesOneState, PendingMoves};
ghost use Rattle.tm_laws.specs.WellMadeRows.{RowsAreWellMade};

/// Each row of each kind's table is well made, for every operation that the kind has: what it grants
/// it takes out of the queues, and the thread that `gave` names is the one that it serves.
pub fn rows_are_well_made()
    ensures { RowsAreWellMade }
{}

/// A sound object has a lawful event for each that it can answer.
pub fn events_are_answered()
    ensures { EventsAreAnswered }
{}

/// The replies that `would` may answer are those of the table's steps.
pub fn answers_are_those_of_steps()
    ensures { AnswersAreThoseOfSteps }
{}

/// A thread that the reply `Gave` names is one of the object's program threads.
pub fn named_threads_are_known()
    ensures { NamedThreadsAreKnown }
{}

/// In every state of a legal history no thread waits twice, only program threads wait, no granted reply
/// says that the call waits, and nobody waits at a stopped object.
pub fn histories_are_tidy()
    ensures { HistoriesAreTidy }
{}

/// An event makes its thread's call pending exactly if the reply is `Wait`, and leaves the others' alone.
pub fn pending_moves()
    ensures { PendingMoves }
{}

/// A legal history leaves one state at most: the events that it holds, with their replies, fix it.
pub fn history_leaves_one_state()
    ensures { HistoryLeavesOneState }
{}

/// No kind leaves a reply open: in the state that a legal history leaves, a thread's operation has
/// one reply at most.
pub fn answers_are_fixed()
    ensures { AnswersAreFixed }
{}

/// What an object owes: an event pays the owed ones that it makes, and owes one more exactly if its call
/// waits.
pub fn owed_moves()
    ensures { OwedMoves }
{}

/// Where a legal history leaves the thread of its object ended, one of its events is an `end`.
pub fn threads_end_by_an_end()
    ensures { ThreadsEndByAnEnd }
{}

/// In every state of a legal history the queues together are as long as there are threads that wait.
pub fn waiters_are_threads()
    ensures { WaitersAreThreads }
{}
