//! Locks as textbooks define them.
#![tactic(auto)]

ghost use Rattle.tm_locks.specs.Balance.{
  OnlyVsServeWaiters,
  SemaphoreBalance,
  SemaphoreValuesAreSmall,
  VsServeWaiters,
};
ghost use Rattle.tm_locks.specs.Exclusion.{ReaderWriterExclusion};
ghost use Rattle.tm_locks.specs.Opening.{BarrierOpening, OnlyTheLastOpens, OpeningNeedsItsParties};
ghost use Rattle.tm_locks.specs.Ownership.{OwnershipMoves};

mod barriers;
mod mutexes;
mod reader_writer_locks;
mod readers;
mod semaphores;
#[cfg(test)]
mod tests;

pub use barriers::BarrierM;
pub use mutexes::MutexM;
pub use reader_writer_locks::RwM;
pub use semaphores::SemM;

/// In every legal history of a mutex, only the owner's `unlock` takes the ownership away, and then it
/// goes to the oldest waiter, or to nobody where none waits.
pub fn mutex_ownership()
    ensures { OwnershipMoves }
{}

/// In every legal history of a semaphore its value and the P's that were completed are together as many
/// as its start value and the V's that were completed. A P that waits is completed by the V that gives to
/// its thread.
pub fn semaphore_balance()
    ensures { SemaphoreBalance }
{}

/// In every legal history of a semaphore that starts with at most `GREATEST_SEMAPHORE_VALUE`, its value
/// is at most that.
pub fn semaphore_values_are_small()
    ensures { SemaphoreValuesAreSmall }
{}

/// In every legal history of a semaphore the thread that a V gives to has waited, and is granted `Ok`.
/// A thread that waits is granted `Ok` by no other event.
pub fn waiters_of_semaphores_are_served()
    ensures served { VsServeWaiters }
    ensures only { OnlyVsServeWaiters }
{}

/// In every legal history of a barrier an `arrive` that is answered `Last` comes when those that wait are
/// one fewer than the parties. Each of them is granted `Ok`, and nobody waits then. By no other event is
/// a thread that waits granted `Ok`. Where there are more parties than threads, no event is answered `Last`.
pub fn barrier_opening()
    ensures opens { BarrierOpening }
    ensures only { OnlyTheLastOpens }
    ensures needs_parties { OpeningNeedsItsParties }
{}

/// In every state of a legal history of a reader-writer lock there is no reader or no writer inside. While
/// a reader is inside, the oldest thread that waits wants to write, and none waits while nobody is inside.
pub fn reader_writer_exclusion()
    ensures { ReaderWriterExclusion }
{}
