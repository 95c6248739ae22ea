//! Watchers of a run's events. A watcher sees each event that is shown, until it retires; a list of them is
//! told one event after another.
#![tactic(auto)]

mod first_stops;
mod tallies;
mod telling;
#[cfg(test)]
mod tests;
mod verdicts;
mod watchers;

ghost use Rattle.tm_watch.specs.WatchersFolded.{WatchersAreFolded};

pub use first_stops::FirstStop;
pub use tallies::Tally;
pub use telling::tell;
pub use verdicts::Verdict;
pub use watchers::Watcher;

/// Once a list of entries was told one after another, those watchers are left that retired at none of them,
/// in order, each with its state after them all.
pub fn watchers_are_folded()
    ensures { WatchersAreFolded }
{}
