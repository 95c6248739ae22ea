ghost use Rattle.std.specs.Prelude.{◌≡◌};
ghost use Rattle.tm_watch.specs.Watchers.{after_entry, verdict_at};

use crate::Verdict;
use tm_base::Entry;

/// What sees a run's events, one after another. Contracts see its state, which is a list of numbers, how many
/// entries it has seen, and what its type means: the state after an entry, and whether it retires there.
pub trait Watcher: Drop {
    ghost use Rattle.tm_watch.specs.Watchers.{Watch};

    /// What contracts see of it.
    ghost watch: { Self → Watch };

    /// Sees the entry, and answers whether it is to see the next one.
    fn saw(&mut self, entry: &Entry) -> Verdict
        ensures moved { watch self.new ≡ after_entry (watch self.old) entry.now }
        ensures verdict { result ≡ verdict_at (watch self.old) entry.now };

    /// How many entries it has seen, at most 2^64 - 1.
    fn seen(&self) -> u64
        ensures { result ≡ (watch self.now).count };

    // The meaning is the type's: all its watchers have the same.
    ghost one_meaning: { (a b : Self) → ((watch a).next ≡ (watch b).next) × ((watch a).retires ≡ (watch b).retires) };
}
