ghost use Rattle.std.specs.Prelude.{◌≡◌, refl};
ghost use Rattle.tm_watch.specs.Watchers.{tally};

use crate::{Verdict, Watcher};
use std::marker::Model;
use tm_base::Entry;

/// A watcher that counts all events, and never retires. Contracts see the count.
#[derive(Debug, Drop)]
pub struct Tally {
    count: u64,
}

impl Model for Tally {
    ghost use Rattle.std.specs.Prelude.{ℕ};

    ghost Value = { ℕ };

    ghost view = { λ t. t.count };
}

impl Tally {
    /// A tally that has seen nothing. It takes no memory.
    pub fn make() -> Tally
        ensures { result ≡ 0 }
    {
        Tally { count: 0 }
    }
}

impl Watcher for Tally {
    ghost watch = { tally };

    ghost one_meaning = { λ _ _. (refl, refl) };

    fn saw(&mut self, _entry: &Entry) -> Verdict {
        self.count = self.count.saturating_add(1);
        Verdict::Keep
    }

    fn seen(&self) -> u64 {
        self.count
    }
}
