ghost use Rattle.std.specs.Prelude.{◌≡◌, refl};
ghost use Rattle.tm_watch.specs.Watchers.{first_stop};

use crate::{Verdict, Watcher};
use std::marker::Model;
use tm_base::{Entry, Op};

/// A watcher that retires at the first `stop`. Contracts see how many events it has seen.
#[derive(Debug, Drop)]
pub struct FirstStop {
    count: u64,
}

impl Model for FirstStop {
    ghost use Rattle.std.specs.Prelude.{ℕ};

    ghost Value = { ℕ };

    ghost view = { λ f. f.count };
}

impl FirstStop {
    /// One that has seen nothing. It takes no memory.
    pub fn make() -> FirstStop
        ensures { result ≡ 0 }
    {
        FirstStop { count: 0 }
    }
}

impl Watcher for FirstStop {
    ghost watch = { first_stop };

    ghost one_meaning = { λ _ _. (refl, refl) };

    fn saw(&mut self, entry: &Entry) -> Verdict {
        self.count = self.count.saturating_add(1);
        match entry.op {
            Op::Stop => Verdict::Retire,
            _ => Verdict::Keep,
        }
    }

    fn seen(&self) -> u64 {
        self.count
    }
}
