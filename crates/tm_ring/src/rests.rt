ghost use Rattle.std.specs.Prelude.{◌≡◌, ◌∷◌, [], MatchOption};

use std::marker::Model;
use std::vec::IntoIter;
use tm_base::Entry;

/// What was still on its way when a ring was closed. Contracts see it as the list of its events, the oldest
/// first.
#[derive(Drop)]
pub struct Rest {
    pub(crate) entries: IntoIter<Entry>,
}

impl Model for Rest {
    ghost use Rattle.std.specs.Prelude.{List};
    ghost use Rattle.tm_base.specs.declared.events.Entry.{Entry};

    ghost Value = { List Entry };

    ghost use Rattle.std.specs.Vec.Iter.{into_iter_items};

    ghost view = { λ r. into_iter_items r.entries };
}

impl Rest {
    /// Takes the oldest event. `None` exactly at the end.
    pub fn next(&mut self) -> Option<Entry>
        ensures { MatchOption result ((self.old ≡ []) × (self.new ≡ [])) (λ entry. self.old ≡ entry ∷ self.new) }
    {
        self.entries.next()
    }
}
