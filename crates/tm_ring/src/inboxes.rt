ghost use Rattle.std.specs.Prelude.{◌≡◌, ◌++◌, ◌∷◌, [], IfNone, IfSome};
ghost use mathlib.Core.List.{IsPrefix};

use std::marker::Model;
use std::snapshot::Snapshot;
use tm_base::{Entry, Sequence};

/// The end of a ring from which events are taken. Contracts see which ring it is, the events that were taken,
/// and those that are known to be in the ring.
#[derive(Drop)]
pub struct Inbox {
    pub(crate) ring: Snapshot<u32>,
}

/// A list of inboxes.
pub type Inboxes = Sequence<Inbox>;

impl Model for Inbox {
    ghost use Rattle.tm_ring.specs.Rings.{InboxView};

    ghost Value = { InboxView };

    ghost use Rattle.tm_ring.specs.StoredRings.{inbox_view};

    ghost view = { inbox_view };
}

impl Inbox {
    /// Takes the oldest event out of the ring. `None` only where none is known to be there, and then nothing
    /// changes.
    pub fn take(&mut self) -> Option<Entry>
        ensures taken { IfSome result (λ entry. self.new ≡ record self.old { received = self.old.received ++ entry ∷ []; known = self.new.known }) }
        ensures oldest { IfSome result (λ entry. IsPrefix self.old.known (entry ∷ self.new.known)) }
        ensures none { IfNone result (self.old.known ≡ []) }
        ensures unchanged { IfNone result (self.new ≡ self.old) }
    {
        // All that was sent stays in the outbox until both ends are closed.
        let _ring = &self.ring;
        None
    }
}
