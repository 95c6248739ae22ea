ghost use Rattle.std.specs.Prelude.{◌≡◌, ◌^◌, ◌<◌, None};
ghost use Rattle.tm_base.specs.Tickets.{opening, advanced};

use crate::events::Entry;
use crate::replies::Reply;
use std::marker::Model;

/// Where a thread stands: the place of its next event, the stamp of its last one (0 where there is
/// none), and the object at which its call waits.
#[derive(Debug, PartialEq, Eq, Drop)]
pub struct Ticket {
    thread: u32,
    next: u64,
    clock: u64,
    waits: Option<u32>,
}

impl Model for Ticket {
    ghost use Rattle.tm_base.specs.Tickets.{TicketView};

    ghost Value = { TicketView };

    ghost view = { λ t. record { thread = t.thread; next = t.next; clock = t.clock; waits = t.waits } };

    ghost inverse = { λ p. record { thread = p.thread; next = p.next; clock = p.clock; waits = p.waits } };
}

impl Ticket {
    /// The ticket of a thread that has made no event.
    pub fn make(thread: u32) -> Ticket
        ensures { result ≡ opening thread }
    {
        Ticket {
            thread,
            next: 1,
            clock: 0,
            waits: None,
        }
    }

    /// The thread's number.
    pub fn thread(&self) -> u32
        ensures { result ≡ self.now.thread }
    {
        self.thread
    }

    /// The place of the thread's next event, from 1.
    pub fn next(&self) -> u64
        ensures { result ≡ self.now.next }
    {
        self.next
    }

    /// The stamp of the thread's last event, 0 where there is none.
    pub fn clock(&self) -> u64
        ensures { result ≡ self.now.clock }
    {
        self.clock
    }

    /// The object at which the thread's call waits.
    pub fn waits(&self) -> Option<u32>
        ensures { result ≡ self.now.waits }
    {
        self.waits
    }

    /// Goes on by the thread's next event.
    pub fn advance(&mut self, entry: &Entry)
        requires thread { entry.now.thread ≡ self.old.thread }
        requires place { entry.now.place ≡ self.old.next }
        requires small { self.old.next < 2 ^ 63 }
        ensures { self.new ≡ advanced self.old entry.now }
    {
        self.next += 1;
        self.clock = entry.stamp;
        self.waits = match entry.reply {
            Reply::Wait => Some(entry.object),
            _ => None,
        };
    }
}
