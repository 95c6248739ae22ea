ghost use Rattle.std.specs.Prelude.{◌≡◌, ◌≤◌, ◌++◌, [], IfOk};

use crate::inboxes::Inbox;
use crate::outboxes::Outbox;
use crate::rests::Rest;
use std::alloc::Global;
use std::snapshot::Snapshot;
use tm_base::NoMemory;

/// Both ends of a new ring, through which nothing went. Only running out of memory refuses it.
pub fn ring(alloc: Global, capacity: u32) -> Result<(Outbox, Inbox), NoMemory>
    requires { 1 ≤ capacity }
    ensures one { IfOk result (λ ends. ends.1.ring ≡ ends.0.ring) }
    ensures sent { IfOk result (λ ends. ends.0.sent ≡ []) }
    ensures received { IfOk result (λ ends. ends.1.received ≡ []) }
    ensures waiting { IfOk result (λ ends. ends.0.waiting ≡ 0) }
{
    // Nothing but their capacity tells two rings of this form apart.
    let outbox = Outbox {
        ring: Snapshot::of(&capacity),
        backlog: Vec::with_capacity(alloc, capacity as usize)?,
    };
    let inbox = Inbox {
        ring: Snapshot::of(&capacity),
    };
    Ok((outbox, inbox))
}

/// Ends the ring of both ends. What was taken from the inbox, followed by what the rest gives, is what was
/// sent.
pub fn close(outbox: Outbox, inbox: Inbox) -> Rest
    requires { inbox.ring ≡ outbox.ring }
    ensures { inbox.received ++ result ≡ outbox.sent }
{
    let Inbox { ring: _ } = inbox;
    let Outbox { ring: _, backlog } = outbox;
    Rest {
        entries: backlog.into_iter(),
    }
}
