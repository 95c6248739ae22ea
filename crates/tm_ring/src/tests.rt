ghost use Rattle.std.specs.Prelude.{◌≡◌, ◌+◌, ◌≤◌};

use super::*;
use std::test::Fail;
use tm_base::{Entry, Op, Reply};

/// The event of thread 1 at this place.
fn entry(place: u64) -> Entry {
    Entry {
        thread: 1,
        place,
        object: 0,
        at: place,
        stamp: place,
        op: Op::Lock,
        reply: Reply::Ok,
    }
}

/// What may go to another thread comes back.
fn sent_away<T: Send>(value: T) -> T
    ensures { result ≡ value }
{
    value
}

#[test]
fn a_ring_gives_what_was_sent_in_order(rt: HostRuntime) -> Result<(), Fail> {
    let (outbox, inbox) = ring(rt.alloc(), 1)?;
    let mut outbox = sent_away(outbox);
    let mut inbox = sent_away(inbox);
    outbox.make_room(2)?;
    outbox.send(entry(1));
    outbox.send(entry(2));
    assert_eq!(rt; outbox.flush(), 0);
    assert!(rt; inbox.take().is_none());
    let mut rest = close(outbox, inbox);
    assert_eq!(rt; rest.next(), Some(entry(1)));
    assert_eq!(rt; rest.next(), Some(entry(2)));
    assert_eq!(rt; rest.next(), None);
    Ok(())
}
