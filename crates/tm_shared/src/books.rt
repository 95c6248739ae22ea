ghost use Rattle.std.specs.Prelude.{◌≡◌, ◌<◌, ◌^◌, ◌||◌, None, Some, true, is_none, IfNone, IfOk, IfSome, IsOk, OnErr};
ghost use Rattle.tm_base.specs.Orders.{of_thread, last_stamp};
ghost use Rattle.tm_base.specs.declared.operations.Op.TheVariants as op;
ghost use Rattle.tm_book.specs.Books.{HasRoom, label_of};
ghost use Rattle.tm_laws.specs.ThreadObjects.{is_begin, is_end};
ghost use Rattle.tm_shared.specs.Calls.{IsMade, StillWaits};
ghost use Rattle.tm_shared.specs.OwnEvents.{MayCall, ends_waiting, has_stop};

use tm_base::{Entry, NoMemory, Op, Ticket};
use tm_book::Book;

/// Makes the thread's call in the book, once there is room for it. Room for a begin and an end is owed.
pub(crate) fn enter(book: &mut Book, ticket: &mut Ticket, op: Op) -> Result<Entry, NoMemory>
    requires may { MayCall (label_of book.old) (of_thread book.old.entries ticket.old.thread) ticket.old.thread op }
    requires free { ticket.old.waits ≡ None }
    requires next { ticket.old.next < 2 ^ 62 }
    requires clock { ticket.old.clock < 2 ^ 62 }
    ensures label { label_of book.new ≡ label_of book.old }
    ensures made { IfOk result (λ entry. IsMade (label_of book.old) ticket.old op entry book.old.entries book.new.entries ticket.new) }
    ensures owed { (is_begin op || is_end op) ≡ true → IsOk result }
    ensures unchanged { OnErr result (book.new.entries ≡ book.old.entries) }
    ensures same_ticket { OnErr result (ticket.new ≡ ticket.old) }
{
    let _history = book.entries();
    make_room(book, op)?;
    Ok(book.enter(ticket, op))
}

/// Resumes the thread's call in the book. `None` where it still waits, and then nothing changes.
pub(crate) fn resume(book: &mut Book, ticket: &mut Ticket) -> Option<Entry>
    requires waits { ends_waiting (of_thread book.old.entries ticket.old.thread) ≡ true }
    requires here { ticket.old.waits ≡ Some book.old.object }
    requires next { ticket.old.next < 2 ^ 62 }
    requires clock { ticket.old.clock ≡ last_stamp (of_thread book.old.entries ticket.old.thread) }
    ensures label { label_of book.new ≡ label_of book.old }
    ensures made { IfSome result (λ entry. IsMade (label_of book.old) ticket.old op.Resume entry book.old.entries book.new.entries ticket.new) }
    ensures waits { IfNone result (StillWaits (label_of book.old) book.old.entries ticket.old.thread) }
    ensures unchanged { IfNone result (book.new.entries ≡ book.old.entries) }
    ensures same_ticket { IfNone result (ticket.new ≡ ticket.old) }
{
    let _history = book.entries();
    book.finish(ticket)
}

/// Stops the object of the book. `None` exactly where one of its events is a stop, and then nothing changes.
pub(crate) fn stop(book: &mut Book, ticket: &mut Ticket) -> Option<Entry>
    requires main { ticket.old.thread ≡ 0 }
    requires next { ticket.old.next < 2 ^ 62 }
    requires clock { ticket.old.clock < 2 ^ 62 }
    ensures label { label_of book.new ≡ label_of book.old }
    ensures made { IfSome result (λ entry. IsMade (label_of book.old) ticket.old op.Stop entry book.old.entries book.new.entries ticket.new) }
    ensures none { is_none result ≡ has_stop book.old.entries }
    ensures unchanged { IfNone result (book.new.entries ≡ book.old.entries) }
    ensures same_ticket { IfNone result (ticket.new ≡ ticket.old) }
{
    let _history = book.entries();
    book.stop(ticket)
}

/// Makes room for a call. Room for a begin and an end is owed, and so is there.
fn make_room(book: &mut Book, op: Op) -> Result<(), NoMemory>
    ensures room { IfOk result (λ _. HasRoom book.new op) }
    ensures same { book.new ≡ record book.old { spare = book.new.spare } }
    ensures owed { (is_begin op || is_end op) ≡ true → IsOk result }
    ensures unchanged { OnErr result (book.new ≡ book.old) }
{
    match op {
        Op::Begin | Op::End { .. } => Ok(()),
        _ => book.make_room(),
    }
}
