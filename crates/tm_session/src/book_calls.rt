ghost use Rattle.std.specs.Prelude.{◌≡◌, ◌<◌, ◌≤◌, ◌^◌, IfOk, OnErr};
ghost use Rattle.tm_book.specs.Books.{CanEnter};
ghost use Rattle.tm_session.specs.Noting.{IsNoted};

use tm_base::{Entry, NoMemory, Op, Ticket};
use tm_book::Book;

/// Makes the operation's event in the book, by the thread's ticket. What the book owes takes no
/// memory. Only running out of memory refuses another call, and leaves the ticket as it was.
pub fn enter(book: &mut Book, ticket: &mut Ticket, op: Op) -> Result<Entry, NoMemory>
    requires may { CanEnter book.old ticket.old op }
    requires next { ticket.old.next < 2 ^ 62 }
    requires clock { ticket.old.clock ≤ 2 ^ 62 }
    ensures entered { IfOk result (λ e. IsNoted book.old ticket.old op e book.new ticket.new) }
    ensures refused { OnErr result (ticket.new ≡ ticket.old) }
{
    match op {
        Op::Resume => Ok(book.finish(ticket).unwrap()),
        Op::Stop => Ok(book.stop(ticket).unwrap()),
        Op::Begin | Op::End { .. } => Ok(book.enter(ticket, op)),
        op => {
            book.make_room()?;
            Ok(book.enter(ticket, op))
        }
    }
}
