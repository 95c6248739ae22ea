ghost use Rattle.std.specs.Prelude.{◌≡◌, ◌<◌, ◌^◌, ◌||◌, None, Some, true, false, is_none, IfNone, IfSome, IsOk};
ghost use Rattle.std.specs.Result.{result_ok};
ghost use Rattle.tm_base.specs.Orders.{last_stamp};
ghost use Rattle.tm_base.specs.declared.operations.Op.TheVariants as op;
ghost use Rattle.tm_book.specs.Books.{label_of};
ghost use Rattle.tm_laws.specs.ThreadObjects.{is_begin, is_end};
ghost use Rattle.tm_shared.specs.Calls.{IsLegal, StillWaits};
ghost use Rattle.tm_shared.specs.OwnEvents.{MayCall, ends_waiting, has_stop};
ghost use Rattle.tm_shared.specs.Turns.{GaveBack, with_made};
ghost use Rattle.tm_turn.specs.Passes.{IsHeldBy, IsPassOf, mine};

use crate::books;
use crate::objects::{Pass, Shared};
use tm_base::{Entry, NoMemory, Op, Ticket};
use tm_book::Book;
use tm_turn::Held;

impl Shared {
    /// Makes the call at the pass's turn, and gives the turn back.
    pub(crate) fn enter(
        &self,
        pass: &mut Pass,
        mut held: Held<Book>,
        ticket: &mut Ticket,
        op: Op,
    ) -> Result<Entry, NoMemory>
        requires of { IsPassOf self.now pass.old }
        requires from { IsHeldBy pass.old held.from.value }
        requires list { held.value.entries ≡ pass.old.seen }
        requires label { label_of held.value ≡ self.now.label }
        requires one { ticket.old.thread ≡ pass.old.number }
        requires may { MayCall self.now.label (mine pass.old) pass.old.number op }
        requires free { ticket.old.waits ≡ None }
        requires next { ticket.old.next < 2 ^ 62 }
        requires clock { ticket.old.clock < 2 ^ 62 }
        ensures gives { GaveBack self.now.label pass.old ticket.old op (result_ok result) pass.new ticket.new }
        ensures owed { (is_begin op || is_end op) ≡ true → IsOk result }
    {
        let made = books::enter(&mut held.value, ticket, op);
        self.give_back(pass, held, made.ok());
        made
    }

    /// Resumes the call at the pass's turn, and gives the turn back.
    pub(crate) fn resume(
        &self,
        pass: &mut Pass,
        mut held: Held<Book>,
        ticket: &mut Ticket,
    ) -> Option<Entry>
        requires of { IsPassOf self.now pass.old }
        requires from { IsHeldBy pass.old held.from.value }
        requires list { held.value.entries ≡ pass.old.seen }
        requires label { label_of held.value ≡ self.now.label }
        requires one { ticket.old.thread ≡ pass.old.number }
        requires waits { ends_waiting (mine pass.old) ≡ true }
        requires here { ticket.old.waits ≡ Some self.now.label.object }
        requires next { ticket.old.next < 2 ^ 62 }
        requires clock { ticket.old.clock ≡ last_stamp (mine pass.old) }
        ensures gives { GaveBack self.now.label pass.old ticket.old op.Resume result pass.new ticket.new }
        ensures waits { IfNone result (StillWaits self.now.label pass.new.seen pass.old.number) }
    {
        let made = books::resume(&mut held.value, ticket);
        self.give_back(pass, held, made);
        made
    }

    /// Stops the object at the pass's turn, and gives the turn back.
    pub(crate) fn halt(
        &self,
        pass: &mut Pass,
        mut held: Held<Book>,
        ticket: &mut Ticket,
    ) -> Option<Entry>
        requires of { IsPassOf self.now pass.old }
        requires from { IsHeldBy pass.old held.from.value }
        requires list { held.value.entries ≡ pass.old.seen }
        requires label { label_of held.value ≡ self.now.label }
        requires one { ticket.old.thread ≡ pass.old.number }
        requires main { ticket.old.thread ≡ 0 }
        requires next { ticket.old.next < 2 ^ 62 }
        requires clock { ticket.old.clock < 2 ^ 62 }
        ensures gives { GaveBack self.now.label pass.old ticket.old op.Stop result pass.new ticket.new }
        ensures none { is_none result ≡ has_stop pass.old.seen }
    {
        let made = books::stop(&mut held.value, ticket);
        self.give_back(pass, held, made);
        made
    }

    /// Notes the event that was made at the pass's turn, if there is one, and gives the turn back.
    fn give_back(&self, pass: &mut Pass, mut held: Held<Book>, made: Option<Entry>)
        requires of { IsPassOf self.now pass.old }
        requires from { IsHeldBy pass.old held.from.value }
        requires list { held.value.entries ≡ with_made pass.old.seen made }
        requires label { label_of held.value ≡ self.now.label }
        requires own { IfSome made (λ entry. entry.thread ≡ pass.old.number) }
        ensures pass { pass.new ≡ record pass.old { seen = with_made pass.old.seen made; holds = false } }
        ensures legal { IsLegal self.now.label pass.new.seen }
    {
        let _history = held.value.entries();
        if let Some(entry) = made {
            self.turn.note(pass, &mut held, &entry);
        }
        self.turn.give(pass, held);
    }
}
