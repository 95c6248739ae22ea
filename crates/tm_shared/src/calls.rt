ghost use Rattle.std.specs.Prelude.{◌≡◌, ◌<◌, ◌^◌, ◌||◌, None, Some, false, true, IfErr, IfNone, IfOk, IfSome, IsOk, OnErr, OnOk};
ghost use Rattle.tm_base.specs.Orders.{last_stamp};
ghost use Rattle.tm_base.specs.declared.operations.Op.TheVariants as op;
ghost use Rattle.tm_laws.specs.ThreadObjects.{is_begin, is_end};
ghost use Rattle.tm_shared.specs.Calls.{IsAdded, IsFirstStop, LostTurn, TookTurn, TookTurns};
ghost use Rattle.tm_shared.specs.Faults.{FailedToBegin, FailedToFinish};
ghost use Rattle.tm_shared.specs.OwnEvents.{MayCall, ends_waiting, has_stop};
ghost use Rattle.tm_turn.specs.Passes.{IsPassOf, mine};

use crate::faults::{FinishFault, TryFault};
use crate::objects::{Pass, Shared};
use std::sync::Wait;
use std::thread::yield_now;
use tm_base::{Entry, NoMemory, Op, Ticket};
use tm_turn::Busy;

impl Shared {
    /// Makes a call at the pass's turn, for which it waits, and answers the call's event. Only running out of
    /// memory refuses it, and never a begin or an end; then the history, the ticket and the pass's own events
    /// stay.
    pub fn begin<R: Wait>(
        &self,
        rt: &R,
        pass: &mut Pass,
        ticket: &mut Ticket,
        op: Op,
    ) -> Result<Entry, NoMemory>
        requires of { IsPassOf self.now pass.old }
        requires idle { pass.old.holds ≡ false }
        requires one { ticket.old.thread ≡ pass.old.number }
        requires free { ticket.old.waits ≡ None }
        requires may { MayCall self.now.label (mine pass.old) pass.old.number op }
        requires next { ticket.old.next < 2 ^ 62 }
        requires clock { ticket.old.clock < 2 ^ 62 }
        ensures turn { TookTurns self.now.label pass.old pass.new }
        ensures added { IfOk result (λ entry. IsAdded self.now.label pass.old ticket.old op entry pass.new ticket.new) }
        ensures owed { (is_begin op || is_end op) ≡ true → IsOk result }
        ensures same_mine { OnErr result (mine pass.new ≡ mine pass.old) }
        ensures same_ticket { OnErr result (ticket.new ≡ ticket.old) }
    {
        let held = self.turn.take(rt, pass);
        self.enter(pass, held, ticket, op)
    }

    /// Makes a call as `begin` does, in one attempt and without waiting. `Busy` only where this call lost the
    /// turn to the pass that it names.
    pub fn try_begin(&self, pass: &mut Pass, ticket: &mut Ticket, op: Op) -> Result<Entry, TryFault>
        requires of { IsPassOf self.now pass.old }
        requires idle { pass.old.holds ≡ false }
        requires one { ticket.old.thread ≡ pass.old.number }
        requires free { ticket.old.waits ≡ None }
        requires may { MayCall self.now.label (mine pass.old) pass.old.number op }
        requires next { ticket.old.next < 2 ^ 62 }
        requires clock { ticket.old.clock < 2 ^ 62 }
        ensures turn { OnOk result (TookTurn self.now.label pass.old pass.new) }
        ensures added { IfOk result (λ entry. IsAdded self.now.label pass.old ticket.old op entry pass.new ticket.new) }
        ensures fault { IfErr result (λ fault. FailedToBegin self.now.label pass.old op fault pass.new) }
        ensures same_ticket { OnErr result (ticket.new ≡ ticket.old) }
    {
        match self.turn.try_take(pass) {
            Ok(held) => match self.enter(pass, held, ticket, op) {
                Ok(entry) => Ok(entry),
                Err(NoMemory) => Err(TryFault::NoMemory),
            },
            Err(busy) => Err(TryFault::Busy(busy.holder)),
        }
    }

    /// Resumes the pass's call, which waits, at a turn at which it was granted its reply, and answers the
    /// resume. That there ever is such a turn isn't promised. It takes no memory.
    pub fn finish<R: Wait>(&self, rt: &R, pass: &mut Pass, ticket: &mut Ticket) -> Entry
        requires of { IsPassOf self.now pass.old }
        requires idle { pass.old.holds ≡ false }
        requires one { ticket.old.thread ≡ pass.old.number }
        requires here { ticket.old.waits ≡ Some self.now.label.object }
        requires waits { ends_waiting (mine pass.old) ≡ true }
        requires next { ticket.old.next < 2 ^ 62 }
        requires clock { ticket.old.clock ≡ last_stamp (mine pass.old) }
        ensures turn { TookTurns self.now.label pass.old pass.new }
        ensures added { IsAdded self.now.label pass.old ticket.old op.Resume result pass.new ticket.new }
    {
        for _ in rt.forever() {
            let held = self.turn.take(rt, pass);
            match self.resume(pass, held, ticket) {
                Some(entry) => return entry,
                None => yield_now(),
            }
        }
        unreachable!()
    }

    /// Resumes the pass's call as `finish` does, in one attempt and without waiting. `NotYet` only where the
    /// call waits ungranted at this call's own turn, `Busy` only where this call lost the turn to the pass
    /// that it names. It takes no memory.
    pub fn try_finish(&self, pass: &mut Pass, ticket: &mut Ticket) -> Result<Entry, FinishFault>
        requires of { IsPassOf self.now pass.old }
        requires idle { pass.old.holds ≡ false }
        requires one { ticket.old.thread ≡ pass.old.number }
        requires here { ticket.old.waits ≡ Some self.now.label.object }
        requires waits { ends_waiting (mine pass.old) ≡ true }
        requires next { ticket.old.next < 2 ^ 62 }
        requires clock { ticket.old.clock ≡ last_stamp (mine pass.old) }
        ensures turn { OnOk result (TookTurn self.now.label pass.old pass.new) }
        ensures added { IfOk result (λ entry. IsAdded self.now.label pass.old ticket.old op.Resume entry pass.new ticket.new) }
        ensures fault { IfErr result (λ fault. FailedToFinish self.now.label pass.old fault pass.new) }
        ensures same_ticket { OnErr result (ticket.new ≡ ticket.old) }
    {
        match self.turn.try_take(pass) {
            Ok(held) => match self.resume(pass, held, ticket) {
                Some(entry) => Ok(entry),
                None => Err(FinishFault::NotYet),
            },
            Err(busy) => Err(FinishFault::Busy(busy.holder)),
        }
    }

    /// Stops the object at the turn of `main`'s pass, for which it waits, and answers the stop. `None` exactly
    /// where the history at this call's own turn has a stop, and then it adds nothing. It takes no memory.
    pub fn stop<R: Wait>(&self, rt: &R, pass: &mut Pass, ticket: &mut Ticket) -> Option<Entry>
        requires of { IsPassOf self.now pass.old }
        requires idle { pass.old.holds ≡ false }
        requires main { pass.old.number ≡ 0 }
        requires one { ticket.old.thread ≡ pass.old.number }
        requires next { ticket.old.next < 2 ^ 62 }
        requires clock { ticket.old.clock < 2 ^ 62 }
        ensures turn { TookTurns self.now.label pass.old pass.new }
        ensures added { IfSome result (λ entry. IsAdded self.now.label pass.old ticket.old op.Stop entry pass.new ticket.new) }
        ensures first { IfSome result (λ entry. IsFirstStop pass.new.seen entry) }
        ensures stopped { IfNone result (has_stop pass.new.seen ≡ true) }
        ensures same_mine { IfNone result (mine pass.new ≡ mine pass.old) }
        ensures same_ticket { IfNone result (ticket.new ≡ ticket.old) }
    {
        let held = self.turn.take(rt, pass);
        self.halt(pass, held, ticket)
    }

    /// Stops the object as `stop` does, in one attempt and without waiting. `Busy` only where this call lost
    /// the turn to the pass that it names.
    pub fn try_stop(&self, pass: &mut Pass, ticket: &mut Ticket) -> Result<Option<Entry>, Busy>
        requires of { IsPassOf self.now pass.old }
        requires idle { pass.old.holds ≡ false }
        requires main { pass.old.number ≡ 0 }
        requires one { ticket.old.thread ≡ pass.old.number }
        requires next { ticket.old.next < 2 ^ 62 }
        requires clock { ticket.old.clock < 2 ^ 62 }
        ensures turn { OnOk result (TookTurn self.now.label pass.old pass.new) }
        ensures added { IfOk result (λ made. IfSome made (λ entry. IsAdded self.now.label pass.old ticket.old op.Stop entry pass.new ticket.new)) }
        ensures first { IfOk result (λ made. IfSome made (λ entry. IsFirstStop pass.new.seen entry)) }
        ensures stopped { IfOk result (λ made. IfNone made (has_stop pass.new.seen ≡ true)) }
        ensures same_mine { IfOk result (λ made. IfNone made (mine pass.new ≡ mine pass.old)) }
        ensures same_ticket { IfOk result (λ made. IfNone made (ticket.new ≡ ticket.old)) }
        ensures busy { IfErr result (λ busy. LostTurn pass.old busy.holder pass.new) }
        ensures busy_ticket { OnErr result (ticket.new ≡ ticket.old) }
    {
        let held = self.turn.try_take(pass)?;
        Ok(self.halt(pass, held, ticket))
    }
}
