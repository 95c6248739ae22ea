ghost use Rattle.std.specs.Prelude.{◌≡◌, ◌<◌, ◌≤◌, ◌^◌, List, None, Some, OnOk, OnErr, IfOk, IfErr};
ghost use Rattle.tm_base.specs.declared.operations.Op.TheVariants as op;
ghost use Rattle.tm_turn.specs.Passes.{TurnView};
ghost use Rattle.tm_worker.specs.Logs.{AreSamePasses, IsSent, IsUnsent, KeepsLog, log_of};
ghost use Rattle.tm_worker.specs.Outcomes.{CanCall, FailedToCall, FailedToResume, SuitsPasses};
ghost use Rattle.tm_worker.specs.Standings.{AreNumbered};

use std::marker::Model;
use tm_base::{Entry, NoMemory, Op, Ticket};
use tm_ring::Outbox;
use tm_shared::{FinishFault, Pass, Shared, TryFault};

/// What a thread has recorded: its passes of the objects in rising number, its ticket, and its outbox. What
/// the outbox sent are the thread's own events, as passes and ticket tell them.
#[derive(Drop)]
pub(crate) struct Log {
    pub(crate) passes: Vec<Pass>,
    pub(crate) ticket: Ticket,
    pub(crate) outbox: Outbox,
}

impl Model for Log {
    ghost use Rattle.tm_worker.specs.Logs.{LogView, KeepsLog};

    ghost Value = { LogView };

    ghost view = { λ l. record { passes = l.passes.items; ticket = l.ticket; outbox = l.outbox } };

    ghost invariant = { λ l. KeepsLog l.passes.items l.ticket l.outbox.sent };
}

impl Log {
    /// The thread. Where objects suit its passes, their places are their numbers.
    pub(crate) fn thread(&self) -> u32
        ensures thread { result ≡ self.now.ticket.thread }
        ensures numbered { (shared : List TurnView) → SuitsPasses shared self.now.passes self.now.ticket.thread → AreNumbered shared }
    {
        self.ticket.thread()
    }

    /// Makes room in the outbox for `n` events.
    pub(crate) fn make_room(&mut self, n: u32) -> Result<(), NoMemory>
        ensures room { OnOk result (n ≤ self.new.outbox.spare) }
        ensures same { self.new ≡ record self.old { outbox = record self.old.outbox { spare = self.new.outbox.spare } } }
        ensures unchanged { OnErr result (self.new ≡ self.old) }
    {
        self.outbox.make_room(n)
    }

    /// Makes a call on the object, for which the outbox has room, and sends the event.
    pub(crate) fn try_begin(
        &mut self,
        shared: &[Shared],
        object: u32,
        op: Op,
    ) -> Result<Entry, TryFault>
        requires suits { SuitsPasses shared.now self.old.passes self.old.ticket.thread }
        requires can { CanCall self.old object op }
        requires next { self.old.ticket.next < 2 ^ 62 }
        requires clock { self.old.ticket.clock < 2 ^ 62 }
        requires room { 1 ≤ self.old.outbox.spare }
        ensures passes { AreSamePasses self.old.passes self.new.passes }
        ensures sent { IfOk result (λ entry. IsSent self.old object op entry self.new) }
        ensures unsent { OnErr result (IsUnsent self.old self.new) }
        ensures fault { IfErr result (λ fault. FailedToCall self.old object op fault self.new) }
    {
        try_begin(
            shared,
            &mut self.passes,
            &mut self.ticket,
            &mut self.outbox,
            object,
            op,
        )
    }

    /// Resumes the call that waits at the object, and sends the event, for which the outbox has room.
    pub(crate) fn try_finish(
        &mut self,
        shared: &[Shared],
        object: u32,
    ) -> Result<Entry, FinishFault>
        requires suits { SuitsPasses shared.now self.old.passes self.old.ticket.thread }
        requires here { self.old.ticket.waits ≡ Some object }
        requires next { self.old.ticket.next < 2 ^ 62 }
        requires room { 1 ≤ self.old.outbox.spare }
        ensures passes { AreSamePasses self.old.passes self.new.passes }
        ensures sent { IfOk result (λ entry. IsSent self.old object op.Resume entry self.new) }
        ensures free { OnOk result (self.new.ticket.waits ≡ None) }
        ensures unsent { OnErr result (IsUnsent self.old self.new) }
        ensures fault { IfErr result (λ fault. FailedToResume self.old object fault self.new) }
    {
        try_finish(
            shared,
            &mut self.passes,
            &mut self.ticket,
            &mut self.outbox,
            object,
        )
    }
}

/// Makes a call on the object by its pass, and sends the event.
fn try_begin(
    shared: &[Shared],
    passes: &mut Vec<Pass>,
    ticket: &mut Ticket,
    outbox: &mut Outbox,
    object: u32,
    op: Op,
) -> Result<Entry, TryFault>
    requires keeps { KeepsLog passes.old.items ticket.old outbox.old.sent }
    requires suits { SuitsPasses shared.now passes.old.items ticket.old.thread }
    requires can { CanCall (log_of passes.old.items ticket.old outbox.old) object op }
    requires next { ticket.old.next < 2 ^ 62 }
    requires clock { ticket.old.clock < 2 ^ 62 }
    requires room { 1 ≤ outbox.old.spare }
    ensures keeps { KeepsLog passes.new.items ticket.new outbox.new.sent }
    ensures passes { AreSamePasses passes.old.items passes.new.items }
    ensures sent { IfOk result (λ entry. IsSent (log_of passes.old.items ticket.old outbox.old) object op entry (log_of passes.new.items ticket.new outbox.new)) }
    ensures unsent { OnErr result (IsUnsent (log_of passes.old.items ticket.old outbox.old) (log_of passes.new.items ticket.new outbox.new)) }
    ensures fault { IfErr result (λ fault. FailedToCall (log_of passes.old.items ticket.old outbox.old) object op fault (log_of passes.new.items ticket.new outbox.new)) }
{
    let k = object as usize;
    match shared[k].try_begin(&mut passes[k], ticket, op) {
        Ok(entry) => {
            outbox.send(entry);
            Ok(entry)
        }
        Err(fault) => Err(fault),
    }
}

/// Resumes the call that waits at the object, by its pass, and sends the event.
fn try_finish(
    shared: &[Shared],
    passes: &mut Vec<Pass>,
    ticket: &mut Ticket,
    outbox: &mut Outbox,
    object: u32,
) -> Result<Entry, FinishFault>
    requires keeps { KeepsLog passes.old.items ticket.old outbox.old.sent }
    requires suits { SuitsPasses shared.now passes.old.items ticket.old.thread }
    requires here { ticket.old.waits ≡ Some object }
    requires next { ticket.old.next < 2 ^ 62 }
    requires room { 1 ≤ outbox.old.spare }
    ensures keeps { KeepsLog passes.new.items ticket.new outbox.new.sent }
    ensures passes { AreSamePasses passes.old.items passes.new.items }
    ensures sent { IfOk result (λ entry. IsSent (log_of passes.old.items ticket.old outbox.old) object op.Resume entry (log_of passes.new.items ticket.new outbox.new)) }
    ensures free { OnOk result (ticket.new.waits ≡ None) }
    ensures unsent { OnErr result (IsUnsent (log_of passes.old.items ticket.old outbox.old) (log_of passes.new.items ticket.new outbox.new)) }
    ensures fault { IfErr result (λ fault. FailedToResume (log_of passes.old.items ticket.old outbox.old) object fault (log_of passes.new.items ticket.new outbox.new)) }
{
    let k = object as usize;
    match shared[k].try_finish(&mut passes[k], ticket) {
        Ok(resume) => {
            outbox.send(resume);
            Ok(resume)
        }
        Err(fault) => Err(fault),
    }
}
