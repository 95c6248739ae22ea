ghost use Rattle.std.specs.Prelude.{◌≡◌, ◌+◌, ◌^◌, ◌<◌, ◌≤◌, max, [], None, Some, true, is_none, is_some, IfNone, IfOk, IfSome, IsOk, OnErr, OnOk};
ghost use Rattle.tm_base.specs.Histories.{CanAnswer, IsHistory, Lawful};
ghost use Rattle.tm_base.specs.Machines.{CanStep, changed, fresh};
ghost use Rattle.tm_base.specs.States.{grant_of, is_pending, is_waiting, start_kind_state};
ghost use Rattle.tm_base.specs.declared.operations.Op.TheVariants as op;
ghost use Rattle.tm_base.specs.declared.replies.Reply.TheVariants as reply;
ghost use Rattle.tm_laws.specs.Counts.{bit, is_wait};
ghost use Rattle.tm_laws.specs.Owed.{own_owed, paid};
ghost use Rattle.tm_laws.specs.Tidy.{IsSound};
ghost use Rattle.tm_book.specs.AnyMachines.{any_object};
ghost use Rattle.tm_book.specs.Books.{HasRoom, IsEntered, label_of, history_state_of};
ghost use Rattle.tm_book.specs.Made.{CanMake};

use crate::any_machines::AnyMachine;
use std::alloc::Global;
use std::marker::Model;
use tm_base::{Entry, Kind, Machine, NoMemory, Op, Reply, Ticket};

/// One object's history: its machine, its events in order, and its last stamp. It has places for
/// all events that it owes, so that a resume, a stop, a begin and an end never take memory.
/// Contracts see these, and how many places are free beyond the owed ones.
#[derive(Drop)]
pub struct Book {
    object: u32,
    machine: AnyMachine,
    entries: Vec<Entry>,
    stamp: u64,
    owed: usize,
}

impl Model for Book {
    ghost use Rattle.tm_book.specs.Books.{BookView};

    ghost Value = { BookView };

    ghost use Rattle.tm_book.specs.StoredBooks.{book_view, KeepsBook};

    ghost view = { book_view };

    ghost invariant = { KeepsBook };
}

impl Book {
    /// The book of an object of the kind before its first event, for threads 1 to `threads`, under the
    /// conditions of `AnyMachine::make`. It has places for what the object owes at its start.
    pub fn make(alloc: Global, object: u32, kind: Kind, threads: u32) -> Result<Book, NoMemory>
        requires { CanMake kind threads }
        ensures object { IfOk result (λ book. book.object ≡ object) }
        ensures machine { IfOk result (λ book. book.machine ≡ fresh kind threads) }
        ensures entries { IfOk result (λ book. book.entries ≡ []) }
        ensures stamp { IfOk result (λ book. book.stamp ≡ 0) }
    {
        let machine = AnyMachine::make(alloc, threads, kind)?;
        let owed = owed_at_start(kind);
        let entries = Vec::with_capacity(alloc, owed)?;
        Ok(Book {
            object,
            machine,
            entries,
            stamp: 0,
            owed,
        })
    }

    /// The object's number.
    pub fn object(&self) -> u32
        ensures { result ≡ self.now.object }
    {
        self.object
    }

    /// The object's events in order. They are a legal history.
    pub fn entries(&self) -> &[Entry]
        ensures value { result.now ≡ self.now.entries }
        ensures legal { IsHistory (label_of self.now) self.now.entries (history_state_of self.now) }
    {
        self.entries.as_slice()
    }

    /// The object's machine, which is sound.
    pub fn machine(&self) -> &AnyMachine
        ensures value { any_object result.now ≡ self.now.machine }
        ensures sound { IsSound self.now.machine }
    {
        &self.machine
    }

    /// The stamp of the object's last event, 0 where there is none.
    pub fn last_stamp(&self) -> u64
        ensures { result ≡ self.now.stamp }
    {
        self.stamp
    }

    /// How many places for events are free beyond those that are owed.
    pub fn spare(&self) -> usize
        ensures { result ≡ self.now.spare }
    {
        self.entries.capacity() - (self.entries.len() + self.owed)
    }

    /// Makes room for one call: a place for its entry and one for its resume. Where they are free
    /// already it leaves all unchanged, and answers `Ok`. Only running out of memory refuses it, and
    /// leaves all unchanged too.
    pub fn make_room(&mut self) -> Result<(), NoMemory>
        ensures room { OnOk result (2 ≤ self.new.spare) }
        ensures same { self.new ≡ record self.old { spare = self.new.spare } }
        ensures ready { 2 ≤ self.old.spare → IsOk result }
        ensures kept_where_free { 2 ≤ self.old.spare → self.new ≡ self.old }
        ensures unchanged { OnErr result (self.new ≡ self.old) }
    {
        if 2 <= self.spare() {
            return Ok(());
        }
        self.entries.reserve(self.owed + 2)?;
        Ok(())
    }

    /// Makes the thread's call in turn, and answers its entry. Room for it is there, or it is owed.
    pub fn enter(&mut self, ticket: &mut Ticket, op: Op) -> Entry
        requires may { CanStep self.old.machine ticket.old.thread op }
        requires free { ticket.old.waits ≡ None }
        requires next { ticket.old.next < 2 ^ 62 }
        requires clock { ticket.old.clock ≤ max (2 ^ 62) self.old.stamp }
        requires room { HasRoom self.old op }
        ensures { IsEntered self.old ticket.old op result self.new ticket.new }
    {
        self.append(ticket, op)
    }

    /// Resumes the thread's pending call with the reply that was granted, and answers the entry.
    /// `None` exactly where the call still waits, and so was granted no reply; then nothing changes.
    pub fn finish(&mut self, ticket: &mut Ticket) -> Option<Entry>
        requires here { ticket.old.waits ≡ Some self.old.object }
        requires pending { is_pending self.old.machine.state ticket.old.thread ≡ true }
        requires next { ticket.old.next < 2 ^ 62 }
        requires clock { ticket.old.clock ≤ max (2 ^ 62) self.old.stamp }
        ensures none { is_none result ≡ is_waiting self.old.machine.state ticket.old.thread }
        ensures granted { is_some result ≡ is_some (grant_of self.old.machine.state ticket.old.thread) }
        ensures unchanged { IfNone result (self.new ≡ self.old) }
        ensures same_ticket { IfNone result (ticket.new ≡ ticket.old) }
        ensures entered { IfSome result (λ entry. IsEntered self.old ticket.old op.Resume entry self.new ticket.new) }
    {
        self.machine.poll(ticket.thread())?;
        Some(self.append(ticket, Op::Resume))
    }

    /// `main` stops the object: each call that waits is granted `Stopped`. The reply is `Ok`.
    /// `None` exactly where the object is stopped, and then nothing changes.
    pub fn stop(&mut self, ticket: &mut Ticket) -> Option<Entry>
        requires main { ticket.old.thread ≡ 0 }
        requires next { ticket.old.next < 2 ^ 62 }
        requires clock { ticket.old.clock ≤ max (2 ^ 62) self.old.stamp }
        ensures none { is_none result ≡ self.old.machine.state.stopped }
        ensures unchanged { IfNone result (self.new ≡ self.old) }
        ensures same_ticket { IfNone result (ticket.new ≡ ticket.old) }
        ensures entered { IfSome result (λ entry. IsEntered self.old ticket.old op.Stop entry self.new ticket.new) }
        ensures ok { IfSome result (λ entry. entry.reply ≡ reply.Ok) }
    {
        if self.machine.stopped() {
            return None;
        }
        Some(self.append(ticket, Op::Stop))
    }

    /// Makes the thread's lawful event, and answers its entry.
    fn append(&mut self, ticket: &mut Ticket, op: Op) -> Entry
        requires may { CanAnswer self.old.machine ticket.old.thread op }
        requires next { ticket.old.next < 2 ^ 62 }
        requires clock { ticket.old.clock ≤ max (2 ^ 62) self.old.stamp }
        requires room { HasRoom self.old op }
        ensures { IsEntered self.old ticket.old op result self.new ticket.new }
    {
        let reply = answer(&mut self.machine, ticket.thread(), op);
        self.owed = owed_after(self.owed, op, reply);
        self.stamp = self.stamp.max(ticket.clock()) + 1;
        let entry = Entry {
            thread: ticket.thread(),
            place: ticket.next(),
            object: self.object,
            at: self.entries.len() as u64 + 1,
            stamp: self.stamp,
            op,
            reply,
        };
        self.entries.push_reserved(entry);
        ticket.advance(&entry);
        entry
    }
}

/// How many events an object of the kind owes at its start: its stop, and a thread object also its
/// begin, the resume of that, and its end.
fn owed_at_start(kind: Kind) -> usize
    ensures { result ≡ 1 + own_owed kind (start_kind_state kind) }
{
    match kind {
        Kind::Thread { .. } => 4,
        _ => 1,
    }
}

/// How many of the owed events the operation makes, or saves: a begin that need not wait saves its
/// resume.
fn paid(op: Op) -> usize
    ensures { result ≡ paid op }
{
    match op {
        Op::Begin => 2,
        Op::End { .. } | Op::Resume | Op::Stop => 1,
        _ => 0,
    }
}

/// How many events are owed after one with this reply: one more where the call waits, fewer by
/// those that it paid.
fn owed_after(owed: usize, op: Op, reply: Reply) -> usize
    requires small { owed < 2 ^ 63 }
    requires enough { paid op ≤ owed + bit (is_wait reply) }
    ensures { result + paid op ≡ owed + bit (is_wait reply) }
{
    match reply {
        Reply::Wait => owed + 1 - paid(op),
        _ => owed - paid(op),
    }
}

/// Makes the machine's lawful step, resume or stop, and answers its reply.
fn answer(machine: &mut AnyMachine, thread: u32, op: Op) -> Reply
    requires { CanAnswer (any_object machine.old) thread op }
    ensures lawful { Lawful (any_object machine.old) thread op result (any_object machine.new).state }
    ensures same { any_object machine.new ≡ changed (any_object machine.old) (any_object machine.new).state }
{
    match op {
        Op::Resume => machine.resume(thread).unwrap(),
        Op::Stop => {
            machine.stop();
            Reply::Ok
        }
        op => machine.step(thread, op),
    }
}
