ghost use Rattle.std.specs.Prelude.{◌≡◌, ◌≤◌, ◌<◌, All, length, map, ◌+◌, IfOk, List, OnErr, OnOk, false};
ghost use Rattle.tm_timeline.specs.Rows.{last_line_of, IsProgramThread};
ghost use Rattle.tm_replay.specs.Bars.{bars_of, is_over};
ghost use Rattle.tm_replay.specs.Ends.{end_of, named_of};
ghost use Rattle.tm_replay.specs.JointStates.{first_object_state, first_thread_state, unbegun};
ghost use Rattle.tm_replay.specs.Work.{work};
ghost use Rattle.tm_collect.specs.Collectors.{new_collector, shown_of};
ghost use Rattle.tm_collect.specs.Sending.{Outlet, Sends};
ghost use Rattle.tm_watch.specs.Watchers.{Watch, told_all};
ghost use Rattle.tm_session.specs.AloneRuns.{HasBegun, HasSent, IsUnderWay};
ghost use Rattle.tm_session.specs.Noting.{object_state_of};
ghost use Rattle.tm_session.specs.Records.{AreFresh, AreFirstTickets};

use crate::endings::Ending;
use crate::runs::Finished;
use std::alloc::Global;
use std::collections::VecDeque;
use tm_base::{MOST_CALLS, NoMemory, Rules, Sequence, Ticket};
use tm_book::Book;
use tm_collect::Collector;
use tm_outside::{Sink, write_all};
use tm_text::Exercise;
use tm_timeline::last_line;
use tm_watch::Watcher;

/// An alone run as far as it has come: the books of its objects by number, the tickets of its threads from
/// `main`, which is thread 0, and the collector, which has shown all its events; the thread that moved last
/// (0 where none has), the number that was drawn last (the schedule's own where none was), and the objects
/// that `main` still has to stop.
#[derive(Drop)]
pub struct AloneRun<'x> {
    pub books: Vec<Book>,
    pub tickets: Vec<Ticket>,
    pub collector: Collector<'x>,
    pub last: u32,
    pub draw: u64,
    pub stops: VecDeque<u32>,
}

impl<'x> AloneRun<'x> {
    /// Nothing has happened yet.
    pub fn make(
        alloc: Global,
        exercise: &'x Exercise,
        rules: Rules,
    ) -> Result<AloneRun<'x>, NoMemory>
        requires limit { rules.limit ≤ MOST_CALLS }
        ensures under_way { IfOk result (IsUnderWay exercise.now rules) }
        ensures fresh { IfOk result (λ run. run.collector ≡ new_collector exercise.now) }
    {
        // What holds of every exercise is known from this call.
        let _threads = exercise.threads();
        let books = make_books(alloc, exercise)?;
        let tickets = make_tickets(alloc, exercise)?;
        let collector = Collector::make(alloc, exercise)?;
        // What holds of every collector is known from this call.
        let _joint = collector.joint();
        Ok(AloneRun {
            books,
            tickets,
            collector,
            last: 0,
            draw: rules.schedule,
            stops: VecDeque::new(alloc),
        })
    }

    /// Whether every thread has ended.
    pub fn is_over(&self) -> bool
        ensures { result ≡ is_over (bars_of self.now.collector.joint.state) }
    {
        self.collector.joint().over()
    }

    /// Makes the next event in its object's book and hands it to the collector, which shows it, tells the
    /// watchers of it, and writes its row, unless a write failed before. Where memory runs out the first bytes of
    /// that row are written.
    pub fn turn<K: Sink>(
        &mut self,
        exercise: &Exercise,
        sink: &mut K,
        watchers: &mut Vec<Box<dyn Watcher>>,
        rules: Rules,
    ) -> Result<(), NoMemory>
        requires under_way { IsUnderWay exercise.now rules self.old }
        requires going { is_over (bars_of self.old.collector.joint.state) ≡ false }
        ensures under_way { OnOk result (IsUnderWay exercise.now rules self.new) }
        ensures falls { OnOk result (work rules.limit self.new.collector.joint.state < work rules.limit self.old.collector.joint.state) }
        ensures sent { OnOk result ((o : Outlet) → HasSent exercise.now self.old.collector o
            (record { failed = self.old.collector.write_fault; faults = K.fault_count sink.old; written = K.written sink.old })
            → HasSent exercise.now self.new.collector o
            (record { failed = self.new.collector.write_fault; faults = K.fault_count sink.new; written = K.written sink.new })) }
        ensures begun { OnErr result ((o : Outlet) → HasSent exercise.now self.old.collector o
            (record { failed = self.old.collector.write_fault; faults = K.fault_count sink.old; written = K.written sink.old })
            → HasBegun exercise.now rules o.written (K.written sink.new)) }
        ensures watched { OnOk result ((ws : List Watch) → map (λ b. watch b) watchers.old.items ≡ told_all ws (shown_of self.old.collector)
            → map (λ b. watch b) watchers.new.items ≡ told_all ws (shown_of self.new.collector)) }
        ensures never_falls { K.fault_count sink.old ≤ K.fault_count sink.new }
    {
        let entry = self.go(exercise, rules)?;
        self.collector.hand(entry)?;
        self.collector.pump(sink, watchers)?;
        // What holds of every collector is known from this call.
        let _joint = self.collector.joint();
        Ok(())
    }

    /// Writes the last line of a run that is over, where no write has failed. A refusal writes nothing.
    pub fn finish<K: Sink>(
        self,
        alloc: Global,
        exercise: &Exercise,
        sink: &mut K,
        rules: Rules,
    ) -> Result<Finished, NoMemory>
        requires under_way { IsUnderWay exercise.now rules self }
        ensures end { IfOk result (λ f. f.end ≡ end_of rules.limit self.entry.collector.joint.state) }
        ensures cut { IfOk result (λ f. f.cut ≡ named_of rules.limit self.entry.collector.joint.state) }
        ensures known { IfOk result (λ f. All (IsProgramThread exercise.now) f.cut) }
        ensures shown { IfOk result (λ f. f.shown ≡ shown_of self.entry.collector) }
        ensures books { IfOk result (λ f. f.books ≡ self.entry.books.items) }
        ensures sent { IfOk result (λ f. Sends
            (record { failed = self.entry.collector.write_fault; faults = K.fault_count sink.old; written = K.written sink.old })
            (record { failed = f.write_fault; faults = K.fault_count sink.new; written = K.written sink.new })
            (last_line_of exercise.now f.end (length f.shown) f.cut)) }
        ensures kept { OnErr result (K.written sink.new ≡ K.written sink.old) }
        ensures never_falls { K.fault_count sink.old ≤ K.fault_count sink.new }
    {
        let joint = self.collector.joint();
        let Ending { end, named } = Ending::of(alloc, exercise, joint, rules.limit)?;
        let line = last_line(alloc, exercise, end, joint.applied(), named.as_slice())?;
        let write_fault = send(sink, self.collector.write_fault(), line.as_slice());
        Ok(Finished {
            end,
            cut: Sequence::from_vec(named),
            books: Sequence::from_vec(self.books),
            shown: Sequence::from_vec(self.collector.into_shown()),
            write_fault,
        })
    }
}

/// The books of the exercise's objects before their first events.
fn make_books(alloc: Global, exercise: &Exercise) -> Result<Vec<Book>, NoMemory>
    ensures places { IfOk result (λ books. map object_state_of books.items
        ≡ map (λ d. first_object_state (length exercise.now.programs) d.kind) exercise.now.objects) }
    ensures fresh { IfOk result (λ books. AreFresh books.items) }
{
    let threads = exercise.threads();
    let mut books = Vec::new(alloc);
    for object in 0..exercise.objects() {
        books.push(Book::make(alloc, object, exercise.kind(object), threads)?)?;
    }
    Ok(books)
}

/// The tickets of `main` and of the exercise's threads before their first events.
fn make_tickets(alloc: Global, exercise: &Exercise) -> Result<Vec<Ticket>, NoMemory>
    ensures { IfOk result (λ tickets. AreFirstTickets (length exercise.now.programs + 1) tickets.items) }
{
    let mut tickets = Vec::new(alloc);
    for thread in 0..exercise.threads() + 1 {
        tickets.push(Ticket::make(thread))?;
    }
    Ok(tickets)
}

/// Writes a line where no write has failed, and answers whether one has now.
fn send<K: Sink>(sink: &mut K, failed: bool, line: &[u8]) -> bool
    ensures sent { Sends (record { failed = failed; faults = K.fault_count sink.old; written = K.written sink.old })
        (record { failed = result; faults = K.fault_count sink.new; written = K.written sink.new }) line.now }
    ensures never_falls { K.fault_count sink.old ≤ K.fault_count sink.new }
{
    if failed {
        return true;
    }
    write_all(sink, line).is_err()
}
