ghost use Rattle.std.specs.Prelude.{◌≡◌, ◌≤◌, All, IfOk, OnErr, List, map, ℕ, false};
ghost use Rattle.tm_timeline.specs.Rows.{IsProgramThread};
ghost use Rattle.tm_outside.specs.Appending.{AppendsPrefix};
ghost use Rattle.tm_replay.specs.JointStates.{JointState};
ghost use Rattle.tm_merge.specs.Numbering.{PrefixesAreClosed};
ghost use Rattle.tm_collect.specs.Sending.{IsSent};
ghost use Rattle.tm_replay.specs.Ends.{EndsAs};
ghost use Rattle.tm_replay.specs.JointOrder.{AreOrdered};
ghost use Rattle.tm_replay.specs.JointSteps.{IsJointRun};
ghost use Rattle.tm_watch.specs.Watchers.{told_all};
ghost use Rattle.tm_session.specs.AloneTexts.{BeginsAloneText, IsAloneText};
ghost use Rattle.tm_session.specs.Shelves.{AreBooksOf, entries_of};
ghost use Rattle.tm_session.specs.Turns.{rules_of};

use crate::alone_runs::AloneRun;
use std::alloc::Global;
use tm_base::{End, Entries, MOST_CALLS, NoMemory, Rules, Sequence};
use tm_book::Book;
use tm_outside::Sink;
use tm_text::Exercise;
use tm_watch::Watcher;

/// A run that ended.
#[derive(Drop)]
pub struct Finished {
    /// How it ended.
    pub end: End,
    /// The threads that its last line names, in rising number.
    pub cut: Sequence<u32>,
    /// The books of its objects, in rising number.
    pub books: Sequence<Book>,
    /// All its events, in the order of the rows.
    pub shown: Entries,
    /// Whether a write to the sink failed. After the first that fails nothing more is written.
    pub write_fault: bool,
}

/// Runs the exercise alone: one event a turn, by the threads in cyclic order under schedule 0, and by a
/// thread that is drawn under each other one. A thread makes at most `limit` calls, its `begin` and
/// `end` not counted; the limit is at most `MOST_CALLS`. Tells the watchers of each event, and writes a row for
/// each, and the last line. Only running out of memory refuses it, and then a prefix of this text was written, and
/// not all of it.
pub fn alone<K: Sink>(
    alloc: Global,
    exercise: &Exercise,
    schedule: u64,
    limit: u32,
    sink: &mut K,
    watchers: &mut Vec<Box<dyn Watcher>>,
) -> Result<Finished, NoMemory>
    requires limit { limit ≤ MOST_CALLS }
    // The events, the end and the named threads are those of the alone run, and its text was written.
    ensures run { IfOk result (λ f. (bytes : List ℕ) × IsAloneText exercise.now (rules_of schedule limit) f.shown f.end f.cut bytes
        × IsSent (record { failed = false; faults = K.fault_count sink.old; written = K.written sink.old })
        (record { failed = f.write_fault; faults = K.fault_count sink.new; written = K.written sink.new }) bytes) }
    // They are a legal run of all objects together.
    ensures legal { IfOk result (λ f. (j : JointState) × IsJointRun exercise.now f.shown j) }
    // They have ended under the limit of calls, with this end and these threads cut.
    ensures ended { IfOk result (λ f. EndsAs exercise.now limit f.shown f.end f.cut) }
    // The threads that were cut have programs.
    ensures known { IfOk result (λ f. All (IsProgramThread exercise.now) f.cut) }
    // Their places and stamps are in order.
    ensures ordered { IfOk result (λ f. AreOrdered f.shown) }
    // Cut after any of them, they are closed under happened-before in all entries of all books, and none
    // stands twice.
    ensures closed { IfOk result (λ f. PrefixesAreClosed f.shown (entries_of f.books)) }
    // Each object's book has the object's events of these, which are a legal history.
    ensures books { IfOk result (λ f. AreBooksOf exercise.now f.shown f.books) }
    // Each watcher that is left was told of all of them and retired at none, and the others are gone.
    ensures watched { IfOk result (λ f. map (λ b. watch b) watchers.new.items ≡ told_all (map (λ b. watch b) watchers.old.items) f.shown) }
    // A prefix of the text of the exercise's alone run was written, and not all of it.
    ensures refused { OnErr result ((bytes : List ℕ) × BeginsAloneText exercise.now (rules_of schedule limit) bytes
        × AppendsPrefix (K.written sink.old) (K.written sink.new) bytes) }
    ensures never_falls { K.fault_count sink.old ≤ K.fault_count sink.new }
{
    let rules = Rules { schedule, limit };
    // What holds of every exercise is known from this call.
    let _threads = exercise.threads();
    let mut run = AloneRun::make(alloc, exercise, rules)?;
    while !run.is_over() {
        run.turn(exercise, sink, watchers, rules)?;
    }
    run.finish(alloc, exercise, sink, rules)
}
