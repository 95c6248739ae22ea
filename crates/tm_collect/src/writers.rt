ghost use Rattle.std.specs.Prelude.{◌≡◌, ◌<◌, ◌≤◌, ◌+◌, ◌^◌, length, map, slice_get, All, IfErr, IfOk, OnErr, OnOk, false};
ghost use Rattle.tm_collect.specs.Advancing.{IsInRange, Shows, StopsBy};
ghost use Rattle.tm_collect.specs.Sending.{Sends};
ghost use Rattle.tm_collect.specs.Transcripts.{first_joint};
ghost use Rattle.tm_collect.specs.Watching.{newly};
ghost use Rattle.tm_watch.specs.Watchers.{told_all};

use std::alloc::Global;
use tm_base::{Entry, NoMemory};
use tm_joint::{Illegal, Joint};
use tm_outside::{Sink, write_all};
use tm_text::Exercise;
use tm_timeline::append_row;
use tm_watch::{Watcher, tell};

/// The greatest number of events that a replayer takes. No memory holds so many.
const MOST_EVENTS: u64 = 1 << 62;

/// Why a writer went no further.
#[derive(Clone, Copy, Debug, PartialEq, Eq)]
pub enum Stop {
    Illegal(Illegal),
    NoMemory,
}

/// Applies events and writes their rows: the joint state so far, whether a write has failed, and the line that
/// was made last. Each is made where the one before it stood.
#[derive(Drop)]
pub struct Writer<'x> {
    pub exercise: &'x Exercise,
    pub joint: Joint<'x>,
    pub write_fault: bool,
    pub row: Vec<u8>,
}

impl<'x> Writer<'x> {
    /// Nothing was applied or written yet.
    pub fn make(alloc: Global, exercise: &'x Exercise) -> Result<Writer<'x>, NoMemory>
        ensures joint { IfOk result (λ writer. writer.joint ≡ first_joint exercise.now) }
        ensures exercise { IfOk result (λ writer. writer.exercise.now ≡ exercise.now) }
        ensures untried { IfOk result (λ writer. writer.write_fault ≡ false) }
    {
        let joint = Joint::make(alloc, exercise)?;
        Ok(Writer {
            exercise,
            joint,
            write_fault: false,
            row: Vec::new(alloc),
        })
    }

    /// Applies all events of the list that weren't, in order, tells the watchers of each, and writes a row for
    /// each, unless a write failed. It stops before an event that can't happen, and where memory runs out.
    pub fn show<K: Sink>(
        &mut self,
        shown: &[Entry],
        sink: &mut K,
        watchers: &mut Vec<Box<dyn Watcher>>,
    ) -> Result<(), Stop>
        requires exercise { self.old.joint.exercise ≡ self.old.exercise.now }
        requires ranges { All (IsInRange self.old.exercise.now) shown.now }
        requires left { self.old.joint.applied ≤ length shown.now }
        ensures shows { OnOk result (Shows self.old.exercise.now shown.now self.old.joint self.new.joint
            (record { failed = self.old.write_fault; faults = K.fault_count sink.old; written = K.written sink.old })
            (record { failed = self.new.write_fault; faults = K.fault_count sink.new; written = K.written sink.new })) }
        ensures whole { OnOk result (self.new.joint.applied ≡ length shown.now) }
        ensures stops { IfErr result (λ stop. StopsBy self.old.exercise.now shown.now self.old.joint self.new.joint
            (record { failed = self.old.write_fault; faults = K.fault_count sink.old; written = K.written sink.old })
            (record { failed = self.new.write_fault; faults = K.fault_count sink.new; written = K.written sink.new }) stop) }
        ensures exercise { self.new.exercise ≡ self.old.exercise }
        ensures watched { map (λ b. watch b) watchers.new.items
            ≡ told_all (map (λ b. watch b) watchers.old.items) (newly shown.now self.old.joint.applied self.new.joint.applied) }
        ensures never_falls { K.fault_count sink.old ≤ K.fault_count sink.new }
    {
        while self.joint.applied() < shown.len() as u64 {
            if let Err(stop) = self.show_next(shown, sink, watchers) {
                return Err(stop);
            }
        }
        Ok(())
    }

    /// Applies the next event of the list, tells the watchers of it, and writes its row, unless a write failed.
    fn show_next<K: Sink>(
        &mut self,
        shown: &[Entry],
        sink: &mut K,
        watchers: &mut Vec<Box<dyn Watcher>>,
    ) -> Result<(), Stop>
        requires exercise { self.old.joint.exercise ≡ self.old.exercise.now }
        requires ranges { All (IsInRange self.old.exercise.now) shown.now }
        requires left { self.old.joint.applied < length shown.now }
        ensures shows { OnOk result (Shows self.old.exercise.now shown.now self.old.joint self.new.joint
            (record { failed = self.old.write_fault; faults = K.fault_count sink.old; written = K.written sink.old })
            (record { failed = self.new.write_fault; faults = K.fault_count sink.new; written = K.written sink.new })) }
        ensures counted { OnOk result (self.new.joint.applied ≡ self.old.joint.applied + 1) }
        ensures stops { IfErr result (λ stop. StopsBy self.old.exercise.now shown.now self.old.joint self.new.joint
            (record { failed = self.old.write_fault; faults = K.fault_count sink.old; written = K.written sink.old })
            (record { failed = self.new.write_fault; faults = K.fault_count sink.new; written = K.written sink.new }) stop) }
        ensures exercise { self.new.exercise ≡ self.old.exercise }
        ensures later { self.old.joint.applied ≤ self.new.joint.applied }
        ensures watched { map (λ b. watch b) watchers.new.items
            ≡ told_all (map (λ b. watch b) watchers.old.items) (newly shown.now self.old.joint.applied self.new.joint.applied) }
        ensures never_falls { K.fault_count sink.old ≤ K.fault_count sink.new }
    {
        let before = self.joint.applied();
        if before >= MOST_EVENTS {
            return Err(Stop::NoMemory);
        }
        let entry = shown[before as usize];
        if let Err(illegal) = self.joint.apply(&entry) {
            return Err(Stop::Illegal(illegal));
        }
        tell(watchers, &entry);
        if self.write_fault {
            // No row is made that nobody would see.
            return Ok(());
        }
        let number = self.joint.applied();
        let bars = self.joint.bars();
        self.row.clear();
        let Ok(()) = append_row(&mut self.row, self.exercise, number, &entry, bars) else {
            return Err(Stop::NoMemory);
        };
        self.send_row(sink);
        Ok(())
    }

    /// Writes the row in one piece, unless a write failed before.
    pub fn send_row<K: Sink>(&mut self, sink: &mut K)
        ensures sent { Sends
            (record { failed = self.old.write_fault; faults = K.fault_count sink.old; written = K.written sink.old })
            (record { failed = self.new.write_fault; faults = K.fault_count sink.new; written = K.written sink.new }) self.old.row.items }
        ensures joint { self.new.joint ≡ self.old.joint }
        ensures exercise { self.new.exercise ≡ self.old.exercise }
        ensures never_falls { K.fault_count sink.old ≤ K.fault_count sink.new }
    {
        let bytes = self.row.as_slice();
        if !self.write_fault {
            self.write_fault = write_all(sink, bytes).is_err();
        }
    }
}
