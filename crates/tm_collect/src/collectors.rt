ghost use Rattle.std.specs.Prelude.{◌≡◌, ◌≤◌, length, map, IfOk, OnErr, OnOk, MatchOption, None};
ghost use Rattle.tm_replay.specs.JointSteps.{IsJointRun};
ghost use Rattle.tm_collect.specs.Collectors.{IsCollecting, new_collector, shown_of};
ghost use Rattle.tm_collect.specs.Handing.{Hands, LacksMemory};
ghost use Rattle.tm_collect.specs.Watching.{newly_shown};
ghost use Rattle.tm_watch.specs.Watchers.{told_all};
ghost use Rattle.tm_collect.specs.Pumping.{Answers, LacksSpace};

use crate::refusals::Refusal;
use crate::writers::{Stop, Writer};
use std::alloc::Global;
use std::marker::Model;
use tm_base::{Entry, NoMemory};
use tm_joint::Joint;
use tm_merge::{Merger, Refused};
use tm_outside::Sink;
use tm_text::Exercise;
use tm_watch::Watcher;

/// The collector of a run. Contracts see the exercise, what arrived and in which order it is shown, the
/// joint state that the applied events leave, the first refusal, whether a write failed, and whether a
/// `pump` answered that memory ran out.
#[derive(Drop)]
pub struct Collector<'x> {
    merger: Merger,
    writer: Writer<'x>,
    refusal: Option<Refusal>,
    short: bool,
}

impl<'x> Model for Collector<'x> {
    ghost use Rattle.tm_collect.specs.Collectors.{CollectorView};

    ghost Value = { CollectorView };

    ghost use Rattle.tm_collect.specs.CollectorCodes.{collector_code};

    ghost coded = { collector_code };

    ghost use Rattle.tm_collect.specs.StoredCollectors.{collector_view, KeepsCollector};

    ghost view = { collector_view };

    ghost invariant = { KeepsCollector };
}

impl<'x> Collector<'x> {
    /// The collector of a run of the exercise, before any event.
    pub fn make(alloc: Global, exercise: &'x Exercise) -> Result<Collector<'x>, NoMemory>
        ensures { IfOk result (λ collector. collector ≡ new_collector exercise.now) }
    {
        let merger = Merger::make(alloc, exercise.threads(), exercise.objects())?;
        let writer = Writer::make(alloc, exercise)?;
        Ok(Collector {
            merger,
            writer,
            refusal: None,
            short: false,
        })
    }

    /// Takes the event, which `pump` shows after all that happened before it. Where the merger refuses it,
    /// the refusal is kept; where one was kept before, the event is dropped. `NoMemory` leaves all
    /// unchanged; it is also the answer after a `pump` that answered so, unless a refusal is kept.
    pub fn hand(&mut self, entry: Entry) -> Result<(), NoMemory>
        ensures hands { OnOk result (Hands self.old entry self.new) }
        ensures unchanged { OnErr result (self.new ≡ self.old) }
        ensures memory { OnErr result (LacksMemory self.old entry) }
    {
        if self.refusal.is_some() {
            return Ok(());
        }
        if self.short {
            return Err(NoMemory);
        }
        match self.merger.offer(entry) {
            Ok(()) => Ok(()),
            Err(Refused::NoMemory) => Err(NoMemory),
            Err(refused) => {
                self.refusal = Some(Refusal::Offer(refused));
                Ok(())
            }
        }
    }

    /// Shows events until none is ready, each time the one with the least stamp, and of equal stamps the one
    /// with the least thread number; applies them in that order, tells the watchers of each, and writes
    /// a row for each, unless a write failed. A watcher that retires leaves the list, and the others keep their
    /// order. Answers how many were newly shown. It stops before an event that can't happen, whose refusal
    /// is kept. Where a refusal was kept before it does nothing, and answers 0. After `NoMemory` the first
    /// bytes of the rows of the events that it newly showed are written; each later call does nothing, and
    /// answers `NoMemory`.
    pub fn pump<K: Sink>(
        &mut self,
        sink: &mut K,
        watchers: &mut Vec<Box<dyn Watcher>>,
    ) -> Result<u64, NoMemory>
        ensures answers { IfOk result (λ n. Answers self.old self.new
            (record { failed = self.old.write_fault; faults = K.fault_count sink.old; written = K.written sink.old })
            (record { failed = self.new.write_fault; faults = K.fault_count sink.new; written = K.written sink.new }) n) }
        ensures memory { OnErr result (LacksSpace self.old self.new
            (record { failed = self.old.write_fault; faults = K.fault_count sink.old; written = K.written sink.old })
            (record { failed = self.new.write_fault; faults = K.fault_count sink.new; written = K.written sink.new })) }
        ensures watched { map (λ b. watch b) watchers.new.items
            ≡ told_all (map (λ b. watch b) watchers.old.items) (newly_shown self.old self.new) }
        ensures never_falls { K.fault_count sink.old ≤ K.fault_count sink.new }
    {
        if self.short {
            return Err(NoMemory);
        }
        if self.refusal.is_some() {
            return Ok(0);
        }
        self.merger.settle();
        let before = self.writer.joint.applied();
        match self.writer.show(self.merger.shown(), sink, watchers) {
            Ok(()) => Ok(self.writer.joint.applied() - before),
            Err(Stop::Illegal(illegal)) => {
                self.refusal = Some(Refusal::Apply(illegal));
                Ok(self.writer.joint.applied() - before)
            }
            Err(Stop::NoMemory) => {
                self.short = true;
                Err(NoMemory)
            }
        }
    }

    /// The events that were applied, in order: a legal joint run of the exercise.
    pub fn shown(&self) -> &[Entry]
        ensures value { result.now ≡ shown_of self.now }
        ensures count { length result.now ≡ self.now.joint.applied }
        ensures kept { IsCollecting self.now }
    {
        &self.merger.shown()[..self.writer.joint.applied() as usize]
    }

    /// The events that were applied, in order, as `shown` has them, without a copy.
    pub fn into_shown(self) -> Vec<Entry>
        ensures { result.items ≡ shown_of self.entry }
    {
        let applied = self.writer.joint.applied() as usize;
        let mut shown = self.merger.into_shown();
        shown.truncate(applied);
        shown
    }

    /// The joint state that the applied events leave.
    pub fn joint(&self) -> &Joint<'x>
        ensures value { result.now ≡ self.now.joint }
        ensures exercise { result.now.exercise ≡ self.now.exercise }
        ensures run { IsJointRun self.now.exercise (shown_of self.now) result.now.state }
        ensures kept { IsCollecting self.now }
    {
        &self.writer.joint
    }

    /// Whether a write failed: true exactly where the sink counted a fault in a `pump`.
    pub fn write_fault(&self) -> bool
        ensures { result ≡ self.now.write_fault }
    {
        self.writer.write_fault
    }

    /// Why no more is shown: the first refusal, of an event that was handed in or of one to be applied.
    pub fn refusal(&self) -> Option<Refusal>
        ensures { result ≡ self.now.refusal }
    {
        self.refusal
    }
}
