ghost use Rattle.std.specs.Prelude.{◌≡◌, ◌≤◌, length, Contains, MatchOption, IfOk, OnErr, OnOk};
ghost use Rattle.tm_merge.specs.Holding.{IsHeldAt, IsMissing};
ghost use Rattle.tm_merge.specs.Intakes.{KeepsIntake, intake_view};
ghost use Rattle.tm_merge.specs.MergerViews.{nothing_arrived};
ghost use Rattle.tm_merge.specs.Refusals.{refusal, stated};
ghost use Rattle.tm_merge.specs.Showing.{IsSettled, Joins, Settles};

use crate::arrivals::Arrivals;
use crate::holds::{Hold, Missing};
use crate::refusals::Refused;
use std::alloc::Global;
use tm_base::{Entry, NoMemory};

/// What arrived. An event that follows what is shown takes the direct way: it is put behind the shown ones as
/// it arrives, where the lines count it as shown. How many of them are shown in fact is counted beside, and
/// the next settling puts the others into their order. Every other event goes by the lines and is held in a
/// slot.
#[derive(Drop)]
pub(crate) struct Intake {
    arrivals: Arrivals,
    shown: usize,
}

impl Intake {
    /// Nothing has arrived yet, from threads 0 to `threads` at this many objects.
    pub(crate) fn make(alloc: Global, threads: u32, objects: u32) -> Result<Intake, NoMemory>
        ensures keeps { IfOk result KeepsIntake }
        ensures view { IfOk result (λ intake. intake_view intake ≡ nothing_arrived threads objects) }
    {
        let arrivals = Arrivals::make(alloc, threads, objects)?;
        Ok(Intake { arrivals, shown: 0 })
    }

    /// Takes the event, unless it is refused or memory runs out.
    pub(crate) fn offer(&mut self, entry: Entry) -> Result<(), Refused>
        requires { KeepsIntake self.old }
        ensures keeps { KeepsIntake self.new }
        ensures judged { stated result ≡ refusal (intake_view self.old) entry }
        ensures joins { OnOk result (Joins (intake_view self.old) entry (intake_view self.new)) }
        ensures unchanged { OnErr result (intake_view self.new ≡ intake_view self.old) }
    {
        if self.arrivals.is_followed_by(&entry) {
            self.arrivals.make_room_to_follow()?;
            self.arrivals.follow(entry);
            return Ok(());
        }
        self.arrivals.hold(entry)
    }

    /// Shows events until none is ready, each time the next one, and answers how many.
    pub(crate) fn settle(&mut self) -> u64
        requires { KeepsIntake self.old }
        ensures keeps { KeepsIntake self.new }
        ensures settles { Settles (intake_view self.old) result (intake_view self.new) }
    {
        let before = self.shown;
        self.arrivals.settle();
        self.arrivals.order_from(before);
        self.shown = self.arrivals.shown().len();
        (self.shown - before) as u64
    }

    /// The events that are shown, in order.
    pub(crate) fn shown(&self) -> &[Entry]
        requires { KeepsIntake self.now }
        ensures { result.now ≡ (intake_view self.now).shown }
    {
        &self.arrivals.shown()[..self.shown]
    }

    /// The events that are shown, in order, without a copy.
    pub(crate) fn into_shown(self) -> Vec<Entry>
        requires { KeepsIntake self }
        ensures { result.items ≡ (intake_view self).shown }
    {
        let mut shown = self.arrivals.into_shown();
        shown.truncate(self.shown);
        shown
    }

    /// How many events are held.
    pub(crate) fn held(&self) -> u64
        requires { KeepsIntake self.now }
        ensures { result ≡ length (intake_view self.now).held }
    {
        let following = self.arrivals.shown().len() - self.shown;
        following as u64 + self.arrivals.held()
    }

    /// The held event before which `k` of them come, and the place for which it waits.
    pub(crate) fn held_at(&self, k: u64) -> Option<Hold>
        requires keeps { KeepsIntake self.now }
        requires settled { IsSettled (intake_view self.now) }
        ensures { MatchOption result (length (intake_view self.now).held ≤ k) (λ hold. IsHeldAt (intake_view self.now) k hold.entry × IsMissing (intake_view self.now) hold.entry hold.missing) }
    {
        let entry = self.arrivals.held_at(k)?;
        let missing = self.arrivals.missing(entry);
        Some(Hold { entry, missing })
    }
}
