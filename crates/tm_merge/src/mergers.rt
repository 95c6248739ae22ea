ghost use Rattle.std.specs.Prelude.{◌≡◌, ◌∷◌, ◌<◌, ◌↔◌, length, IfOk, IfSome, IsSome, OnErr, OnOk};
ghost use Rattle.std.specs.List.Sorted.{IsPermutation};
ghost use Rattle.tm_base.specs.Orders.{KeepsPredecessors, StampsRise};
ghost use Rattle.tm_merge.specs.Holding.{IsHeldAt, IsMissing};
ghost use Rattle.tm_merge.specs.MergerViews.{arrived, nothing_arrived};
ghost use Rattle.tm_merge.specs.Numbering.{HaveOwnPlaces, IsNumbered, PrefixesAreClosed};
ghost use Rattle.tm_merge.specs.Refusals.{refusal, stated};
ghost use Rattle.tm_merge.specs.Showing.{IsSettled, Joins, Settles};

use crate::holds::Hold;
use crate::intake::Intake;
use crate::refusals::Refused;
use std::alloc::Global;
use std::marker::Model;
use tm_base::{Entry, NoMemory};

/// A causal merger: it takes events in any order, and shows them in an order in which each stands after
/// all that happened before it. Contracts see the greatest number of a thread, how many objects there
/// are, the events that are shown, in order, and those that are held.
#[derive(Drop)]
pub struct Merger {
    intake: Intake,
}

impl Model for Merger {
    ghost use Rattle.tm_merge.specs.MergerViews.{MergerView};

    ghost Value = { MergerView };

    ghost use Rattle.tm_merge.specs.Intakes.{KeepsIntake, intake_view};

    ghost view = { λ m. intake_view m.intake };

    ghost invariant = { λ m. KeepsIntake m.intake };
}

impl Merger {
    /// The merger of events of threads 0 to `threads` at objects 0 to `objects` - 1, before any event.
    pub fn make(alloc: Global, threads: u32, objects: u32) -> Result<Merger, NoMemory>
        ensures { IfOk result (λ merger. merger ≡ nothing_arrived threads objects) }
    {
        let intake = Intake::make(alloc, threads, objects)?;
        Ok(Merger { intake })
    }

    /// Takes the event, which then is held. It is refused where the first of these holds: its thread,
    /// its object, a place or its stamp is out of range; an event has its place in its thread, or else its
    /// place at its object; a direct neighbour breaks the rise of stamps, looked for before and after it in
    /// its thread, then before and after it at its object; memory runs out. A refusal leaves all unchanged.
    pub fn offer(&mut self, entry: Entry) -> Result<(), Refused>
        ensures judged { stated result ≡ refusal self.old entry }
        ensures joins { OnOk result (Joins self.old entry self.new) }
        ensures arrived { OnOk result (IsPermutation (entry ∷ arrived self.old) (arrived self.new)) }
        ensures unchanged { OnErr result (self.new ≡ self.old) }
    {
        self.intake.offer(entry)
    }

    /// Shows ready events until there is none, each time the one with the least stamp, and of equal stamps
    /// the one with the least thread number. An event is ready where it is held and its direct predecessors
    /// are shown. Answers how many were shown. It takes no memory.
    pub fn settle(&mut self) -> u64
        ensures settles { Settles self.old result self.new }
        ensures arrived { IsPermutation (arrived self.old) (arrived self.new) }
    {
        self.intake.settle()
    }

    /// The events that are shown, in order. Each stands after all that happened before it (Lamport, CACM
    /// 1978), none stands twice, and the first ones, however many, are a consistent cut.
    pub fn shown(&self) -> &[Entry]
        ensures value { result.now ≡ self.now.shown }
        ensures numbered { IsNumbered self.now.shown }
        ensures in_order { KeepsPredecessors self.now.shown }
        ensures closed { PrefixesAreClosed self.now.shown (arrived self.now) }
    {
        self.intake.shown()
    }

    /// The events that are shown, in order, without a copy.
    pub fn into_shown(self) -> Vec<Entry>
        ensures { result.items ≡ self.shown }
    {
        self.intake.into_shown()
    }

    /// How many events are held, which arrived and aren't shown.
    pub fn held_count(&self) -> u64
        ensures count { result ≡ length self.now.held }
        ensures rise { StampsRise (arrived self.now) }
        ensures own { HaveOwnPlaces (arrived self.now) }
    {
        self.intake.held()
    }

    /// The held event before which `k` of them come, by rising stamp, then thread number, then place in the
    /// thread, and the place for which it waits. `None` exactly where `k` isn't below `held_count`. The
    /// missing place is the one before the event in its thread, where no event arrived there; else the one
    /// before it at its object, where none arrived there; else the place for which its direct predecessor
    /// that isn't shown waits, the thread's first. It needs that nothing was taken since `settle`, or that no
    /// event is ready.
    pub fn held(&self, k: u64) -> Option<Hold>
        requires { IsSettled self.now }
        ensures some { IsSome result ↔ (k < length self.now.held) }
        ensures entry { IfSome result (λ hold. IsHeldAt self.now k hold.entry) }
        ensures missing { IfSome result (λ hold. IsMissing self.now hold.entry hold.missing) }
    {
        self.intake.held_at(k)
    }
}
