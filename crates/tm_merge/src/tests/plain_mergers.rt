ghost use Rattle.std.specs.Prelude.{◌≡◌, ◌<◌, suc, length, IfOk, OnErr, OnOk, MatchOption};
ghost use Rattle.tm_merge.specs.MergerViews.{arrived, nothing_arrived};
ghost use Rattle.tm_merge.specs.PlainCandidates.{IsNextAt, IsSoonestBelow, ShowsOne};
ghost use Rattle.tm_merge.specs.Places.{at_object, at_place, has_predecessors};
ghost use Rattle.tm_merge.specs.Refusals.{clash_at_object, clash_in_thread, range_fault, refusal, stated, twice};
ghost use Rattle.tm_merge.specs.Showing.{IsSettled, Joins, Settles};

use crate::arrivals::holding::comes_before;
use crate::arrivals::refusing::{clash_after, clash_before};
use crate::arrivals::{event_at_object, event_at_place};
use crate::holds::{Hold, Missing};
use crate::refusals::{Field, Refused};
use std::alloc::Global;
use std::marker::Model;
use tm_base::{Entry, NoMemory};

/// A merger over plain lists, which it searches whole. `offer` and `settle` have the clauses of `Merger`; of
/// `held` no clause speaks.
#[derive(Drop)]
pub(super) struct PlainMerger {
    threads: u32,
    objects: u32,
    shown: Vec<Entry>,
    held: Vec<Entry>,
}

impl Model for PlainMerger {
    ghost use Rattle.std.specs.Prelude.{◌≤◌, ◌+◌, length};
    ghost use Rattle.std.specs.Vec.{vec_capacity};
    ghost use Rattle.tm_merge.specs.MergerViews.{MergerView};

    ghost Value = { MergerView };

    ghost view = { λ m. record { threads = m.threads; objects = m.objects; shown = m.shown.items; held = m.held.items } };

    ghost invariant = { λ m. length m.shown.items + length m.held.items ≤ vec_capacity m.shown };
}

fn after_place(events: &[Entry], thread: u32, place: u64) -> Option<Entry>
    ensures { result ≡ at_place events.now thread (suc place) }
{
    for event in events {
        if event.thread == thread && event.place > place && event.place - 1 == place {
            return Some(*event);
        }
    }
    None
}

fn after_object(events: &[Entry], object: u32, at: u64) -> Option<Entry>
    ensures { result ≡ at_object events.now object (suc at) }
{
    for event in events {
        if event.object == object && event.at > at && event.at - 1 == at {
            return Some(*event);
        }
    }
    None
}

fn has_predecessors(shown: &[Entry], entry: &Entry) -> bool
    ensures { result ≡ has_predecessors shown.now entry.now }
{
    let place = entry.place.saturating_sub(1);
    let at = entry.at.saturating_sub(1);
    (place == 0 || event_at_place(shown, entry.thread, place).is_some())
        && (at == 0 || event_at_object(shown, entry.object, at).is_some())
}

impl PlainMerger {
    pub(super) fn make(alloc: Global, threads: u32, objects: u32) -> Result<PlainMerger, NoMemory>
        ensures { IfOk result (λ merger. merger ≡ nothing_arrived threads objects) }
    {
        Ok(PlainMerger {
            threads,
            objects,
            shown: Vec::new(alloc),
            held: Vec::new(alloc),
        })
    }

    fn range_fault(&self, entry: &Entry) -> Option<Field>
        ensures { result ≡ range_fault self.now entry.now }
    {
        if entry.thread > self.threads {
            return Some(Field::Thread);
        }
        if entry.object >= self.objects {
            return Some(Field::Object);
        }
        if entry.place == 0 {
            return Some(Field::Place);
        }
        if entry.at == 0 {
            return Some(Field::At);
        }
        if entry.stamp == 0 {
            return Some(Field::Stamp);
        }
        None
    }

    fn arrived_at_place(&self, thread: u32, place: u64) -> Option<Entry>
        ensures { result ≡ at_place (arrived self.now) thread place }
    {
        match event_at_place(self.shown.as_slice(), thread, place) {
            Some(event) => Some(event),
            None => event_at_place(self.held.as_slice(), thread, place),
        }
    }

    fn arrived_at_object(&self, object: u32, at: u64) -> Option<Entry>
        ensures { result ≡ at_object (arrived self.now) object at }
    {
        match event_at_object(self.shown.as_slice(), object, at) {
            Some(event) => Some(event),
            None => event_at_object(self.held.as_slice(), object, at),
        }
    }

    fn arrived_after_place(&self, thread: u32, place: u64) -> Option<Entry>
        ensures { result ≡ at_place (arrived self.now) thread (suc place) }
    {
        match after_place(self.shown.as_slice(), thread, place) {
            Some(event) => Some(event),
            None => after_place(self.held.as_slice(), thread, place),
        }
    }

    fn arrived_after_object(&self, object: u32, at: u64) -> Option<Entry>
        ensures { result ≡ at_object (arrived self.now) object (suc at) }
    {
        match after_object(self.shown.as_slice(), object, at) {
            Some(event) => Some(event),
            None => after_object(self.held.as_slice(), object, at),
        }
    }

    fn twice(&self, entry: &Entry) -> Option<Entry>
        ensures { result ≡ twice self.now entry.now }
    {
        match self.arrived_at_place(entry.thread, entry.place) {
            Some(kept) => Some(kept),
            None => self.arrived_at_object(entry.object, entry.at),
        }
    }

    fn clash_in_thread(&self, entry: &Entry) -> Option<Entry>
        ensures { result ≡ clash_in_thread self.now entry.now }
    {
        let place = entry.place.saturating_sub(1);
        match clash_before(self.arrived_at_place(entry.thread, place), entry) {
            Some(kept) => Some(kept),
            None => clash_after(self.arrived_after_place(entry.thread, entry.place), entry),
        }
    }

    fn clash_at_object(&self, entry: &Entry) -> Option<Entry>
        ensures { result ≡ clash_at_object self.now entry.now }
    {
        let at = entry.at.saturating_sub(1);
        match clash_before(self.arrived_at_object(entry.object, at), entry) {
            Some(kept) => Some(kept),
            None => clash_after(self.arrived_after_object(entry.object, entry.at), entry),
        }
    }

    fn refusal(&self, entry: &Entry) -> Option<Refused>
        ensures { result ≡ refusal self.now entry.now }
    {
        if let Some(field) = self.range_fault(entry) {
            return Some(Refused::OutOfRange(field));
        }
        if let Some(kept) = self.twice(entry) {
            return Some(Refused::TwicePlace(kept, *entry));
        }
        if let Some(kept) = self.clash_in_thread(entry) {
            return Some(Refused::StampOrder(kept, *entry));
        }
        let kept = self.clash_at_object(entry)?;
        Some(Refused::StampOrder(kept, *entry))
    }

    pub(super) fn shown(&self) -> &[Entry]
        ensures { result.now ≡ self.now.shown }
    {
        self.shown.as_slice()
    }

    pub(super) fn held_count(&self) -> u64
        ensures { result ≡ length self.now.held }
    {
        self.held.len() as u64
    }

    pub(super) fn offer(&mut self, entry: Entry) -> Result<(), Refused>
        ensures judged { stated result ≡ refusal self.old entry }
        ensures joins { OnOk result (Joins self.old entry self.new) }
        ensures unchanged { OnErr result (self.new ≡ self.old) }
    {
        if let Some(refused) = self.refusal(&entry) {
            return Err(refused);
        }
        match self.shown.reserve(self.held.len() + 1) {
            Ok(()) => {}
            Err(_) => return Err(Refused::NoMemory),
        }
        match self.held.push(entry) {
            Ok(()) => {}
            Err(_) => return Err(Refused::NoMemory),
        }
        Ok(())
    }

    /// The sooner of the best one so far and this one, if it is ready.
    fn sooner(&self, best: Option<usize>, i: usize) -> Option<usize>
        requires within { i < length self.now.held }
        requires best { IsSoonestBelow self.now i best }
        ensures { IsSoonestBelow self.now (suc i) result }
    {
        let entry = self.held[i];
        if !has_predecessors(self.shown.as_slice(), &entry) {
            return best;
        }
        let Some(index) = best else {
            return Some(i);
        };
        let other = self.held[index];
        if entry.stamp < other.stamp {
            return Some(i);
        }
        if entry.stamp == other.stamp && entry.thread < other.thread {
            return Some(i);
        }
        Some(index)
    }

    fn next(&self) -> Option<usize>
        ensures { MatchOption result (IsSettled self.now) (λ i. IsNextAt self.now i) }
    {
        let mut best = None;
        for i in 0..self.held.len() {
            best = self.sooner(best, i);
        }
        best
    }

    fn show(&mut self, index: usize)
        requires { IsNextAt self.old index }
        ensures { ShowsOne self.old self.new }
    {
        let entry = self.held.remove(index);
        self.shown.push_reserved(entry);
    }

    pub(super) fn settle(&mut self) -> u64
        ensures { Settles self.old result self.new }
    {
        let before = self.held_count();
        while let Some(index) = self.next() {
            self.show(index);
        }
        before - self.held_count()
    }

    /// How many held events come before this one.
    fn rank(&self, event: &Entry) -> u64 {
        self.held
            .iter()
            .filter(|other| comes_before(other, event))
            .count() as u64
    }

    fn gap(&self, event: &Entry) -> Option<Missing> {
        let thread = event.thread;
        let place = event.place.saturating_sub(1);
        if place != 0 && self.arrived_at_place(thread, place).is_none() {
            return Some(Missing::Thread { thread, place });
        }
        let object = event.object;
        let at = event.at.saturating_sub(1);
        if at != 0 && self.arrived_at_object(object, at).is_none() {
            return Some(Missing::Object { object, at });
        }
        None
    }

    fn held_before(&self, event: &Entry) -> Option<Entry> {
        let held = self.held.as_slice();
        match event_at_place(held, event.thread, event.place.saturating_sub(1)) {
            Some(before) => Some(before),
            None => event_at_object(held, event.object, event.at.saturating_sub(1)),
        }
    }

    /// The place at the end of the walk from the event, which has no more steps than there are held events.
    fn missing(&self, entry: Entry) -> Option<Missing> {
        let mut event = entry;
        for _ in 0..self.held.len() {
            if let Some(missing) = self.gap(&event) {
                return Some(missing);
            }
            event = self.held_before(&event)?;
        }
        None
    }

    pub(super) fn held(&self, k: u64) -> Option<Hold> {
        for event in &self.held {
            if self.rank(event) == k {
                let missing = self.missing(*event)?;
                return Some(Hold {
                    entry: *event,
                    missing,
                });
            }
        }
        None
    }
}
