ghost use Rattle.std.specs.Prelude.{◌≡◌, ◌<◌, ◌≤◌, suc, length};
ghost use Rattle.tm_merge.specs.MergerViews.{arrived};
ghost use Rattle.tm_merge.specs.Places.{at_place, at_object};
ghost use Rattle.tm_merge.specs.Refusals.{clash, clash_after, clash_at_object, clash_before, clash_in_thread, range_fault, refusal, twice};
ghost use Rattle.tm_merge.specs.StoredArrivals.{KeepsArrivals, view_of};

use super::Arrivals;
use crate::refusals::{Field, Refused};
use tm_base::Entry;

/// The event before, where its stamp isn't smaller.
pub(crate) fn clash_before(before: Option<Entry>, entry: &Entry) -> Option<Entry>
    ensures { result ≡ clash_before before entry.now }
{
    match before {
        Some(event) if event.stamp >= entry.stamp => Some(event),
        _ => None,
    }
}

/// The event after, where its stamp isn't greater.
pub(crate) fn clash_after(after: Option<Entry>, entry: &Entry) -> Option<Entry>
    ensures { result ≡ clash_after after entry.now }
{
    match after {
        Some(event) if event.stamp <= entry.stamp => Some(event),
        _ => None,
    }
}

impl Arrivals {
    /// The first number of the event that is out of range.
    fn range_fault(&self, entry: &Entry) -> Option<Field>
        requires { KeepsArrivals self.now }
        ensures { result ≡ range_fault (view_of self.now) entry.now }
    {
        if entry.thread as usize >= self.threads.len() {
            return Some(Field::Thread);
        }
        if entry.object as usize >= self.objects.len() {
            return Some(Field::Object);
        }
        if entry.place == 0 {
            return Some(Field::Place);
        }
        if entry.at == 0 {
            return Some(Field::At);
        }
        if entry.stamp == 0 {
            return Some(Field::Stamp);
        }
        None
    }

    /// The event that arrived with the next place in the thread.
    fn after_place(&self, thread: u32, place: u64) -> Option<Entry>
        requires keeps { KeepsArrivals self.now }
        requires known { thread < length self.now.threads.items }
        ensures { result ≡ at_place (arrived (view_of self.now)) thread (suc place) }
    {
        self.at_place(thread, place.checked_add(1)?)
    }

    /// The event that arrived with the next place at the object.
    fn after_object(&self, object: u32, at: u64) -> Option<Entry>
        requires keeps { KeepsArrivals self.now }
        requires known { object < length self.now.objects.items }
        ensures { result ≡ at_object (arrived (view_of self.now)) object (suc at) }
    {
        self.at_object(object, at.checked_add(1)?)
    }

    /// The event that arrived with this one's place in its thread, else with its place at its object.
    fn twice(&self, entry: &Entry) -> Option<Entry>
        requires keeps { KeepsArrivals self.now }
        requires thread { entry.now.thread < length self.now.threads.items }
        requires object { entry.now.object < length self.now.objects.items }
        ensures { result ≡ twice (view_of self.now) entry.now }
    {
        match self.at_place(entry.thread, entry.place) {
            Some(kept) => Some(kept),
            None => self.at_object(entry.object, entry.at),
        }
    }

    /// The first neighbour in the event's thread that breaks the rise of stamps.
    fn clash_in_thread(&self, entry: &Entry) -> Option<Entry>
        requires keeps { KeepsArrivals self.now }
        requires thread { entry.now.thread < length self.now.threads.items }
        requires place { 0 < entry.now.place }
        ensures { result ≡ clash_in_thread (view_of self.now) entry.now }
    {
        match clash_before(self.at_place(entry.thread, entry.place - 1), entry) {
            Some(kept) => Some(kept),
            None => clash_after(self.after_place(entry.thread, entry.place), entry),
        }
    }

    /// The first neighbour at the event's object that breaks the rise of stamps.
    fn clash_at_object(&self, entry: &Entry) -> Option<Entry>
        requires keeps { KeepsArrivals self.now }
        requires object { entry.now.object < length self.now.objects.items }
        requires at { 0 < entry.now.at }
        ensures { result ≡ clash_at_object (view_of self.now) entry.now }
    {
        match clash_before(self.at_object(entry.object, entry.at - 1), entry) {
            Some(kept) => Some(kept),
            None => clash_after(self.after_object(entry.object, entry.at), entry),
        }
    }

    /// The first neighbour that breaks the rise of stamps.
    fn clash(&self, entry: &Entry) -> Option<Entry>
        requires keeps { KeepsArrivals self.now }
        requires thread { entry.now.thread < length self.now.threads.items }
        requires object { entry.now.object < length self.now.objects.items }
        requires place { 0 < entry.now.place }
        requires at { 0 < entry.now.at }
        ensures { result ≡ clash (view_of self.now) entry.now }
    {
        match self.clash_in_thread(entry) {
            Some(kept) => Some(kept),
            None => self.clash_at_object(entry),
        }
    }

    /// Why the event is refused, unless memory runs out.
    pub(crate) fn refusal(&self, entry: &Entry) -> Option<Refused>
        requires { KeepsArrivals self.now }
        ensures { result ≡ refusal (view_of self.now) entry.now }
    {
        if let Some(field) = self.range_fault(entry) {
            return Some(Refused::OutOfRange(field));
        }
        if let Some(kept) = self.twice(entry) {
            return Some(Refused::TwicePlace(kept, *entry));
        }
        let kept = self.clash(entry)?;
        Some(Refused::StampOrder(kept, *entry))
    }
}
