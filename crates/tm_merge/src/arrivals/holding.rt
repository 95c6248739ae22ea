ghost use Rattle.std.specs.Prelude.{◌≡◌, ◌<◌, ◌≤◌, length, Contains, IsSome, MatchOption};
ghost use Rattle.tm_merge.specs.Holding.{IsHeldAt, IsMissing, comes_before, gap};
ghost use Rattle.tm_merge.specs.HeldOrder.{IsBehind, IsLeastAfter, nearer};
ghost use Rattle.tm_merge.specs.MergerViews.{arrived};
ghost use Rattle.tm_merge.specs.Places.{at_object, at_place, has_at, has_place};
ghost use Rattle.tm_merge.specs.Showing.{IsSettled};
ghost use Rattle.tm_merge.specs.StoredArrivals.{KeepsArrivals, occupants, view_of};

use super::Arrivals;
use crate::holds::Missing;
use tm_base::Entry;

/// The order of stamps, then of threads, then of places.
pub(crate) fn comes_before(a: &Entry, b: &Entry) -> bool
    ensures { result ≡ comes_before a.now b.now }
{
    a.stamp < b.stamp
        || (a.stamp == b.stamp
            && (a.thread < b.thread || (a.thread == b.thread && a.place < b.place)))
}

/// The candidate, where it comes after the current event and before the best one so far; else the best one.
fn nearer(current: Option<Entry>, best: Option<Entry>, candidate: Option<Entry>) -> Option<Entry>
    ensures { result ≡ nearer current best candidate }
{
    let Some(entry) = candidate else {
        return best;
    };
    if let Some(passed) = current {
        if !comes_before(&passed, &entry) {
            return best;
        }
    }
    if let Some(other) = best {
        if !comes_before(&entry, &other) {
            return best;
        }
    }
    Some(entry)
}

impl Arrivals {
    /// The held event that comes directly after the current one, or the first one.
    fn next_held(&self, current: Option<Entry>) -> Option<Entry>
        ensures { IsLeastAfter current (occupants self.now.slots.items) result }
    {
        let mut best = None;
        for slot in &self.slots {
            best = nearer(current, best, *slot);
        }
        best
    }

    /// The held event before which `k` of them come.
    pub(crate) fn held_at(&self, k: u64) -> Option<Entry>
        requires { KeepsArrivals self.now }
        ensures { MatchOption result (length (view_of self.now).held ≤ k) (λ entry. IsHeldAt (view_of self.now) k entry) }
    {
        let mut current = self.next_held(None)?;
        for _ in 0..k {
            current = self.next_held(Some(current))?;
        }
        Some(current)
    }

    /// Whether an event with this place in this thread arrived; place 0 counts as arrived.
    fn has_place(&self, thread: u32, place: u64) -> bool
        requires keeps { KeepsArrivals self.now }
        requires known { thread < length self.now.threads.items }
        ensures { result ≡ has_place (arrived (view_of self.now)) thread place }
    {
        place == 0 || self.at_place(thread, place).is_some()
    }

    /// Whether an event with this place at this object arrived; place 0 counts as arrived.
    fn has_at(&self, object: u32, at: u64) -> bool
        requires keeps { KeepsArrivals self.now }
        requires known { object < length self.now.objects.items }
        ensures { result ≡ has_at (arrived (view_of self.now)) object at }
    {
        at == 0 || self.at_object(object, at).is_some()
    }

    /// The place directly before the event where no event arrived.
    fn gap(&self, event: &Entry) -> Option<Missing>
        requires keeps { KeepsArrivals self.now }
        requires held { Contains (view_of self.now).held event.now }
        ensures { result ≡ gap (view_of self.now) event.now }
    {
        let thread = event.thread;
        let place = event.place - 1;
        if !self.has_place(thread, place) {
            return Some(Missing::Thread { thread, place });
        }
        let object = event.object;
        let at = event.at - 1;
        if !self.has_at(object, at) {
            return Some(Missing::Object { object, at });
        }
        None
    }

    /// The event for which the event waits: its direct predecessor that isn't shown, the thread's first.
    /// `None` exactly where a place before the event has a gap.
    fn waits_for(&self, event: &Entry) -> Option<Entry>
        requires keeps { KeepsArrivals self.now }
        requires held { Contains (view_of self.now).held event.now }
        requires settled { IsSettled (view_of self.now) }
        ensures { MatchOption result (IsSome (gap (view_of self.now) event.now)) (λ before. IsBehind (view_of self.now) event.now before) }
    {
        if self.gap(event).is_some() {
            return None;
        }
        match self.held_place(event.thread, event.place - 1) {
            Some(before) => Some(before),
            None => self.held_object(event.object, event.at - 1),
        }
    }

    /// The place for which the event, which is held, waits.
    pub(crate) fn missing(&self, entry: Entry) -> Missing
        requires keeps { KeepsArrivals self.now }
        requires held { Contains (view_of self.now).held entry }
        requires settled { IsSettled (view_of self.now) }
        ensures { IsMissing (view_of self.now) entry result }
    {
        let mut event = entry;
        while let Some(before) = self.waits_for(&event) {
            event = before;
        }
        match self.gap(&event) {
            Some(missing) => missing,
            None => unreachable!(),
        }
    }
}
