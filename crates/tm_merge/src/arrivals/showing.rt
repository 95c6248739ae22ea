ghost use Rattle.std.specs.Prelude.{◌≡◌, ◌<◌, ◌+◌, ◌==◌, MatchOption, length};
ghost use Rattle.tm_merge.specs.Candidates.{IsBestBelow, IsNextIn, IsReadyIn, NoneReadyIn};
ghost use Rattle.tm_merge.specs.ReadyThreads.{KeepsAll, ListsAllReady, ListsReady};
ghost use Rattle.tm_merge.specs.Showing.{IsNext, IsSettled, Settles, Shows};
ghost use Rattle.tm_merge.specs.StoredArrivals.{KeepsArrivals, view_of};

use super::Arrivals;
use tm_base::Entry;

/// An event that is held, and its slot.
#[derive(Clone, Copy)]
pub(crate) struct Candidate {
    slot: usize,
    entry: Entry,
}

impl Arrivals {
    /// The thread's event that is ready.
    pub(super) fn ready_in(&self, thread: usize) -> Option<Candidate>
        requires keeps { KeepsArrivals self.now }
        requires known { thread < length self.now.threads.items }
        ensures { MatchOption result (NoneReadyIn self.now thread) (λ candidate. IsReadyIn self.now thread candidate) }
    {
        let slot = self.threads[thread].next()?;
        let entry = self.slots[slot]?;
        let line = &self.objects[entry.object as usize];
        if entry.at - 1 != line.shown() {
            return None;
        }
        Some(Candidate { slot, entry })
    }

    /// The sooner of the best candidate so far and that of the listed thread.
    fn better(&self, index: usize, best: Option<Candidate>) -> Option<Candidate>
        requires all { KeepsAll self.now }
        requires known { index < length self.now.ready.items }
        requires best { IsBestBelow self.now index best }
        ensures { IsBestBelow self.now (index + 1) result }
    {
        let Some(next) = self.ready_in(self.ready[index] as usize) else {
            return best;
        };
        let Some(other) = best else {
            return Some(next);
        };
        if next.entry.stamp < other.entry.stamp {
            return Some(next);
        }
        if next.entry.stamp == other.entry.stamp && next.entry.thread < other.entry.thread {
            return Some(next);
        }
        Some(other)
    }

    /// The ready event with the least stamp, and of those the one with the least thread number.
    fn soonest(&self) -> Option<Candidate>
        requires { KeepsAll self.now }
        ensures { MatchOption result (IsSettled (view_of self.now)) (λ candidate. IsNextIn self.now candidate) }
    {
        let mut best = None;
        for index in 0..self.ready.len() {
            best = self.better(index, best);
        }
        best
    }

    /// The candidate, which is next, is put with the shown ones. The list of ready threads stays as it was.
    fn move_shown(&mut self, candidate: Candidate)
        requires keeps { KeepsArrivals self.old }
        requires next { IsNextIn self.old candidate }
        ensures keeps { KeepsArrivals self.new }
        ensures shows { Shows (view_of self.old) candidate.entry (view_of self.new) }
        ensures listed { self.new.ready ≡ self.old.ready }
    {
        let Candidate { slot, entry } = candidate;
        self.slots[slot] = None;
        self.shown.push_reserved(entry);
        self.threads[entry.thread as usize].show(entry.place, entry);
        self.objects[entry.object as usize].show(entry.at, entry);
        self.held -= 1;
    }

    /// The candidate, which is next, is shown. Only the next events of its thread and at its object can become
    /// ready by it.
    fn show(&mut self, candidate: Candidate)
        requires all { KeepsAll self.old }
        requires next { IsNextIn self.old candidate }
        ensures all { KeepsAll self.new }
        ensures shows { Shows (view_of self.old) candidate.entry (view_of self.new) }
    {
        self.move_shown(candidate);
        self.list_next_at(candidate.entry.object);
        self.unlist_if_not_ready(candidate.entry.thread);
    }

    /// Gives the slots up, once they are all free.
    fn forget_slots(&mut self)
        requires { KeepsArrivals self.old }
        ensures keeps { KeepsArrivals self.new }
        ensures same { view_of self.new ≡ view_of self.old }
        ensures listed { self.new.ready ≡ self.old.ready }
    {
        if self.held == 0 {
            self.slots.clear();
        }
    }

    /// Shows events until none is ready, each time the next one, and answers how many.
    pub(crate) fn settle(&mut self) -> u64
        requires { KeepsAll self.old }
        ensures all { KeepsAll self.new }
        ensures settles { Settles (view_of self.old) result (view_of self.new) }
    {
        let mut count = 0;
        while let Some(candidate) = self.soonest() {
            self.show(candidate);
            count += 1;
        }
        self.forget_slots();
        count
    }
}
