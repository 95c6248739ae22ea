ghost use Rattle.std.specs.Prelude.{◌≡◌, ◌^◌, ◌<◌, suc, None, Some, OnOk, MatchOption, nat_eq};
ghost use Rattle.std.specs.Bool.{OnTrue};
ghost use Rattle.std.specs.HashMap.{get};
ghost use Rattle.tm_merge.specs.Following.{IsBare, IsFollowedBy};
ghost use Rattle.tm_merge.specs.Lines.{Gains, HasRoomAt, IsNewLine, IsSameLine, ShowsNext, slot_at};

use std::alloc::Global;
use std::collections::{HashMap, VecDeque};
use tm_base::{Entry, NoMemory};

/// The line of one thread or of one object, as in Lamport's diagrams of space and time. Its events are
/// numbered from 1. Those that are shown are its first ones; of the others it keeps the slot in which each
/// is held.
#[derive(Drop)]
pub(crate) struct Line {
    shown: u64,
    last: Option<Entry>,
    waiting: VecDeque<usize>,
    early: HashMap<u64, usize>,
}

impl Line {
    /// The line before its first event. It takes no memory.
    pub(crate) fn make(alloc: Global) -> Line
        ensures { IsNewLine result }
    {
        Line {
            shown: 0,
            last: None,
            waiting: VecDeque::new(alloc),
            early: HashMap::new(alloc),
        }
    }

    /// How many of its events are shown, which is the number of the last of them.
    pub(crate) fn shown(&self) -> u64
        ensures { result ≡ self.now.shown }
    {
        self.shown
    }

    /// The last event that is shown.
    pub(crate) fn last(&self) -> Option<Entry>
        ensures { result ≡ self.now.last }
    {
        self.last
    }

    /// The slot in which the event with this number is held.
    pub(crate) fn slot(&self, number: u64) -> Option<usize>
        ensures { result ≡ slot_at self.now number }
    {
        if number <= self.shown {
            return None;
        }
        let behind = number - self.shown - 1;
        match self.waiting.get(behind as usize) {
            Some(slot) => Some(*slot),
            None => self.early_slot(number),
        }
    }

    /// The slot in which the next event is held, the one directly behind those that are shown.
    pub(crate) fn next(&self) -> Option<usize>
        ensures { MatchOption result (suc self.now.shown < 2 ^ 64 → slot_at self.now (suc self.now.shown) ≡ None) (λ slot. slot_at self.now (suc self.now.shown) ≡ Some slot) }
    {
        match self.waiting.front() {
            Some(slot) => Some(*slot),
            None => self.early_slot(self.shown.checked_add(1)?),
        }
    }

    /// The slot of the event with this number, if it came early. Mostly none did, and nothing is searched.
    fn early_slot(&self, number: u64) -> Option<usize>
        ensures { result ≡ get nat_eq self.now.early number }
    {
        if self.early.is_empty() {
            return None;
        }
        self.early.get(&number).copied()
    }

    /// Whether none of its events is held.
    fn is_bare(&self) -> bool
        ensures { OnTrue result (IsBare self.now) }
    {
        self.waiting.is_empty() && self.early.is_empty()
    }

    /// Whether an event with this number and stamp follows the shown ones directly, with none held behind it.
    pub(crate) fn is_followed_by(&self, number: u64, stamp: u64) -> bool
        ensures { OnTrue result (IsFollowedBy self.now number stamp) }
    {
        if number == 0 || number - 1 != self.shown || !self.is_bare() {
            return false;
        }
        match &self.last {
            Some(before) => before.stamp < stamp,
            None => true,
        }
    }

    /// The event with this number, which follows directly, counts as shown without having been held.
    pub(crate) fn follow(&mut self, number: u64, entry: Entry)
        requires bare { IsBare self.old }
        requires next { number ≡ suc self.old.shown }
        ensures { ShowsNext self.old number entry self.new }
    {
        self.shown = number;
        self.last = Some(entry);
    }

    /// Makes room for the slot of the event with this number, which isn't shown. Only running out of
    /// memory refuses it.
    pub(crate) fn make_room(&mut self, number: u64) -> Result<(), NoMemory>
        requires { self.old.shown < number }
        ensures same { IsSameLine self.old self.new }
        ensures room { OnOk result (HasRoomAt self.new number) }
    {
        if number - self.shown - 1 == self.waiting.len() as u64 {
            self.waiting.reserve(1)?;
            return Ok(());
        }
        self.early.reserve(1)?;
        Ok(())
    }

    /// The event with this number, which came now, is held in the slot.
    pub(crate) fn add(&mut self, number: u64, slot: usize)
        requires later { self.old.shown < number }
        requires new { slot_at self.old number ≡ None }
        requires room { HasRoomAt self.old number }
        ensures { Gains self.old number slot self.new }
    {
        if number - self.shown - 1 == self.waiting.len() as u64 {
            self.waiting.push_back_reserved(slot);
            return;
        }
        let _ = self.early.insert(number, slot);
    }

    /// The next event, which has this number, is shown and held no more.
    pub(crate) fn show(&mut self, number: u64, entry: Entry)
        requires { number ≡ suc self.old.shown }
        ensures { ShowsNext self.old number entry self.new }
    {
        self.shown = number;
        self.last = Some(entry);
        if self.waiting.pop_front().is_none() {
            self.early.remove(&number);
        }
    }
}
