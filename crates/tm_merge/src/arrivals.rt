ghost use Rattle.std.specs.Prelude.{◌≡◌, false, ◌<◌, ◌≤◌, length, None, OnErr, OnOk, IfOk, All};
ghost use Rattle.tm_merge.specs.Lines.{IsNewLine};
ghost use Rattle.tm_merge.specs.MergerViews.{arrived, nothing_arrived};
ghost use Rattle.tm_merge.specs.Places.{at_place, at_object};
ghost use Rattle.tm_merge.specs.ReadyThreads.{KeepsAll, ListsAllReady, ListsOnlyReady};
ghost use Rattle.tm_merge.specs.Refusals.{refusal, stated};
ghost use Rattle.tm_merge.specs.Showing.{Joins};
ghost use Rattle.tm_merge.specs.StoredArrivals.{HasRoomFor, KeepsArrivals, view_of};

mod following;
pub(crate) mod holding;
mod listing;
mod ordering;
pub(crate) mod refusing;
pub(crate) mod showing;

use crate::lines::Line;
use crate::refusals::Refused;
use std::alloc::Global;
use tm_base::{Entry, NoMemory};

/// The events that arrived: those that are shown in their order, the others in slots that the lines of
/// their thread and of their object name. An event that follows what is shown counts as shown here as soon as
/// it arrives. The shown ones have room for all. The threads of which an event is ready are listed, so that
/// what an event costs doesn't grow with their number.
#[derive(Drop)]
pub(crate) struct Arrivals {
    threads: Vec<Line>,
    objects: Vec<Line>,
    shown: Vec<Entry>,
    slots: Vec<Option<Entry>>,
    held: usize,
    ready: Vec<u32>,
}

/// The event of the list with this place in this thread.
pub(crate) fn event_at_place(events: &[Entry], thread: u32, place: u64) -> Option<Entry>
    ensures { result ≡ at_place events.now thread place }
{
    for event in events {
        if event.thread == thread && event.place == place {
            return Some(*event);
        }
    }
    None
}

/// The event of the list with this place at this object.
pub(crate) fn event_at_object(events: &[Entry], object: u32, at: u64) -> Option<Entry>
    ensures { result ≡ at_object events.now object at }
{
    for event in events {
        if event.object == object && event.at == at {
            return Some(*event);
        }
    }
    None
}

/// Lines before their first events.
fn new_lines(alloc: Global, count: usize) -> Result<Vec<Line>, NoMemory>
    ensures count { IfOk result (λ lines. length lines.items ≡ count) }
    ensures new { IfOk result (λ lines. All IsNewLine lines.items) }
{
    let mut lines = Vec::with_capacity(alloc, count)?;
    for _ in 0..count {
        lines.push(Line::make(alloc))?;
    }
    Ok(lines)
}

impl Arrivals {
    /// Nothing has arrived yet, from threads 0 to `threads` at this many objects.
    pub(crate) fn make(alloc: Global, threads: u32, objects: u32) -> Result<Arrivals, NoMemory>
        ensures keeps { IfOk result KeepsArrivals }
        ensures lists { IfOk result ListsAllReady }
        ensures only { IfOk result (λ arrivals. ListsOnlyReady arrivals (λ _. false)) }
        ensures view { IfOk result (λ arrivals. view_of arrivals ≡ nothing_arrived threads objects) }
    {
        let ready = Vec::with_capacity(alloc, threads as usize + 1)?;
        let threads = new_lines(alloc, threads as usize + 1)?;
        let objects = new_lines(alloc, objects as usize)?;
        Ok(Arrivals {
            threads,
            objects,
            shown: Vec::new(alloc),
            slots: Vec::new(alloc),
            held: 0,
            ready,
        })
    }

    /// The event that arrived with this place in this thread.
    pub(crate) fn at_place(&self, thread: u32, place: u64) -> Option<Entry>
        requires keeps { KeepsArrivals self.now }
        requires known { thread < length self.now.threads.items }
        ensures { result ≡ at_place (arrived (view_of self.now)) thread place }
    {
        let line = &self.threads[thread as usize];
        if place < line.shown() {
            return event_at_place(self.shown.as_slice(), thread, place);
        }
        if place == line.shown() {
            return line.last();
        }
        self.held_place(thread, place)
    }

    /// The event that is held with this place in this thread.
    pub(crate) fn held_place(&self, thread: u32, place: u64) -> Option<Entry>
        requires keeps { KeepsArrivals self.now }
        requires known { thread < length self.now.threads.items }
        ensures { result ≡ at_place (view_of self.now).held thread place }
    {
        let slot = self.threads[thread as usize].slot(place)?;
        self.slots[slot]
    }

    /// The event that arrived with this place at this object.
    pub(crate) fn at_object(&self, object: u32, at: u64) -> Option<Entry>
        requires keeps { KeepsArrivals self.now }
        requires known { object < length self.now.objects.items }
        ensures { result ≡ at_object (arrived (view_of self.now)) object at }
    {
        let line = &self.objects[object as usize];
        if at < line.shown() {
            return event_at_object(self.shown.as_slice(), object, at);
        }
        if at == line.shown() {
            return line.last();
        }
        self.held_object(object, at)
    }

    /// The event that is held with this place at this object.
    pub(crate) fn held_object(&self, object: u32, at: u64) -> Option<Entry>
        requires keeps { KeepsArrivals self.now }
        requires known { object < length self.now.objects.items }
        ensures { result ≡ at_object (view_of self.now).held object at }
    {
        let slot = self.objects[object as usize].slot(at)?;
        self.slots[slot]
    }

    /// Takes the event into a slot, unless it is refused or memory runs out.
    pub(crate) fn hold(&mut self, entry: Entry) -> Result<(), Refused>
        requires { KeepsAll self.old }
        ensures all { KeepsAll self.new }
        ensures judged { stated result ≡ refusal (view_of self.old) entry }
        ensures joins { OnOk result (Joins (view_of self.old) entry (view_of self.new)) }
        ensures unchanged { OnErr result (view_of self.new ≡ view_of self.old) }
    {
        if let Some(refused) = self.refusal(&entry) {
            return Err(refused);
        }
        self.make_room(&entry)?;
        self.keep(entry);
        Ok(())
    }

    /// Makes room for the event, which isn't refused, and for showing all that is held. Only running out
    /// of memory refuses it.
    pub(crate) fn make_room(&mut self, entry: &Entry) -> Result<(), NoMemory>
        requires keeps { KeepsArrivals self.old }
        requires accepted { refusal (view_of self.old) entry.now ≡ None }
        ensures keeps { KeepsArrivals self.new }
        ensures same { view_of self.new ≡ view_of self.old }
        ensures listed { self.new.ready ≡ self.old.ready }
        ensures room { OnOk result (HasRoomFor self.new entry.now) }
    {
        self.shown.reserve(self.held + 1)?;
        self.slots.reserve(1)?;
        self.threads[entry.thread as usize].make_room(entry.place)?;
        self.objects[entry.object as usize].make_room(entry.at)?;
        Ok(())
    }

    /// The event, which isn't refused, arrives.
    pub(crate) fn keep(&mut self, entry: Entry)
        requires all { KeepsAll self.old }
        requires accepted { refusal (view_of self.old) entry ≡ None }
        requires room { HasRoomFor self.old entry }
        ensures all { KeepsAll self.new }
        ensures joins { Joins (view_of self.old) entry (view_of self.new) }
    {
        self.put(entry);
        self.list_if_ready(entry.thread);
    }

    /// The event, which isn't refused, is put into a slot. The list of ready threads stays as it was.
    fn put(&mut self, entry: Entry)
        requires keeps { KeepsArrivals self.old }
        requires accepted { refusal (view_of self.old) entry ≡ None }
        requires room { HasRoomFor self.old entry }
        ensures keeps { KeepsArrivals self.new }
        ensures joins { Joins (view_of self.old) entry (view_of self.new) }
        ensures listed { self.new.ready ≡ self.old.ready }
    {
        let slot = self.slots.len();
        self.threads[entry.thread as usize].add(entry.place, slot);
        self.objects[entry.object as usize].add(entry.at, slot);
        self.slots.push_reserved(Some(entry));
        self.held += 1;
    }

    /// The events that are shown, in order.
    pub(crate) fn shown(&self) -> &[Entry]
        ensures { result.now ≡ self.now.shown.items }
    {
        self.shown.as_slice()
    }

    /// The events that are shown, in order, without a copy.
    pub(crate) fn into_shown(self) -> Vec<Entry>
        ensures { result.items ≡ self.shown.items }
    {
        self.shown
    }

    /// How many events are held.
    pub(crate) fn held(&self) -> u64
        ensures { result ≡ self.now.held }
    {
        self.held as u64
    }
}
