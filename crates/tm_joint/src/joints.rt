ghost use Rattle.std.specs.Prelude.{◌≡◌, ◌+◌, ◌<◌, ◌≤◌, ◌^◌, ◌∷◌, count_by, map, max, IfErr, IfNone, IfOk, IfSome, OnErr, OnOk, Some, length, slice_get};
ghost use Rattle.tm_programs.specs.Programs.{Over};
ghost use Rattle.tm_replay.specs.Bars.{bar_of, bars_of, is_over, is_runnable, is_stuck};
ghost use Rattle.tm_replay.specs.Choosing.{next_thread, runnable_threads};
ghost use Rattle.tm_replay.specs.JointStates.{first_object_state, first_thread_state, start, unbegun};
ghost use Rattle.tm_replay.specs.JointSteps.{JointStep};
ghost use Rattle.tm_joint.specs.Joints.{IsKept};
ghost use Rattle.tm_joint.specs.Readings.{asked_at, holds_at, stopped_at, waited_by, waiters_at};
ghost use Rattle.tm_joint.specs.Refusals.{IsIllegal, IsLegal, Refuses};

use crate::asked::Asked;
use crate::bars::{Bars, is_runnable};
use crate::judging::{asked, other_reply, stops_again, unasked, untimely, waiting};
use crate::objects::Object;
use crate::refusals::{Cause, Illegal};
use crate::seats::Seat;
use crate::showing::show;
use std::alloc::Global;
use std::marker::Model;
use tm_base::{Bar, Entry, Machine, NoMemory};
use tm_replay::Phase;
use tm_text::Exercise;

/// The joint state of an exercise, to which one event after the other is applied. Contracts see the
/// exercise, the joint state, how many events were applied, and the greatest of their stamps.
#[derive(Drop)]
pub struct Joint<'x> {
    exercise: &'x Exercise,
    objects: Vec<Object>,
    seats: Vec<Seat>,
    bars: Bars,
    applied: u64,
    last_stamp: u64,
}

impl<'x> Model for Joint<'x> {
    ghost use Rattle.tm_joint.specs.Joints.{JointView};

    ghost Value = { JointView };

    ghost use Rattle.tm_joint.specs.JointCodes.{joint_code};

    ghost coded = { joint_code };

    ghost use Rattle.tm_joint.specs.StoredJoints.{joint_view, KeepsJoint};

    ghost view = { joint_view };

    ghost invariant = { KeepsJoint };
}

impl<'x> Joint<'x> {
    /// Nothing has happened yet. Only this takes memory.
    pub fn make(alloc: Global, exercise: &'x Exercise) -> Result<Joint<'x>, NoMemory>
        ensures { IfOk result (λ joint. joint ≡ record { exercise = exercise.now; state = start exercise.now; applied = 0; last_stamp = 0 }) }
    {
        let bars = Bars::make(alloc, exercise.threads())?;
        let objects = make_objects(alloc, exercise)?;
        let seats = make_seats(alloc, exercise)?;
        Ok(Joint {
            exercise,
            objects,
            seats,
            bars,
            applied: 0,
            last_stamp: 0,
        })
    }

    /// Applies the event: its thread and its object go on by it. Refuses exactly an event that no joint step
    /// has now, with the first cause, and is unchanged then. The thread and the object are in range, and
    /// fewer than 2^62 events were applied.
    pub fn apply(&mut self, entry: &Entry) -> Result<(), Illegal>
        requires thread { entry.now.thread ≤ length self.old.exercise.programs }
        requires object { entry.now.object < length self.old.exercise.objects }
        requires few { self.old.applied < 2 ^ 62 }
        ensures step { OnOk result (JointStep self.old.exercise self.old.state entry.now self.new.state) }
        ensures counted { OnOk result (self.new.applied ≡ self.old.applied + 1) }
        ensures stamp { OnOk result (self.new.last_stamp ≡ max self.old.last_stamp entry.now.stamp) }
        ensures exercise { self.new.exercise ≡ self.old.exercise }
        ensures cause { IfErr result (IsIllegal self.old.exercise self.old.state entry.now) }
        ensures unchanged { OnErr result (self.new ≡ self.old) }
    {
        let entry = *entry;
        if let Some(cause) = self.cause(&entry) {
            return Err(Illegal { entry, cause });
        }
        self.perform(&entry);
        Ok(())
    }

    /// The first cause why the event can't happen now.
    fn cause(&self, entry: &Entry) -> Option<Cause>
        requires thread { entry.now.thread ≤ length self.now.exercise.programs }
        requires object { entry.now.object < length self.now.exercise.objects }
        ensures refused { IfSome result (Refuses self.now.exercise self.now.state entry.now) }
        ensures legal { IfNone result (IsLegal self.now.exercise self.now.state entry.now) }
    {
        let seat = &self.seats[entry.thread as usize];
        let object = &self.objects[entry.object as usize];
        if let Some(cause) = untimely(seat, object, entry) {
            return Some(cause);
        }
        if let Some(at) = waiting(seat, object, entry) {
            return Some(Cause::Waiting(at));
        }
        if let Some(asked) = unasked(self.exercise, seat, entry) {
            return Some(Cause::NotAsked(asked));
        }
        if stops_again(object, entry) {
            return Some(Cause::StoppedAlready);
        }
        match other_reply(object, entry) {
            Some(reply) => Some(Cause::Reply(reply)),
            None => None,
        }
    }

    /// Makes the event, which can happen now.
    fn perform(&mut self, entry: &Entry)
        requires legal { IsLegal self.old.exercise self.old.state entry.now }
        requires few { self.old.applied < 2 ^ 62 }
        ensures step { JointStep self.old.exercise self.old.state entry.now self.new.state }
        ensures counted { self.new.applied ≡ self.old.applied + 1 }
        ensures stamp { self.new.last_stamp ≡ max self.old.last_stamp entry.now.stamp }
        ensures exercise { self.new.exercise ≡ self.old.exercise }
    {
        let object = &mut self.objects[entry.object as usize];
        let before = object.machine().waiters();
        object.enter(entry);
        self.seats[entry.thread as usize].go_on(entry);
        show(&mut self.bars, self.seats.as_slice(), object, entry, before);
        self.applied += 1;
        self.last_stamp = self.last_stamp.max(entry.stamp);
    }

    /// One bar for each program thread, in rising number.
    pub fn bars(&self) -> &[Bar]
        ensures { result.now ≡ bars_of self.now.state }
    {
        self.bars.as_slice()
    }

    /// What the thread does now. The thread is 1 to `threads`.
    pub fn bar(&self, thread: u32) -> Bar
        requires program { 1 ≤ thread }
        requires known { thread ≤ length self.now.exercise.programs }
        ensures { result ≡ bar_of self.now.state thread }
    {
        self.bars.bar(thread)
    }

    /// Whether the thread hasn't ended, and no call of it waits ungranted. The thread is 1 to `threads`.
    pub fn runnable(&self, thread: u32) -> bool
        requires program { 1 ≤ thread }
        requires known { thread ≤ length self.now.exercise.programs }
        ensures { result ≡ is_runnable (bar_of self.now.state thread) }
    {
        is_runnable(self.bar(thread))
    }

    /// How many threads are runnable.
    pub fn runnable_count(&self) -> u64
        ensures count { result ≡ count_by is_runnable (bars_of self.now.state) }
        ensures listed { result ≡ length (runnable_threads (bars_of self.now.state)) }
    {
        self.bars.runnable_count()
    }

    /// The runnable thread at this place, from 0, in rising number. `None` exactly where there are no more.
    pub fn nth_runnable(&self, nth: u64) -> Option<u32>
        ensures { result ≡ slice_get (runnable_threads (bars_of self.now.state)) nth }
    {
        self.bars.nth_runnable(nth)
    }

    /// The next runnable thread in cyclic order after this one, which is 0 to `threads`. `None` exactly where
    /// none is runnable.
    pub fn next_runnable(&self, last: u32) -> Option<u32>
        requires { last ≤ length self.now.exercise.programs }
        ensures { result ≡ next_thread (bars_of self.now.state) last }
    {
        self.bars.next_runnable(last)
    }

    /// Where the thread stands. The thread is 0 to `threads`.
    pub fn seat(&self, thread: u32) -> &Seat
        requires { thread ≤ length self.now.exercise.programs }
        ensures { slice_get self.now.state.threads thread ≡ Some result.now }
    {
        &self.seats[thread as usize]
    }

    /// Whether a thread hasn't ended, and none is runnable.
    pub fn stuck(&self) -> bool
        ensures { result ≡ is_stuck (bars_of self.now.state) }
    {
        self.bars.is_stuck()
    }

    /// Whether every thread has ended.
    pub fn over(&self) -> bool
        ensures { result ≡ is_over (bars_of self.now.state) }
    {
        self.bars.is_over()
    }

    /// What the thread may do next. `None` exactly where it waits or has ended. The thread is 0 to `threads`.
    pub fn asked(&self, thread: u32) -> Option<Asked>
        requires { thread ≤ length self.now.exercise.programs }
        ensures { result ≡ asked_at self.now.exercise self.now.state thread }
    {
        asked(self.exercise, thread, &self.seats[thread as usize])
    }

    /// The object at which the thread's call waits, or was granted and isn't resumed. `None` exactly where
    /// there is none. The thread is in range.
    pub fn waits_at(&self, thread: u32) -> Option<u32>
        requires { thread ≤ length self.now.exercise.programs }
        ensures { result ≡ waited_by self.now.state thread }
    {
        match self.seats[thread as usize].phase() {
            Phase::Waits(object) => Some(object),
            _ => None,
        }
    }

    /// How many calls wait ungranted at the object, which is in range.
    pub fn waiters(&self, object: u32) -> u32
        requires { object < length self.now.exercise.objects }
        ensures { result ≡ waiters_at self.now.state object }
    {
        self.objects[object as usize].machine().waiters()
    }

    /// Whether the object was stopped, which is in range.
    pub fn stopped(&self, object: u32) -> bool
        requires { object < length self.now.exercise.objects }
        ensures { result ≡ stopped_at self.now.state object }
    {
        self.objects[object as usize].machine().stopped()
    }

    /// Whether the thread holds the object: it owns the mutex, is inside the monitor, is the writer or a
    /// reader of the reader-writer lock, or is the object's own thread and hasn't ended. The object is in
    /// range.
    pub fn holds(&self, object: u32, thread: u32) -> bool
        requires { object < length self.now.exercise.objects }
        ensures { result ≡ holds_at self.now.state object thread }
    {
        self.objects[object as usize].machine().holds(thread)
    }

    /// How many events were applied. The joint state is a sound one of the exercise.
    pub fn applied(&self) -> u64
        ensures value { result ≡ self.now.applied }
        ensures kept { IsKept self.now }
    {
        self.applied
    }

    /// The greatest stamp of an event that was applied, 0 where there is none.
    pub fn last_stamp(&self) -> u64
        ensures { result ≡ self.now.last_stamp }
    {
        self.last_stamp
    }
}

/// The exercise's objects before their first events.
fn make_objects(alloc: Global, exercise: &Exercise) -> Result<Vec<Object>, NoMemory>
    ensures { IfOk result (λ objects. objects.items
        ≡ map (λ d. first_object_state (length exercise.now.programs) d.kind) exercise.now.objects) }
{
    let threads = exercise.threads();
    let mut objects = Vec::new(alloc);
    for object in 0..exercise.objects() {
        objects.push(Object::make(alloc, threads, exercise.kind(object))?)?;
    }
    Ok(objects)
}

/// The seats of `main` and of the exercise's threads before their first events.
fn make_seats(alloc: Global, exercise: &Exercise) -> Result<Vec<Seat>, NoMemory>
    ensures { IfOk result (λ seats. seats.items ≡ first_thread_state Phase.Main Over ∷ map unbegun exercise.now.programs) }
{
    let mut seats = Vec::new(alloc);
    seats.push(Seat::main(alloc))?;
    for thread in 0..exercise.threads() {
        seats.push(Seat::make(alloc, exercise, thread + 1)?)?;
    }
    Ok(seats)
}
