ghost use Rattle.std.specs.Prelude.{◌≡◌, ◌+◌, ◌<◌, ◌≤◌, ◌^◌, if◌then◌else◌, IfOk, length};
ghost use Rattle.tm_base.specs.Fits.{is_call};
ghost use Rattle.tm_programs.specs.Programs.{Over, asked_of};
ghost use Rattle.tm_text.specs.Exercises.{instructions_of};
ghost use Rattle.tm_replay.specs.JointStates.{first_thread_state, unbegun};
ghost use Rattle.tm_replay.specs.JointSteps.{is_final, phase_after, phase_by, rest_by, stepped};

use std::alloc::Global;
use std::marker::Model;
use tm_base::{Ask, Entry, NoMemory, Op, Reply};
use tm_replay::Phase;
use tm_text::{Exercise, Script};

/// Where a thread stands: its phase, the place of its next event, its last stamp (0 where it has none), how
/// many calls it has made, and what is left of its program.
#[derive(Drop)]
pub struct Seat {
    phase: Phase,
    next: u64,
    stamp: u64,
    made: u64,
    script: Script,
}

impl Model for Seat {
    ghost use Rattle.tm_replay.specs.JointStates.{ThreadState};

    ghost Value = { ThreadState };

    ghost use Rattle.tm_joint.specs.ThreadCodes.{thread_code};

    ghost coded = { thread_code };

    ghost view = { λ s. record { phase = s.phase; next = s.next; stamp = s.stamp; made = s.made; rest = s.script } };
}

impl Seat {
    /// The seat of `main` before its first event.
    pub(crate) fn main(alloc: Global) -> Seat
        ensures { result ≡ first_thread_state Phase.Main Over }
    {
        Seat {
            phase: Phase::Main,
            next: 1,
            stamp: 0,
            made: 0,
            script: Script::empty(alloc),
        }
    }

    /// The seat of a program thread that hasn't begun. The thread is 1 to `threads`.
    pub(crate) fn make(alloc: Global, exercise: &Exercise, thread: u32) -> Result<Seat, NoMemory>
        requires program { 1 ≤ thread }
        requires known { thread ≤ length exercise.now.programs }
        ensures { IfOk result (λ seat. seat ≡ unbegun (instructions_of exercise.now thread)) }
    {
        Ok(Seat {
            phase: Phase::NotBegun,
            next: 1,
            stamp: 0,
            made: 0,
            script: Script::make(alloc, exercise, thread)?,
        })
    }

    /// The thread's phase.
    pub fn phase(&self) -> Phase
        ensures { result ≡ self.now.phase }
    {
        self.phase
    }

    /// The place of the thread's next event.
    pub fn next(&self) -> u64
        ensures { result ≡ self.now.next }
    {
        self.next
    }

    /// The stamp of the thread's last event, 0 where there is none.
    pub fn last_stamp(&self) -> u64
        ensures { result ≡ self.now.stamp }
    {
        self.stamp
    }

    /// How many calls the thread has made, its `begin` and `end` not counted.
    pub fn made(&self) -> u64
        ensures { result ≡ self.now.made }
    {
        self.made
    }

    /// What the thread's program asks next. `None` exactly after the reply `Stopped`.
    pub fn asked(&self) -> Option<Ask>
        ensures { result ≡ asked_of self.now.rest }
    {
        self.script.asked()
    }

    /// The thread goes on by its event.
    pub(crate) fn go_on(&mut self, entry: &Entry)
        requires place { entry.now.place < 2 ^ 63 }
        requires made { self.old.made < 2 ^ 63 }
        ensures { self.new ≡ stepped self.old entry.now }
    {
        self.phase = phase_after(self.phase, entry);
        self.next = entry.place + 1;
        self.stamp = entry.stamp;
        self.made += u64::from(is_call(entry.op));
        answer(&mut self.script, entry);
    }
}

/// Goes on with the program after the event.
fn answer(script: &mut Script, entry: &Entry)
    ensures { script.new ≡ rest_by entry.now.op entry.now.reply script.old }
{
    if is_final(entry) {
        script.answer(entry.reply);
    }
}

/// Whether the operation is what a program asks: none of `begin`, `end`, `resume` and `stop`.
fn is_call(op: Op) -> bool
    ensures { result ≡ is_call op }
{
    !matches!(op, Op::Begin | Op::End { .. } | Op::Resume | Op::Stop)
}

/// Whether the reply is the final one of `begin` or of a call.
fn is_final(entry: &Entry) -> bool
    ensures { result ≡ is_final entry.now.op entry.now.reply }
{
    match entry.op {
        Op::End { .. } | Op::Stop => false,
        _ => !matches!(entry.reply, Reply::Wait),
    }
}

/// The phase after the event.
fn phase_after(phase: Phase, entry: &Entry) -> Phase
    ensures { result ≡ phase_after phase entry.now }
{
    match phase {
        Phase::Main => Phase::Main,
        _ => phase_by(entry.op, entry.reply, entry.object),
    }
}

/// The phase of a program thread after its operation on the object.
fn phase_by(op: Op, reply: Reply, object: u32) -> Phase
    ensures { result ≡ phase_by op reply object }
{
    match op {
        Op::End { cut } => Phase::Ended { cut },
        _ => match reply {
            Reply::Wait => Phase::Waits(object),
            _ => Phase::Free,
        },
    }
}
