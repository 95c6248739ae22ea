ghost use Rattle.std.specs.Prelude.{◌≡◌, IfOk};
ghost use Rattle.tm_base.specs.Histories.{CanAnswer, Lawful};
ghost use Rattle.tm_base.specs.Machines.{changed};
ghost use Rattle.tm_base.specs.States.{State, is_waiting};
ghost use Rattle.tm_laws.specs.Tidy.{IsSound};
ghost use Rattle.tm_book.specs.AnyMachines.{any_object};
ghost use Rattle.tm_book.specs.Made.{CanMake};
ghost use Rattle.tm_replay.specs.JointStates.{first_object_state};
ghost use Rattle.tm_replay.specs.JointSteps.{entered};
ghost use Rattle.tm_joint.specs.Refusals.{HasAnswer};

use std::alloc::Global;
use std::marker::Model;
use tm_base::{Entry, Kind, Machine, NoMemory, Op, Reply};
use tm_book::AnyMachine;

/// Where an object stands: its machine, how many events it has, and its last stamp (0 where it has none).
#[derive(Drop)]
pub struct Object {
    machine: AnyMachine,
    at: u64,
    stamp: u64,
}

impl Model for Object {
    ghost use Rattle.tm_replay.specs.JointStates.{ObjectState};

    ghost Value = { ObjectState };

    ghost use Rattle.tm_joint.specs.StoredObjects.{object_view};

    ghost view = { object_view };
}

impl Object {
    /// An object of the kind without events, for threads 1 to `threads`, under the conditions of
    /// `AnyMachine::make`.
    pub fn make(alloc: Global, threads: u32, kind: Kind) -> Result<Object, NoMemory>
        requires { CanMake kind threads }
        ensures { IfOk result (λ object. object ≡ first_object_state threads kind) }
    {
        Ok(Object {
            machine: AnyMachine::make(alloc, threads, kind)?,
            at: 0,
            stamp: 0,
        })
    }

    /// The object's machine.
    pub fn machine(&self) -> &AnyMachine
        ensures { any_object result.now ≡ self.now.view }
    {
        &self.machine
    }

    /// How many events the object has.
    pub fn at(&self) -> u64
        ensures { result ≡ self.now.at }
    {
        self.at
    }

    /// The stamp of the object's last event, 0 where there is none.
    pub fn last_stamp(&self) -> u64
        ensures { result ≡ self.now.stamp }
    {
        self.stamp
    }

    /// Whether the thread's call waits ungranted.
    pub fn waits(&self, thread: u32) -> bool
        requires { IsSound self.now.view }
        ensures { result ≡ is_waiting self.now.view.state thread }
    {
        if !self.machine.pending(thread) {
            return false;
        }
        self.machine.poll(thread).is_none()
    }

    /// What the object would answer the thread.
    pub fn would(&self, thread: u32, op: Op) -> Reply
        requires can { CanAnswer self.now.view thread op }
        requires sound { IsSound self.now.view }
        ensures { HasAnswer self.now.view thread op result }
    {
        would(&self.machine, thread, op)
    }

    /// The object goes on by its event, which it answers as the entry says.
    pub fn enter(&mut self, entry: &Entry)
        requires can { CanAnswer self.old.view entry.now.thread entry.now.op }
        requires answer { HasAnswer self.old.view entry.now.thread entry.now.op entry.now.reply }
        ensures { (s' : State) × Lawful self.old.view entry.now.thread entry.now.op entry.now.reply s' × (self.new ≡ entered self.old entry.now s') }
    {
        let _ = answer(&mut self.machine, entry.thread, entry.op);
        self.at = entry.at;
        self.stamp = entry.stamp;
    }
}

/// What the machine would answer the thread.
fn would(machine: &AnyMachine, thread: u32, op: Op) -> Reply
    requires can { CanAnswer (any_object machine.now) thread op }
    requires sound { IsSound (any_object machine.now) }
    ensures { HasAnswer (any_object machine.now) thread op result }
{
    match op {
        Op::Resume => machine.poll(thread).unwrap(),
        Op::Stop => Reply::Ok,
        op => machine.would(thread, op),
    }
}

/// Makes the machine's lawful step, resume or stop, and answers its reply.
fn answer(machine: &mut AnyMachine, thread: u32, op: Op) -> Reply
    requires { CanAnswer (any_object machine.old) thread op }
    ensures lawful { Lawful (any_object machine.old) thread op result (any_object machine.new).state }
    ensures same { any_object machine.new ≡ changed (any_object machine.old) (any_object machine.new).state }
{
    match op {
        Op::Resume => machine.resume(thread).unwrap(),
        Op::Stop => {
            machine.stop();
            Reply::Ok
        }
        op => machine.step(thread, op),
    }
}
