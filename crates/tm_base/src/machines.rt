ghost use Rattle.std.specs.Prelude.{◌≡◌, false, true, IfNone, OnSome, length};
ghost use Rattle.tm_base.specs.Machines.{ObjectView, CanStep, Steps, Answers, changed, holds};
ghost use Rattle.tm_base.specs.States.{is_pending, is_waiting, grant_of, resumed, halted, queued};

use crate::kinds::Kind;
use crate::operations::Op;
use crate::replies::Reply;

/// An object of a textbook: its calls are the steps of its kind's table. Contracts see what it
/// holds: its kind, the number of threads that use it, and its state.
pub trait Machine {
    /// The kind, the number of threads and the state.
    ghost object: { Self → ObjectView };

    /// The object's kind.
    fn kind(&self) -> Kind
        ensures { result ≡ (object self.now).kind };

    /// The textbook step of a call that is none of `Resume` and `Stop`.
    fn step(&mut self, thread: u32, op: Op) -> Reply
        requires { CanStep (object self.old) thread op }
        ensures { Steps (object self.old) thread op result (object self.new) };

    /// The reply that `step` would give now.
    fn would(&self, thread: u32, op: Op) -> Reply
        requires { CanStep (object self.now) thread op }
        ensures { Answers (object self.now) thread op result };

    /// Whether the thread's call waits, or was granted and isn't resumed.
    fn pending(&self, thread: u32) -> bool
        ensures { result ≡ is_pending (object self.now).state thread };

    /// The granted reply of the thread's pending call. `None` only where the call still waits, and in a sound
    /// object exactly there.
    fn poll(&self, thread: u32) -> Option<Reply>
        requires { is_pending (object self.now).state thread ≡ true }
        ensures value { result ≡ grant_of (object self.now).state thread }
        ensures waits { IfNone result (is_waiting (object self.now).state thread ≡ true) };

    /// As `poll`, and clears the granted reply. `None` leaves all unchanged.
    fn resume(&mut self, thread: u32) -> Option<Reply>
        requires { is_pending (object self.old).state thread ≡ true }
        ensures value { result ≡ grant_of (object self.old).state thread }
        ensures waits { IfNone result (is_waiting (object self.old).state thread ≡ true) }
        ensures unchanged { IfNone result (object self.new ≡ object self.old) }
        ensures resumed { OnSome result (object self.new ≡ changed (object self.old) (resumed (object self.old).state thread)) };

    /// How many calls wait and aren't granted.
    fn waiters(&self) -> u32
        ensures { result ≡ length (queued (object self.now).state.kind_state) };

    /// Whether the object was stopped.
    fn stopped(&self) -> bool
        ensures { result ≡ (object self.now).state.stopped };

    /// Stops the object: each call that waits is granted `Stopped`, and none waits from now on.
    fn stop(&mut self)
        requires { (object self.old).state.stopped ≡ false }
        ensures { object self.new ≡ changed (object self.old) (halted (object self.old).state) };

    /// Whether the thread owns the mutex, is inside the monitor, is the writer or a reader of the
    /// reader-writer lock, or is the object's own thread and hasn't ended.
    fn holds(&self, thread: u32) -> bool
        ensures { result ≡ holds (object self.now) thread };
}
