ghost use Rattle.std.specs.Prelude.{◌≡◌, ◌≢◌, ℕ, ◌==◌, ◌≤◌, ◌<◌, ◌^◌, Some, None, true, false, length, IfNone, IfSome, MatchBool};
ghost use Rattle.tm_base.specs.Histories.{CanAnswer};
ghost use Rattle.tm_base.specs.States.{is_pending};
ghost use Rattle.tm_base.specs.declared.operations.Op.TheVariants as op;
ghost use Rattle.tm_laws.specs.Tidy.{IsSound};
ghost use Rattle.tm_programs.specs.Programs.{Rest};
ghost use Rattle.tm_text.specs.Exercises.{ExerciseView, own_of};
ghost use Rattle.tm_replay.specs.JointSteps.{May, MayAsk};
ghost use Rattle.tm_replay.specs.SoundStates.{is_main, is_past};
ghost use Rattle.tm_joint.specs.Asking.{asked_by, asked_in};
ghost use Rattle.tm_joint.specs.Judging.{IsEventOf, IsGranted, IsResume};
ghost use Rattle.tm_joint.specs.Refusals.{HasAnswer, IsCause, IsNoResume, IsTimely};

use crate::asked::Asked;
use crate::objects::Object;
use crate::refusals::Cause;
use crate::seats::Seat;
use tm_base::{Ask, Entry, Machine, Op, Reply};
use tm_merge::Missing;
use tm_replay::Phase;
use tm_text::Exercise;

/// Why the event comes at another time: its thread has ended, or its place or its stamp isn't the next one.
pub fn untimely(seat: &Seat, object: &Object, entry: &Entry) -> Option<Cause>
    requires at { object.now.at < 2 ^ 63 }
    requires thread_stamp { seat.now.stamp < 2 ^ 63 }
    requires object_stamp { object.now.stamp < 2 ^ 63 }
    ensures cause { (x : ExerciseView) → IfSome result (IsCause x seat.now object.now entry.now) }
    ensures none { IfNone result (IsTimely seat.now object.now entry.now) }
{
    if is_past(seat.phase()) {
        return Some(Cause::Ended);
    }
    let place = seat.next();
    if entry.place != place {
        let thread = entry.thread;
        return Some(Cause::Place(Missing::Thread { thread, place }));
    }
    let at = object.at() + 1;
    if entry.at != at {
        let object = entry.object;
        return Some(Cause::Place(Missing::Object { object, at }));
    }
    let stamp = seat.last_stamp().max(object.last_stamp()) + 1;
    if entry.stamp != stamp {
        return Some(Cause::Stamp(stamp));
    }
    None
}

/// The object at which the event's thread waits, unless the event is `resume` there and its call was granted.
pub fn waiting(seat: &Seat, object: &Object, entry: &Entry) -> Option<u32>
    requires pending { seat.now.phase ≡ Phase.Waits entry.now.object → is_pending object.now.view.state entry.now.thread ≡ true }
    ensures waits { IfSome result (λ at. (seat.now.phase ≡ Phase.Waits at) × IsNoResume object.now entry.now at) }
    ensures none { IfNone result (IsGranted seat.now object.now entry.now) }
{
    match seat.phase() {
        Phase::Waits(at) if !resumes(object, entry, at) => Some(at),
        _ => None,
    }
}

/// What the event's thread is asked, where it may not do what the event says.
pub fn unasked(exercise: &Exercise, seat: &Seat, entry: &Entry) -> Option<Asked>
    requires main { is_main seat.now.phase ≡ (entry.now.thread == 0) }
    requires known { entry.now.thread ≤ length exercise.now.programs }
    requires goes_on { is_past seat.now.phase ≡ false }
    requires granted { (object : ℕ) → seat.now.phase ≡ Phase.Waits object → IsEventOf entry.now object op.Resume }
    ensures asked { IfSome result (λ asked. (asked_in (own_of exercise.now.objects entry.now.thread) seat.now.phase seat.now.rest ≡ Some asked)
        × (May exercise.now entry.now.thread seat.now entry.now.object entry.now.op → ⊥)) }
    ensures none { IfNone result (May exercise.now entry.now.thread seat.now entry.now.object entry.now.op) }
{
    if may(exercise, seat, entry) {
        return None;
    }
    asked(exercise, entry.thread, seat)
}

/// What the thread of the seat may do next: nothing where it waits or has ended.
pub fn asked(exercise: &Exercise, thread: u32, seat: &Seat) -> Option<Asked>
    requires main { is_main seat.now.phase ≡ (thread == 0) }
    requires known { thread ≤ length exercise.now.programs }
    ensures { result ≡ asked_in (own_of exercise.now.objects thread) seat.now.phase seat.now.rest }
{
    match seat.phase() {
        Phase::Main => Some(Asked::Stop),
        Phase::NotBegun => Some(Asked::Call {
            object: exercise.own(thread),
            op: Op::Begin,
        }),
        Phase::Free => Some(asked_by(seat.asked())),
        Phase::Waits(_) | Phase::Ended { .. } => None,
    }
}

/// What a free thread may do whose program asks this.
fn asked_by(ask: Option<Ask>) -> Asked
    ensures { result ≡ asked_by ask }
{
    match ask {
        Some(Ask::Call { object, op }) => Asked::Call { object, op },
        Some(Ask::Over) => Asked::Over,
        None => Asked::Cut,
    }
}

/// Whether the event's thread may do what the event says.
fn may(exercise: &Exercise, seat: &Seat, entry: &Entry) -> bool
    requires main { is_main seat.now.phase ≡ (entry.now.thread == 0) }
    requires known { entry.now.thread ≤ length exercise.now.programs }
    ensures { MatchBool result (May exercise.now entry.now.thread seat.now entry.now.object entry.now.op)
        (May exercise.now entry.now.thread seat.now entry.now.object entry.now.op → ⊥) }
{
    match seat.phase() {
        Phase::Main => is_op(entry.op, Op::Stop),
        Phase::NotBegun => is_event(entry, exercise.own(entry.thread), Op::Begin),
        Phase::Free => may_go_on(exercise.own(entry.thread), seat.asked(), entry),
        Phase::Waits(at) => is_event(entry, at, Op::Resume),
        Phase::Ended { .. } => false,
    }
}

/// Whether a free thread with this own object, whose program asks this, may do what the event says.
fn may_go_on(own: u32, ask: Option<Ask>, entry: &Entry) -> bool
    ensures { MatchBool result (MayAsk own ask entry.now.object entry.now.op) (MayAsk own ask entry.now.object entry.now.op → ⊥) }
{
    match ask {
        Some(Ask::Call { object, op }) => calls_or_ends(own, object, op, entry),
        Some(Ask::Over) => is_event(entry, own, Op::End { cut: false }),
        None => is_event(entry, own, Op::End { cut: true }),
    }
}

/// Whether the event is the call, or the end of a thread with this own object that is cut.
fn calls_or_ends(own: u32, object: u32, op: Op, entry: &Entry) -> bool
    ensures { MatchBool result (MayAsk own (Some (Ask.Call object op)) entry.now.object entry.now.op)
        (MayAsk own (Some (Ask.Call object op)) entry.now.object entry.now.op → ⊥) }
{
    if is_event(entry, object, op) {
        return true;
    }
    is_event(entry, own, Op::End { cut: true })
}

/// Whether `main` stops an object that was stopped before.
pub fn stops_again(object: &Object, entry: &Entry) -> bool
    ensures { MatchBool result ((entry.now.op ≡ op.Stop) × (object.now.view.state.stopped ≡ true)) (entry.now.op ≡ op.Stop → object.now.view.state.stopped ≡ false) }
{
    match entry.op {
        Op::Stop => object.machine().stopped(),
        _ => false,
    }
}

/// What the object would reply, where the event has another reply.
pub fn other_reply(object: &Object, entry: &Entry) -> Option<Reply>
    requires can { CanAnswer object.now.view entry.now.thread entry.now.op }
    requires sound { IsSound object.now.view }
    ensures reply { IfSome result (λ r. HasAnswer object.now.view entry.now.thread entry.now.op r × (entry.now.reply ≢ r)) }
    ensures none { IfNone result (HasAnswer object.now.view entry.now.thread entry.now.op entry.now.reply) }
{
    let reply = object.would(entry.thread, entry.op);
    if is_reply(entry.reply, reply) {
        return None;
    }
    Some(reply)
}

/// Whether the event is `resume` at the object where its thread waits, and its call was granted.
fn resumes(object: &Object, entry: &Entry, at: u32) -> bool
    requires { entry.now.object ≡ at → is_pending object.now.view.state entry.now.thread ≡ true }
    ensures { MatchBool result (IsResume object.now entry.now at) (IsNoResume object.now entry.now at) }
{
    if !is_event(entry, at, Op::Resume) {
        return false;
    }
    object.machine().poll(entry.thread).is_some()
}

/// Whether the event is the operation on the object.
fn is_event(entry: &Entry, object: u32, op: Op) -> bool
    ensures { MatchBool result (IsEventOf entry.now object op) (IsEventOf entry.now object op → ⊥) }
{
    if entry.object != object {
        return false;
    }
    is_op(entry.op, op)
}

/// Whether both operations are the same, with their operands.
fn is_op(op: Op, other: Op) -> bool
    ensures { MatchBool result (op ≡ other) (op ≢ other) }
{
    op == other
}

/// Whether both replies are the same, with their values.
fn is_reply(reply: Reply, other: Reply) -> bool
    ensures { MatchBool result (reply ≡ other) (reply ≢ other) }
{
    reply == other
}

/// Whether a thread in this phase has ended.
fn is_past(phase: Phase) -> bool
    ensures { result ≡ is_past phase }
{
    matches!(phase, Phase::Ended { .. })
}
