ghost use Rattle.std.specs.Prelude.{◌≡◌, ◌<◌, ◌≤◌, ◌^◌, ℕ, List, true, None, IfNone, IfSome};
ghost use Rattle.tm_base.specs.declared.asks.Ask.TheVariants as ask;
ghost use Rattle.tm_base.specs.declared.kinds.Kind.{Kind};
ghost use Rattle.tm_base.specs.Fits.{is_call};
ghost use Rattle.tm_worker.specs.declared.phases.Phase.TheVariants as phase;
ghost use Rattle.tm_worker.specs.Logs.{AreSamePasses};
ghost use Rattle.tm_worker.specs.Outcomes.{SuitsPasses};
ghost use Rattle.tm_worker.specs.Progresses.{PreparesIn, TurnsTo, is_due, after_event, short_of_room};
ghost use Rattle.tm_worker.specs.Standings.{AreNumbered, HasOwn, Stands, is_own, is_own_at, kinds_of_passes};
ghost use Rattle.tm_worker.specs.Turning.{Attempts, IsOwnEvent, SendsNone, Tries};

use crate::logs::Log;
use crate::phases::{Phase, phase_after};
use crate::progresses::Progress;
use crate::turned::Turned;
use tm_base::{Ask, Body, Entry, Kind, NoMemory, Op, Reply};
use tm_outside::Gate;
use tm_shared::{FinishFault, Shared, TryFault};

/// Asks the program for what is next, once the last call has its final reply.
pub(crate) fn prepare<B: Body, G: Gate>(
    progress: &mut Progress<B>,
    limit: u32,
    log: &mut Log,
    gate: &G,
)
    requires stands { Stands B.over limit progress.old log.old }
    requires body { B.is_for (kinds_of_passes log.old.passes) progress.old.body }
    ensures prepares { PreparesIn B.asked B.rest limit progress.old.phase progress.old progress.new }
    ensures stands { Stands B.over limit progress.new log.new }
    ensures stays { (kinds : List Kind) → B.is_for kinds progress.old.body → B.is_for kinds progress.new.body }
    ensures log { log.new ≡ record log.old { outbox = record log.old.outbox { spare = log.new.outbox.spare } } }
{
    let Phase::Replied(last) = progress.phase else {
        return;
    };
    if matches!(last, Reply::Wait | Reply::Stopped) {
        progress.phase = Phase::Ends { cut: true };
        return;
    }
    match progress.body.next(last) {
        Ask::Over => progress.phase = Phase::Ends { cut: false },
        Ask::Call { object, op } => take_up(progress, limit, log, gate, object, op),
    }
}

/// Turns to the call that the program asks, and passes the gate; or to the end, where the thread may make no
/// more calls, or where no room for the call can be made.
fn take_up<B, G: Gate>(
    progress: &mut Progress<B>,
    limit: u32,
    log: &mut Log,
    gate: &G,
    object: u32,
    op: Op,
)
    ensures turns { TurnsTo limit (ask.Call object op) progress.old progress.new }
    ensures log { log.new ≡ record log.old { outbox = record log.old.outbox { spare = log.new.outbox.spare } } }
    ensures room { progress.new.phase ≡ phase.Asked object op → 3 ≤ log.new.outbox.spare }
    ensures spare { 1 ≤ log.old.outbox.spare → 1 ≤ log.new.outbox.spare }
{
    if progress.made >= limit {
        progress.phase = Phase::Ends { cut: true };
        return;
    }
    if log.make_room(3).is_err() {
        give_up(progress);
        return;
    }
    gate.pass(log.thread(), log.ticket.next());
    progress.phase = Phase::Asked { object, op };
}

/// Tries to make the thread's next event, which is prepared.
pub(crate) fn attempt<B: Body>(
    progress: &mut Progress<B>,
    limit: u32,
    log: &mut Log,
    shared: &[Shared],
) -> Turned
    requires stands { Stands B.over limit progress.old log.old }
    requires suits { SuitsPasses shared.now log.old.passes log.old.ticket.thread }
    requires own { HasOwn shared.now log.old.ticket.thread }
    requires due { is_due progress.old.phase ≡ true }
    requires clock { log.old.ticket.waits ≡ None → log.old.ticket.clock < 2 ^ 62 }
    ensures stands { Stands B.over limit progress.new log.new }
    ensures passes { AreSamePasses log.old.passes log.new.passes }
    ensures body { progress.new.body ≡ progress.old.body }
    ensures tries { Tries (is_own_at shared.now log.old.ticket.thread) progress.old log.old result progress.new log.new }
{
    match progress.phase {
        Phase::NotBegun => own_event(progress, limit, log, shared, Op::Begin),
        Phase::Waits(object) => resume(progress, limit, log, shared, object),
        Phase::Asked { object, op } => match call(progress, limit, log, shared, object, op) {
            Some(turned) => turned,
            None => own_event(progress, limit, log, shared, Op::End { cut: true }),
        },
        Phase::Ends { cut } => own_event(progress, limit, log, shared, Op::End { cut }),
        Phase::Replied(_) | Phase::Ended => unreachable!(),
    }
}

/// Makes the thread's `begin`, or its `end`, on its own object. Room for both is there.
fn own_event<B: Body>(
    progress: &mut Progress<B>,
    limit: u32,
    log: &mut Log,
    shared: &[Shared],
    op: Op,
) -> Turned
    requires stands { Stands B.over limit progress.old log.old }
    requires suits { SuitsPasses shared.now log.old.passes log.old.ticket.thread }
    requires own { HasOwn shared.now log.old.ticket.thread }
    requires next { IsOwnEvent progress.old.phase op }
    requires clock { log.old.ticket.clock < 2 ^ 62 }
    ensures stands { Stands B.over limit progress.new log.new }
    ensures passes { AreSamePasses log.old.passes log.new.passes }
    ensures body { progress.new.body ≡ progress.old.body }
    ensures attempts { Attempts (is_own_at shared.now log.old.ticket.thread) progress.old log.old result progress.new log.new }
{
    let object = own_object(shared, log.thread());
    match log.try_begin(shared, object, op) {
        Ok(entry) => {
            go_on(progress, &entry);
            Turned::Made(entry)
        }
        Err(TryFault::Busy(holder)) => Turned::Busy(holder),
        Err(TryFault::NoMemory) => unreachable!(),
    }
}

/// Makes the call that the program asked. `None` where the object found no room for it, and then the thread
/// turns to its `end`.
fn call<B: Body>(
    progress: &mut Progress<B>,
    limit: u32,
    log: &mut Log,
    shared: &[Shared],
    object: u32,
    op: Op,
) -> Option<Turned>
    requires stands { Stands B.over limit progress.old log.old }
    requires suits { SuitsPasses shared.now log.old.passes log.old.ticket.thread }
    requires own { HasOwn shared.now log.old.ticket.thread }
    requires next { progress.old.phase ≡ phase.Asked object op }
    requires clock { log.old.ticket.clock < 2 ^ 62 }
    ensures stands { Stands B.over limit progress.new log.new }
    ensures passes { AreSamePasses log.old.passes log.new.passes }
    ensures body { progress.new.body ≡ progress.old.body }
    ensures attempts { IfSome result (λ turned. Attempts (is_own_at shared.now log.old.ticket.thread) progress.old log.old turned progress.new log.new) }
    ensures short { IfNone result (progress.new ≡ short_of_room progress.old) }
    ensures unsent { IfNone result (SendsNone log.old log.new) }
{
    match log.try_begin(shared, object, op) {
        Ok(entry) => {
            go_on(progress, &entry);
            Some(Turned::Made(entry))
        }
        Err(TryFault::Busy(holder)) => Some(Turned::Busy(holder)),
        Err(TryFault::NoMemory) => {
            give_up(progress);
            None
        }
    }
}

/// Resumes the call that waits at the object.
fn resume<B: Body>(
    progress: &mut Progress<B>,
    limit: u32,
    log: &mut Log,
    shared: &[Shared],
    object: u32,
) -> Turned
    requires stands { Stands B.over limit progress.old log.old }
    requires suits { SuitsPasses shared.now log.old.passes log.old.ticket.thread }
    requires own { HasOwn shared.now log.old.ticket.thread }
    requires next { progress.old.phase ≡ phase.Waits object }
    ensures stands { Stands B.over limit progress.new log.new }
    ensures passes { AreSamePasses log.old.passes log.new.passes }
    ensures body { progress.new.body ≡ progress.old.body }
    ensures attempts { Attempts (is_own_at shared.now log.old.ticket.thread) progress.old log.old result progress.new log.new }
{
    match log.try_finish(shared, object) {
        Ok(entry) => {
            go_on(progress, &entry);
            Turned::Made(entry)
        }
        Err(FinishFault::NotYet) => Turned::NotYet,
        Err(FinishFault::Busy(holder)) => Turned::Busy(holder),
    }
}

/// Turns to the end, since room for a call was refused.
fn give_up<B>(progress: &mut Progress<B>)
    ensures { progress.new ≡ short_of_room progress.old }
{
    progress.phase = Phase::Ends { cut: true };
    progress.short = true;
}

/// Goes on by the event that was made.
fn go_on<B>(progress: &mut Progress<B>, entry: &Entry)
    requires { progress.old.made < 2 ^ 31 }
    ensures { progress.new ≡ after_event progress.old entry.now }
{
    progress.phase = phase_after(entry);
    progress.made += u32::from(is_call(entry.op));
}

/// Whether the operation is what a program asks: none of `begin`, `end`, `resume` and `stop`.
fn is_call(op: Op) -> bool
    ensures { result ≡ is_call op }
{
    !matches!(op, Op::Begin | Op::End { .. } | Op::Resume | Op::Stop)
}

/// The number of the thread's own object.
fn own_object(shared: &[Shared], thread: u32) -> u32
    requires own { HasOwn shared.now thread }
    requires numbered { AreNumbered shared.now }
    ensures { is_own_at shared.now thread result ≡ true }
{
    for object in shared {
        if is_own(object.kind(), thread) {
            return object.object();
        }
    }
    unreachable!()
}

/// Whether the kind is that of the thread's own object.
fn is_own(kind: Kind, thread: u32) -> bool
    ensures { result ≡ is_own thread kind }
{
    match kind {
        Kind::Thread { own, .. } => own == thread,
        _ => false,
    }
}
