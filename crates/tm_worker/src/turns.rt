ghost use Rattle.std.specs.Prelude.{◌≡◌, List};
ghost use Rattle.tm_base.specs.declared.kinds.Kind.{Kind};
ghost use Rattle.tm_worker.specs.Logs.{AreSamePasses};
ghost use Rattle.tm_worker.specs.Outcomes.{SuitsPasses};
ghost use Rattle.tm_worker.specs.Progresses.{is_ended};
ghost use Rattle.tm_worker.specs.Standings.{HasOwn, Stands, is_own_at, kinds_of};
ghost use Rattle.tm_worker.specs.Turning.{Turns, is_done, is_over, is_worn};

use crate::logs::Log;
use crate::phases::Phase;
use crate::progresses::Progress;
use crate::steps::{attempt, prepare};
use crate::turned::Turned;
use tm_base::Body;
use tm_outside::Gate;
use tm_shared::Shared;

/// Makes the thread's next event, if it can be made now.
pub(crate) fn turn<B: Body, G: Gate>(
    progress: &mut Progress<B>,
    limit: u32,
    log: &mut Log,
    shared: &[Shared],
    gate: &G,
) -> Turned
    requires stands { Stands B.over limit progress.old log.old }
    requires suits { SuitsPasses shared.now log.old.passes log.old.ticket.thread }
    requires own { HasOwn shared.now log.old.ticket.thread }
    requires body { B.is_for (kinds_of shared.now) progress.old.body }
    ensures stands { Stands B.over limit progress.new log.new }
    ensures passes { AreSamePasses log.old.passes log.new.passes }
    ensures thread { log.new.ticket.thread ≡ log.old.ticket.thread }
    ensures stays { (kinds : List Kind) → B.is_for kinds progress.old.body → B.is_for kinds progress.new.body }
    ensures turns { Turns B.asked B.rest limit (is_own_at shared.now log.old.ticket.thread) progress.old log.old result progress.new log.new }
    ensures over { is_over result ≡ is_done progress.old log.old }
{
    if is_ended(progress) || is_worn(progress, log) {
        return Turned::Over;
    }
    prepare(progress, limit, log, gate);
    attempt(progress, limit, log, shared)
}

/// Whether the thread made its `end`.
pub(crate) fn is_ended<B>(progress: &Progress<B>) -> bool
    ensures { result ≡ is_ended progress.now.phase }
{
    matches!(progress.phase, Phase::Ended)
}

/// Whether the thread's clock has come so far that it makes no event more.
pub(crate) fn is_worn<B>(progress: &Progress<B>, log: &Log) -> bool
    ensures { result ≡ is_worn progress.now log.now }
{
    log.ticket.clock() >= 1 << 62 && log.ticket.waits().is_none() && !is_ended(progress)
}
