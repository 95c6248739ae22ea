ghost use Rattle.std.specs.Prelude.{◌≡◌, ◌<◌, ◌++◌, ◌∷◌, [], false, length, MatchOption};
ghost use Rattle.tm_base.specs.States.{grant_all};
ghost use Rattle.tm_base.specs.ReaderWriter.{after_readers, first_readers};
ghost use Rattle.tm_queues.specs.WaitQueues.{IsQueue};
ghost use Rattle.tm_queues.specs.ValuedQueues.{queued_threads};
ghost use Rattle.tm_locks.specs.ReaderWriterLocks.{passed_by, without};

use tm_base::Reply;
use tm_queues::{Grants, ValuedQueue, WaitQueue};

/// The thread leaves the queue, wherever it stands, and the others keep their order.
pub fn take_out(queue: &mut WaitQueue, thread: u32)
    requires { IsQueue queue.old.threads queue.old.queue }
    ensures { queue.new ≡ without queue.old thread }
{
    for _turn in 0..queue.len() {
        pass_by(queue, thread);
    }
}

/// The oldest goes to the end of the queue, or leaves it where it is the thread.
fn pass_by(queue: &mut WaitQueue, thread: u32)
    requires { IsQueue queue.old.threads queue.old.queue }
    ensures value { queue.new.queue ≡ passed_by queue.old.queue thread }
    ensures threads { queue.new.threads ≡ queue.old.threads }
{
    match queue.pop() {
        Some(oldest) if oldest != thread => queue.push(oldest),
        _ => {}
    }
}

/// The oldest thread leaves the queue where it wants to read. `None` leaves all unchanged.
fn next_reader(queue: &mut ValuedQueue<bool>) -> Option<u32>
    ensures oldest { MatchOption result
        ((first_readers queue.old.queue ≡ []) × (after_readers queue.old.queue ≡ queue.old.queue)
        × (queue.new ≡ queue.old))
        (λ thread. queue.old.queue ≡ (record { thread = thread; value = false }) ∷ queue.new.queue) }
    ensures threads { queue.new.threads ≡ queue.old.threads }
{
    match queue.head() {
        Some((thread, false)) => {
            queue.pop();
            Some(thread)
        }
        _ => None,
    }
}

/// The readers at the head of the queue leave it, go in and are granted `Ok`.
pub fn admit_readers(queue: &mut ValuedQueue<bool>, readers: &mut WaitQueue, grants: &mut Grants)
    requires once { IsQueue readers.old.threads (readers.old.queue ++ queued_threads queue.old.queue) }
    requires places { readers.old.threads < length grants.old }
    ensures inside { readers.new.queue ≡ readers.old.queue ++ first_readers queue.old.queue }
    ensures left { queue.new.queue ≡ after_readers queue.old.queue }
    ensures granted { grants.new ≡ grant_all (first_readers queue.old.queue) Reply.Ok grants.old }
    ensures places_stay { length grants.new ≡ length grants.old }
    ensures threads { readers.new.threads ≡ readers.old.threads }
    ensures waiters { queue.new.threads ≡ queue.old.threads }
    ensures stay_once { IsQueue readers.new.threads (readers.new.queue ++ queued_threads queue.new.queue) }
{
    while let Some(thread) = next_reader(queue) {
        readers.push(thread);
        grants.grant(thread, Reply::Ok);
    }
}
