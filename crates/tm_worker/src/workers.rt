ghost use Rattle.std.specs.Prelude.{◌≡◌, ◌≤◌, [], List, IfErr, IfOk, IsOk, false, true};
ghost use Rattle.tm_base.specs.declared.kinds.Kind.{Kind};
ghost use Rattle.tm_base.specs.Tickets.{opening};
ghost use Rattle.tm_worker.specs.declared.phases.Phase.TheVariants as phase;
ghost use Rattle.tm_worker.specs.Logs.{AreSamePasses, KeepsLog};
ghost use Rattle.tm_worker.specs.Outcomes.{SuitsPasses};
ghost use Rattle.tm_worker.specs.Standings.{HasOwn, is_own_at, kinds_of};
ghost use Rattle.tm_worker.specs.Turning.{Ran, Turns, is_done, is_over, is_worn};
ghost use Rattle.tm_worker.specs.Workers.{AreFreshPasses};

use crate::homes::{Home, WorkerFault};
use crate::logs::Log;
use crate::phases::Phase;
use crate::progresses::Progress;
use crate::turned::Turned;
use crate::turns;
use crossbeam_utils::Backoff;
use std::alloc::Global;
use std::marker::Model;
use std::sync::Wait;
use tm_base::{Body, Sequence, Ticket};
use tm_outside::Gate;
use tm_ring::Outbox;
use tm_shared::{Passes, Shared};

/// A thread that runs a program on shared objects, by its passes, and sends each event to its outbox. Contracts
/// see how many calls it may make, how it goes on with its program, and what it recorded.
#[derive(Drop)]
pub struct Worker<B: Body> {
    limit: u32,
    progress: Progress<B>,
    log: Log,
}

impl<B: Body> Model for Worker<B> {
    ghost use Rattle.tm_worker.specs.Workers.{WorkerView};
    ghost use Rattle.tm_worker.specs.Standings.{Stands};

    ghost Value = { WorkerView B };

    ghost view = { λ w. record { limit = w.limit; progress = w.progress; log = w.log } };

    ghost invariant = { λ w. Stands B.over w.limit w.progress w.log };
}

impl<B: Body> Worker<B> {
    /// A worker of thread 1 to 64, which has made no event, and may make 1 to 10,000 calls. It has a pass for
    /// each object. Only running out of memory refuses it, and hands back what was moved in.
    pub fn make(
        _alloc: Global,
        body: B,
        thread: u32,
        passes: Passes,
        mut outbox: Outbox,
        limit: u32,
    ) -> Result<Worker<B>, WorkerFault<B>>
        requires thread { (1 ≤ thread) × (thread ≤ 64) }
        requires limit { (1 ≤ limit) × (limit ≤ 10000) }
        requires passes { AreFreshPasses thread passes }
        requires outbox { outbox.sent ≡ [] }
        requires body { B.over body ≡ false }
        ensures limit { IfOk result (λ worker. worker.limit ≡ limit) }
        ensures progress { IfOk result (λ worker. worker.progress ≡ record { phase = phase.NotBegun; body = body; made = 0; short = false }) }
        ensures passes { IfOk result (λ worker. worker.log.passes ≡ passes) }
        ensures ticket { IfOk result (λ worker. worker.log.ticket ≡ opening thread) }
        ensures outbox { IfOk result (λ worker. worker.log.outbox ≡ record outbox { spare = worker.log.outbox.spare }) }
        ensures ready { 3 ≤ outbox.spare → IsOk result }
        ensures handed_back { IfErr result (λ fault. (fault.body ≡ body) × (fault.passes ≡ passes) × (fault.outbox ≡ outbox)) }
    {
        if outbox.make_room(3).is_err() {
            return Err(WorkerFault {
                body,
                passes,
                outbox,
            });
        }
        let progress = Progress {
            phase: Phase::NotBegun,
            body,
            made: 0,
            short: false,
        };
        let log = Log {
            passes: passes.into_vec(),
            ticket: Ticket::make(thread),
            outbox,
        };
        Ok(Worker {
            limit,
            progress,
            log,
        })
    }

    /// Makes the next event, if it can be made without waiting, and sends it. That is the thread's `begin`, what
    /// its program asks, the `resume` of a call that waits, or its `end`: cut, where the last reply was
    /// `Stopped`, where its program asks more calls than it may make, or where room for a call was refused. It
    /// passes the gate before each call, while it holds no turn. `NotYet` only where the call waits ungranted at
    /// this turn's own look, `Busy` only where this turn lost the next event's object to the pass that it
    /// names, and `Over` exactly where the `end` was made before or the worker is worn.
    pub fn turn<G: Gate>(&mut self, shared: &[Shared], gate: &G) -> Turned
        requires suits { SuitsPasses shared.now self.old.log.passes self.old.log.ticket.thread }
        requires own { HasOwn shared.now self.old.log.ticket.thread }
        requires body { B.is_for (kinds_of shared.now) self.old.progress.body }
        ensures turns { Turns B.asked B.rest self.old.limit (is_own_at shared.now self.old.log.ticket.thread) self.old.progress self.old.log result self.new.progress self.new.log }
        ensures over { is_over result ≡ is_done self.old.progress self.old.log }
        ensures passes { AreSamePasses self.old.log.passes self.new.log.passes }
        ensures thread { self.new.log.ticket.thread ≡ self.old.log.ticket.thread }
        ensures limit { self.new.limit ≡ self.old.limit }
        ensures stays { (kinds : List Kind) → B.is_for kinds self.old.progress.body → B.is_for kinds self.new.progress.body }
    {
        turns::turn(&mut self.progress, self.limit, &mut self.log, shared, gate)
    }

    /// Makes turns until the answer is `Over`, and holds back between those that make no event. That there is an
    /// end isn't promised.
    pub fn run<R: Wait, G: Gate>(&mut self, rt: &R, shared: &[Shared], gate: &G)
        requires suits { SuitsPasses shared.now self.old.log.passes self.old.log.ticket.thread }
        requires own { HasOwn shared.now self.old.log.ticket.thread }
        requires body { B.is_for (kinds_of shared.now) self.old.progress.body }
        ensures ran { Ran B.asked B.rest self.old.limit (is_own_at shared.now self.old.log.ticket.thread) self.old.progress self.old.log self.new.progress self.new.log }
        ensures over { is_done self.new.progress self.new.log ≡ true }
        ensures passes { AreSamePasses self.old.log.passes self.new.log.passes }
        ensures limit { self.new.limit ≡ self.old.limit }
        ensures stays { (kinds : List Kind) → B.is_for kinds self.old.progress.body → B.is_for kinds self.new.progress.body }
    {
        let backoff = Backoff::new();
        for _ in rt.forever() {
            match self.turn(shared, gate) {
                Turned::Made(_) => backoff.reset(),
                Turned::NotYet | Turned::Busy(_) => backoff.snooze(),
                Turned::Over => return,
            }
        }
        unreachable!()
    }

    /// Whether room for a call was refused, which ended its program.
    pub fn short(&self) -> bool
        ensures { result ≡ self.now.progress.short }
    {
        self.progress.short
    }

    /// Whether its clock is 2^62 or more, while it waits nowhere and hasn't made its `end`. It makes no event
    /// more then.
    pub fn worn(&self) -> bool
        ensures { result ≡ is_worn self.now.progress self.now.log }
    {
        turns::is_worn(&self.progress, &self.log)
    }

    /// Hands on what it was made of. What the outbox sent are the thread's own events from place 1 on, in order,
    /// stamped by Lamport's rule, and those on each object are the own events of its pass.
    pub fn home(self) -> Home<B>
        ensures body { result.body ≡ self.progress.body }
        ensures passes { result.passes ≡ self.log.passes }
        ensures ticket { result.ticket ≡ self.log.ticket }
        ensures outbox { result.outbox ≡ self.log.outbox }
        ensures keeps { KeepsLog result.passes result.ticket result.outbox.sent }
    {
        let Worker { progress, log, .. } = self;
        let Progress { body, .. } = progress;
        let Log {
            passes,
            ticket,
            outbox,
        } = log;
        Home {
            body,
            passes: Sequence::from_vec(passes),
            ticket,
            outbox,
        }
    }
}
