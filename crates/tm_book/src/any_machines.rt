ghost use Rattle.std.specs.Prelude.{◌≡◌, IfOk};
ghost use Rattle.tm_base.specs.Machines.{fresh};
ghost use Rattle.tm_book.specs.AnyMachines.{any_object};
ghost use Rattle.tm_book.specs.Made.{CanMake};

use std::alloc::Global;
use tm_base::{Kind, Machine, NoMemory, Op, Reply};
use tm_channels::{AsyncM, SyncM, ThreadM, VarM};
use tm_locks::{BarrierM, MutexM, RwM, SemM};
use tm_monitors::{HoareM, MesaM};

/// An object of any kind.
#[derive(Drop)]
pub enum AnyMachine {
    Mutex(MutexM),
    Sem(SemM),
    Hoare(HoareM),
    Mesa(MesaM),
    Barrier(BarrierM),
    Rw(RwM),
    Sync(SyncM),
    Async(AsyncM),
    Var(VarM),
    Thread(ThreadM),
}

impl AnyMachine {
    /// The object of the kind before its first event, for threads 1 to `threads`, which are at most
    /// `MOST_THREADS`. The kind's own condition holds: a semaphore's value is at most
    /// `GREATEST_SEMAPHORE_VALUE`, a barrier has parties, an asynchronous channel has room for 1 to
    /// `MOST_MESSAGES`, and the own thread of a thread object is one of the threads.
    pub fn make(alloc: Global, threads: u32, kind: Kind) -> Result<AnyMachine, NoMemory>
        requires { CanMake kind threads }
        ensures { IfOk result (λ machine. any_object machine ≡ fresh kind threads) }
    {
        Ok(match kind {
            Kind::Mutex => AnyMachine::Mutex(MutexM::make(alloc, threads)?),
            Kind::Sem { value } => AnyMachine::Sem(SemM::make(alloc, threads, value)?),
            Kind::Hoare { conditions } => {
                AnyMachine::Hoare(HoareM::make(alloc, threads, conditions)?)
            }
            Kind::Mesa { conditions } => AnyMachine::Mesa(MesaM::make(alloc, threads, conditions)?),
            Kind::Barrier { parties } => AnyMachine::Barrier(BarrierM::make(
                alloc, threads, parties,
            )?),
            Kind::Rw => AnyMachine::Rw(RwM::make(alloc, threads)?),
            Kind::Sync => AnyMachine::Sync(SyncM::make(alloc, threads)?),
            Kind::Async { capacity } => AnyMachine::Async(AsyncM::make(alloc, threads, capacity)?),
            Kind::Var { value } => AnyMachine::Var(VarM::make(threads, value)),
            Kind::Thread { own, held } => {
                AnyMachine::Thread(ThreadM::make(alloc, threads, own, held)?)
            }
        })
    }
}

/// What the machine of the kind at hand does: one line for each kind.
macro_rules! of_kind {
    ($any:expr, $machine:ident => $does:expr) => {
        match $any {
            AnyMachine::Mutex($machine) => $does,
            AnyMachine::Sem($machine) => $does,
            AnyMachine::Hoare($machine) => $does,
            AnyMachine::Mesa($machine) => $does,
            AnyMachine::Barrier($machine) => $does,
            AnyMachine::Rw($machine) => $does,
            AnyMachine::Sync($machine) => $does,
            AnyMachine::Async($machine) => $does,
            AnyMachine::Var($machine) => $does,
            AnyMachine::Thread($machine) => $does,
        }
    };
}

impl Machine for AnyMachine {
    ghost object = { any_object };

    fn kind(&self) -> Kind {
        of_kind!(self, machine => machine.kind())
    }

    fn step(&mut self, thread: u32, op: Op) -> Reply {
        of_kind!(self, machine => machine.step(thread, op))
    }

    fn would(&self, thread: u32, op: Op) -> Reply {
        of_kind!(self, machine => machine.would(thread, op))
    }

    fn pending(&self, thread: u32) -> bool {
        of_kind!(self, machine => machine.pending(thread))
    }

    fn poll(&self, thread: u32) -> Option<Reply> {
        of_kind!(self, machine => machine.poll(thread))
    }

    fn resume(&mut self, thread: u32) -> Option<Reply> {
        of_kind!(self, machine => machine.resume(thread))
    }

    fn waiters(&self) -> u32 {
        of_kind!(self, machine => machine.waiters())
    }

    fn stopped(&self) -> bool {
        of_kind!(self, machine => machine.stopped())
    }

    fn stop(&mut self) {
        of_kind!(self, machine => machine.stop())
    }

    fn holds(&self, thread: u32) -> bool {
        of_kind!(self, machine => machine.holds(thread))
    }
}
