//! The monitors of Hoare and of Mesa, after Hoare and after Lampson and Redell, with the choices that
//! docs/DECISIONS.md names.
#![tactic(auto)]

ghost use Rattle.tm_monitors.specs.HoareLaws.{OnlySuchSignalsWait, SignalledComesInside, SignallersGoFirst};
ghost use Rattle.tm_monitors.specs.MesaLaws.{NotifyingLetsNobodyIn};

mod hoare_monitors;
mod mesa_monitors;
mod monitor_queues;
#[cfg(test)]
mod tests;
mod urgent_stacks;

pub use hoare_monitors::HoareM;
pub use mesa_monitors::MesaM;

/// In every legal history of a Hoare monitor a `signal` by the thread inside, of a condition at which
/// somebody waits, waits and lets the oldest there in at once, and nobody else comes inside before that
/// thread has resumed. No other `signal` waits.
pub fn signalled_threads_come_inside()
    ensures wakes { SignalledComesInside }
    ensures waits { OnlySuchSignalsWait }
{}

/// In every legal history of a Hoare monitor signallers that wait come inside before anyone at the
/// entrance, the newest first. Only who is signalled comes inside before them.
pub fn signallers_go_first()
    ensures { SignallersGoFirst }
{}

/// In every legal history of a Mesa monitor `signal` and `broadcast` change nobody inside.
pub fn notifying_lets_nobody_in()
    ensures { NotifyingLetsNobodyIn }
{}
