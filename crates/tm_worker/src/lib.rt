//! Workers: threads that run programs on shared objects, by their passes, and send each event to their outbox.
#![tactic(auto)]

mod homes;
mod logs;
mod phases;
mod progresses;
mod steps;
#[cfg(test)]
mod tests;
mod turned;
mod turns;
mod workers;

pub use homes::{Home, WorkerFault};
pub use phases::Phase;
pub use turned::Turned;
pub use workers::Worker;
