//! Traces: the events of a run over its exercise, in the order of their lines, and the judgement whether they
//! can have been a run.
#![tactic(auto)]

mod faults;
mod judging;
mod laws;
mod sorting;
#[cfg(test)]
mod tests;
mod traces;

pub use faults::JudgeFault;
pub use judging::judge;
pub use laws::legal_events_are_accepted;
pub use traces::Trace;
