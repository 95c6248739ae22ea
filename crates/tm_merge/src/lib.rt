//! The causal merger: events come in any order, and are shown in an order that keeps happened-before.
#![tactic(auto)]

mod arrivals;
mod holds;
mod intake;
mod lines;
mod mergers;
mod numbering;
mod refusals;
#[cfg(test)]
mod tests;

pub use holds::{Hold, Missing};
pub use mergers::Merger;
pub use numbering::{numbered_events_are_closed, numbered_events_are_in_order};
pub use refusals::{Field, Refused, refusals_are_founded};
