//! The collector of a run: it takes events one by one, shows them in an order that keeps happened-before,
//! applies those shown to the joint state, and writes a row for each.
#![tactic(auto)]

mod collectors;
mod laws;
mod refusals;
mod writers;

pub use collectors::Collector;
pub use laws::{next_events_are_shown, next_rows_are_begun};
pub use refusals::Refusal;
pub use writers::{Stop, Writer};

#[cfg(test)]
mod tests;
