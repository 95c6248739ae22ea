//! The three lines that say why the events of a trace can't have been a run of its exercise.
#![tactic(auto)]

mod expected;
mod fault_lines;
#[cfg(test)]
mod tests;

pub use fault_lines::refusal_lines;
