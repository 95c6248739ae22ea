//! Ready-made exercises: the classic ones, by a plan with their sizes, and a large one that a number makes.
#![tactic(auto)]

mod buffers;
mod coasters;
mod drafts;
mod instructions;
mod large_exercises;
mod numbered_names;
mod philosophers;
mod plans;
mod readers;
mod rings;
#[cfg(test)]
mod tests;

pub use large_exercises::large;
pub use plans::{Guard, Plan, Way, make_exercise};
