//! The turn of an object that threads share: one holder, one history, seen by everyone who took it.
#![tactic(auto)]

mod held;
mod joins;
mod passes;
mod rules;
#[cfg(test)]
mod tests;
mod turns;
mod views;

pub use held::{Busy, Held};
pub use passes::Pass;
pub use tm_base::Kept;
pub use turns::Turn;
