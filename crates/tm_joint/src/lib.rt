//! The joint replayer: it keeps the joint state of an exercise, and applies one event after the other.
#![tactic(auto)]

mod asked;
mod bars;
mod bits;
mod joints;
mod judging;
mod laws;
mod objects;
mod refusals;
mod seats;
mod showing;

pub use asked::Asked;
pub use bars::is_runnable;
pub use joints::Joint;
pub use laws::{causes_are_unique, refused_events_are_no_steps};
pub use refusals::{Cause, Illegal};
pub use seats::Seat;

#[cfg(test)]
mod tests;
