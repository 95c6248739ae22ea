//! Objects that threads share: each call takes the object's turn, works on its book, and gives the turn
//! back.
#![tactic(auto)]

mod books;
mod calls;
mod faults;
mod joins;
mod laws;
mod objects;
#[cfg(test)]
mod tests;
mod turns;

pub use faults::{FinishFault, TryFault};
pub use laws::own_events_tell;
pub use objects::{Pass, Passes, Shared};
pub use tm_turn::Busy;
