//! Rings, which carry events from one thread to another, in order. In this form the events stay in the
//! outbox until both ends are brought together, and are given then.
#![tactic(auto)]

mod inboxes;
mod outboxes;
mod rests;
mod rings;
#[cfg(test)]
mod tests;

pub use inboxes::{Inbox, Inboxes};
pub use outboxes::Outbox;
pub use rests::Rest;
pub use rings::{close, ring};
