//! The words of ThreadMentor: operations, replies, kinds of object, events and tickets, and the
//! definitions that every other crate's contracts cite.
#![tactic(auto)]

mod asks;
mod bars;
mod bodies;
mod draws;
mod ends;
mod events;
mod kept;
mod kinds;
mod limits;
mod lists;
mod machines;
mod memory;
mod names;
mod opcodes;
mod operations;
mod replies;
mod rules;
#[cfg(test)]
mod tests;
mod tickets;

pub use asks::Ask;
pub use bars::Bar;
pub use bodies::Body;
pub use draws::{next_draw, place_of};
pub use ends::End;
pub use events::Entry;
pub use kept::Kept;
pub use kinds::Kind;
pub use limits::{GREATEST_SEMAPHORE_VALUE, MOST_THREADS};
pub use lists::{Bytes, Entries, Sequence};
pub use machines::Machine;
pub use memory::NoMemory;
pub use names::Name;
pub use opcodes::{Opcode, words_spell_one_operation};
pub use operations::Op;
pub use replies::Reply;
pub use rules::{MOST_CALLS, Rules, USUAL_CALLS};
pub use tickets::Ticket;
