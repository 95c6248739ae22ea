//! Programs of exercises: calls, registers and blocks, and what a program asks as it goes on.
#![tactic(auto)]

mod code;
mod cursors;
mod instructions;
mod interpreters;
mod laws;
mod limits;
mod registers;
#[cfg(test)]
mod tests;

pub use instructions::{Comparison, Instruction, Operand};
pub use interpreters::Interpreter;
pub use laws::{blocks_unfold, calls_stay, programs_are_spelled, rests_are_settled};
pub use limits::MOST_BLOCKS;
