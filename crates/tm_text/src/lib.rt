//! Exercises: their objects, names and programs, and the reader of their text.
#![tactic(auto)]

mod exercises;
mod instructions;
mod laws;
mod objects;
mod printer;
mod programs;
mod reader;
mod scripts;
#[cfg(test)]
mod tests;
mod text_faults;
mod values;

pub use exercises::{Declaration, Exercise};
pub use laws::{
    asked_calls_fit, calls_fit, canonical_texts_read_back, exercises_are_spelled,
    exercises_are_well_formed, one_exercise,
};
pub use printer::print;
pub use reader::read;
pub use scripts::Script;
pub use text_faults::TextFault;
pub use tm_lines::{Fault, MOST_BYTES, MOST_OBJECTS};
