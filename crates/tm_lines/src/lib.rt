//! Lines of texts: their words, what each has to be, and what is wrong with a line.
#![tactic(auto)]

mod checker;
mod faults;
mod first_words;
mod found;
mod laws;
mod limits;
mod line_faults;
mod lines;
mod names;
mod numerals;
mod places;
mod plain_lines;
mod saying;
mod slots;
#[cfg(test)]
mod tests;
mod words;

pub use checker::{Checker, first_fault};
pub use faults::{Fault, FaultyLine};
pub use first_words::{Declarator, FirstWord, Slot};
pub use laws::{fault_words_are_distinct, spellings_read_back};
pub use limits::{
    GREATEST_NUMBER, LEAST_NUMBER, MOST_BYTES, MOST_CAPACITY, MOST_CONDITIONS, MOST_INSTRUCTIONS,
    MOST_OBJECTS, MOST_PARTIES, MOST_START, MOST_TURNS,
};
pub use line_faults::fault_of_line;
pub use lines::{first_line, first_word, is_ignored, is_printed, without_cr};
pub use names::{Known, Names, declared_kind, is_new_name};
pub use numerals::{begins_with_r, comparison, number, register};
pub use places::{OpenBlock, Place};
pub use saying::{Line, Said};
pub use words::Words;
