//! The text of a run: a row for each event, a last line that says how the run ended, and a summary.
#![tactic(auto)]

mod event_texts;
mod last_lines;
mod pieces;
mod row_texts;
mod rows;
mod summaries;
mod words;

pub use event_texts::{
    append_event, append_number, append_object, append_operation, append_reply, append_thread,
};
pub use last_lines::last_line;
pub use rows::{append_row, row};
pub use summaries::summary;

#[cfg(test)]
mod tests;
