//! Event lines of traces: what one says, or what is wrong with it.
#![tactic(auto)]

mod bars;
mod event_lines;
mod event_names;
mod event_numbers;
mod event_words;
mod laws;
mod named_objects;
mod reply_words;
#[cfg(test)]
mod tests;
mod word_faults;

pub use event_lines::{EventReader, read_event};
pub use laws::{event_lines_say_events, event_texts_read_back};
