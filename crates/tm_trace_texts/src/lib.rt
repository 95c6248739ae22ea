//! The texts of traces: an exercise, a line `trace`, and a line for each event. They are read and printed.
#![tactic(auto)]

mod event_reader;
mod laws;
mod limits;
mod parts;
mod printer;
mod reader;
#[cfg(test)]
mod tests;
mod trace_faults;
mod trace_lines;

pub use laws::texts_have_one_trace;
pub use limits::MOST_TRACE_BYTES;
pub use printer::print_trace;
pub use reader::read_trace;
pub use trace_faults::TraceFault;
