//! The rows of a legal run that is given as a list of events, and the line that says so.
#![tactic(auto)]

mod laws;
mod legal_texts;

pub use laws::legal_runs_have_one_text;
pub use legal_texts::write_legal;
