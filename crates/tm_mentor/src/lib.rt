//! The top call of ThreadMentor: it does what a command's words say, and writes the text of a run, its summary, or
//! a ready-made exercise. A process takes the words from its arguments, and ends with the command's status.
#![tactic(auto)]

mod answers;
mod check_command;
mod large_command;
mod make_command;
mod outcomes;
mod processes;
mod readings;
mod refusals;
mod run_command;
mod top_calls;

pub use answers::Answer;
pub use outcomes::{Outcome, statuses_name_answers};
pub use processes::{command_words, exit_code, run_process};
pub use refusals::Refusal;
pub use top_calls::mentor_alone;

#[cfg(test)]
mod tests;
#[cfg(test)]
mod whole_checks;
#[cfg(test)]
mod whole_runs;
