//! Runs of exercises. For now a run is alone: one event a turn, by the thread that the schedule chooses.
#![tactic(auto)]

mod alone_runs;
mod book_calls;
mod choices;
mod endings;
mod laws;
mod next_calls;
mod runs;
mod turns;

pub use laws::{
    alone_runs_end, begun_runs_are_prefixes, exercises_have_one_alone_run,
    exercises_have_one_alone_text,
};
pub use runs::{Finished, alone};
