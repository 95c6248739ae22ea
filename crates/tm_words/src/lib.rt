//! What the words after the program's name spell: a command with its options, sizes or number.
#![tactic(auto)]

mod arguments;
mod check_words;
mod commands;
mod large_words;
mod make_words;
mod numbers;
mod run_words;
mod settings;
#[cfg(test)]
mod tests;

pub use commands::{Command, commands_are_within_limits, spell, words_spell_one_command};
