ghost use Rattle.std.specs.Prelude.{◌≡◌, IfOk, MatchOption, map, string_bytes};
ghost use Rattle.std.specs.List.{list_all};
ghost use Rattle.clap.specs.Words.{app_of};
ghost use Rattle.tm_base.specs.declared.rules.Rules.{Rules};
ghost use Rattle.tm_words.specs.RunWords.{SpellsRules};
ghost use Rattle.tm_words.specs.CommandLines.{is_readable, run_app};

use crate::arguments::{bare_command, found_in, is_hyphened};
use crate::settings::rules_set;
use clap::{Arg, ArgAction, Command};
use std::alloc::{AllocError, Global};
use tm_base::{NoMemory, Rules};

/// The rules of the run that the words after `run` spell, if they spell one: options, each at most
/// once, in any order.
pub(crate) fn rules_of(alloc: Global, words: &[String]) -> Result<Option<Rules>, NoMemory>
    ensures { IfOk result (λ found. MatchOption found
        ((rules : Rules) → ¬ SpellsRules (map string_bytes words.now) rules)
        (λ rules. SpellsRules (map string_bytes words.now) rules)) }
{
    if !are_readable(words) {
        return Ok(None);
    }
    let Some(matches) = found_in(run_command(alloc)?, words)? else {
        return Ok(None);
    };
    Ok(rules_set(matches.get_str("schedule"), matches.get_str("events")))
}

/// The command line of `run`: its options, each with a value.
fn run_command<'a>(alloc: Global) -> Result<Command<'a>, AllocError>
    ensures { IfOk result (λ command. app_of command ≡ run_app) }
{
    let schedule = Arg::new(alloc, "schedule")
        .long("schedule")
        .action(ArgAction::Set);
    let events = Arg::new(alloc, "events")
        .long("events")
        .action(ArgAction::Set);
    bare_command(alloc, "run").arg(schedule)?.arg(events)
}

/// Whether each word with a leading hyphen is the spelling of an option, so that `clap` isn't asked
/// for what it has besides, as abbreviations and `--`.
fn are_readable(words: &[String]) -> bool
    ensures { result ≡ list_all (λ word. is_readable (string_bytes word)) words.now }
{
    words.iter().all(|word| is_readable(word.as_str()))
}

/// Whether the word is an option, alone or with its value, or begins with no hyphen.
fn is_readable(word: &str) -> bool
    ensures { result ≡ is_readable word.now }
{
    !is_hyphened(word)
        || word == "--schedule"
        || word.starts_with("--schedule=")
        || word == "--events"
        || word.starts_with("--events=")
}
