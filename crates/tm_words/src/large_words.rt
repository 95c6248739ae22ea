ghost use Rattle.std.specs.Prelude.{◌≡◌, ℕ, IfOk, MatchOption, map, string_bytes};
ghost use Rattle.clap.specs.Words.{app_of};
ghost use Rattle.tm_words.specs.LargeWords.{SpellsNumber};
ghost use Rattle.tm_words.specs.CommandLines.{large_app};

use crate::arguments::{bare_command, found_in, have_hyphens};
use crate::numbers::value_of;
use clap::{Arg, Command};
use std::alloc::{AllocError, Global};
use tm_base::NoMemory;

/// The number that the words after `large` spell, if they spell one: the digits of one below 2^64.
pub(crate) fn number_of(alloc: Global, words: &[String]) -> Result<Option<u64>, NoMemory>
    ensures { IfOk result (λ found. MatchOption found
        ((n : ℕ) → ¬ SpellsNumber (map string_bytes words.now) n)
        (λ n. SpellsNumber (map string_bytes words.now) n)) }
{
    if have_hyphens(words) {
        return Ok(None);
    }
    let Some(matches) = found_in(large_command(alloc)?, words)? else {
        return Ok(None);
    };
    // Words without a number are refused, so that nothing is read in its place.
    Ok(value_of(matches.get_str("number").unwrap_or_default()))
}

/// The command line of `large`: one number.
fn large_command<'a>(alloc: Global) -> Result<Command<'a>, AllocError>
    ensures { IfOk result (λ command. app_of command ≡ large_app) }
{
    let number = Arg::new(alloc, "number").required(true);
    bare_command(alloc, "large").arg(number)
}
