//! How the words after a command's own word are taken apart by `clap`.
ghost use Rattle.std.specs.Prelude.{◌≡◌, IfErr, IfOk, None, map, string_bytes, true};
ghost use Rattle.std.specs.List.{list_any};
ghost use Rattle.clap.specs.Words.{app_of, is_simple_and_free, kind_of};
ghost use Rattle.clap.specs.declared.error.kind.ErrorKind.TheVariants.{OutOfMemory};
ghost use Rattle.tm_words.specs.CommandLines.{IsFoundIn, bare_app, is_hyphened};

use clap::error::ErrorKind;
use clap::{ArgMatches, Command, Error};
use std::alloc::Global;
use tm_base::NoMemory;

/// A command line without help, whose words begin with no program's name.
pub(crate) fn bare_command<'a>(alloc: Global, name: &'a str) -> Command<'a>
    ensures { app_of result ≡ bare_app name.entry.now }
{
    Command::new(alloc, name)
        .no_binary_name(true)
        .disable_help_flag(true)
}

/// What `clap` finds in the words, if they are words of this command line.
pub(crate) fn found_in<'a>(
    command: Command<'a>,
    words: &'a [String],
) -> Result<Option<ArgMatches<'a>>, NoMemory>
    ensures { is_simple_and_free (app_of command.entry) ≡ true
        → IfOk result (λ found. IsFoundIn (app_of command.entry) (map string_bytes words.now) found) }
{
    match command.try_get_matches_from(words) {
        Ok(matches) => Ok(Some(matches)),
        Err(error) => refused(&error),
    }
}

/// Nothing, where the words are refused, and an error where it is for want of memory.
fn refused<'a>(error: &Error) -> Result<Option<ArgMatches<'a>>, NoMemory>
    ensures nothing { IfOk result (λ found. (found ≡ None) × ¬ (kind_of error.now ≡ OutOfMemory)) }
    ensures memory { IfErr result (λ _. kind_of error.now ≡ OutOfMemory) }
{
    if error.kind() == ErrorKind::OutOfMemory {
        return Err(NoMemory);
    }
    Ok(None)
}

/// Whether one of the words begins with a hyphen, so that `clap` isn't asked for what such a word may
/// mean to it, as `--`.
pub(crate) fn have_hyphens(words: &[String]) -> bool
    ensures { result ≡ list_any (λ word. is_hyphened (string_bytes word)) words.now }
{
    words.iter().any(|word| is_hyphened(word.as_str()))
}

/// Whether the word begins with a hyphen.
pub(crate) fn is_hyphened(word: &str) -> bool
    ensures { result ≡ is_hyphened word.now }
{
    word.starts_with('-')
}
