ghost use Rattle.std.specs.Prelude.{◌≡◌, map, string_bytes, IfOk, MatchOption};
ghost use Rattle.tm_words.specs.declared.commands.Command.{Command};
ghost use Rattle.tm_words.specs.Commands.{CommandsAreWithinLimits, Spells, SpellsArguments, SpellsNothing, WordsSpellOneCommand, command_word};

use crate::check_words::is_alone;
use crate::large_words::number_of;
use crate::make_words::plan_of;
use crate::run_words::rules_of;
use std::alloc::Global;
use tm_base::{NoMemory, Rules};
use tm_makers::Plan;

/// What the program is asked to do.
#[derive(Clone, Copy, Debug, PartialEq, Eq)]
pub enum Command {
    /// To run an exercise under these rules.
    Run(Rules),
    /// To judge a trace.
    Check,
    /// To write the text of the exercise that this plan makes.
    Make(Plan),
    /// To run the large exercise that is drawn from this number.
    Large(u64),
}

/// The command that the words after the program's name spell, if they spell one: `run` and options,
/// `check` alone, `make` with a kind and its sizes, or `large` and a number. `None` where they spell none.
pub fn spell(alloc: Global, words: &[String]) -> Result<Option<Command>, NoMemory>
    ensures spelled { IfOk result (λ found. MatchOption found (SpellsNothing words.now) (λ command. Spells words.now command)) }
{
    let Some((first, arguments)) = words.split_first() else {
        return Ok(None);
    };
    command_of(alloc, first.as_str(), arguments)
}

/// The command that begins with this word and goes on with these arguments, if there is one.
fn command_of(alloc: Global, word: &str, arguments: &[String]) -> Result<Option<Command>, NoMemory>
    ensures { IfOk result (λ found. MatchOption found
        ((c : Command) → word.now ≡ command_word c → ¬ SpellsArguments (map string_bytes arguments.now) c)
        (λ c. (word.now ≡ command_word c) × SpellsArguments (map string_bytes arguments.now) c)) }
{
    match word {
        "run" => Ok(rules_of(alloc, arguments)?.map(Command::Run)),
        "check" => Ok(is_alone(alloc, arguments)?.then_some(Command::Check)),
        "make" => Ok(plan_of(alloc, arguments)?.map(Command::Make)),
        "large" => Ok(number_of(alloc, arguments)?.map(Command::Large)),
        _ => Ok(None),
    }
}

/// Words spell one command at most.
pub fn words_spell_one_command()
    ensures { WordsSpellOneCommand }
{}

/// What words spell is within its limits: a run's limit of calls, and the sizes of a plan.
pub fn commands_are_within_limits()
    ensures { CommandsAreWithinLimits }
{}
