ghost use Rattle.std.specs.Prelude.{◌≡◌, ◌∷◌, ◌^◌, ◌<◌, codes, List, ℕ, length, map, string_bytes, IfOk, MatchOption};
ghost use Rattle.clap.specs.Walk.{texts};
ghost use Rattle.clap.specs.Words.{app_of};
ghost use Rattle.tm_words.specs.CommandLines.{make_app};
ghost use Rattle.std.specs.List.{AllByRecursion};
ghost use Rattle.tm_makers.specs.declared.plans.Guard.{Guard};
ghost use Rattle.tm_makers.specs.declared.plans.Way.{Way};
ghost use Rattle.tm_words.specs.MakeWords.{AreNumbers, Describes, SpellsNoPlan, SpellsPlan, guard_word, way_word};

use crate::arguments::{bare_command, found_in, have_hyphens};
use crate::numbers::size_of;
use clap::{Arg, Command};
use std::alloc::{AllocError, Global};
use tm_base::NoMemory;
use tm_makers::{Guard, Plan, Way};

/// The plan that the words after `make` spell, if they spell one: the word of a kind, its sizes, and
/// the word of its way or guard where it has one, with all sizes in their ranges.
pub(crate) fn plan_of(alloc: Global, words: &[String]) -> Result<Option<Plan>, NoMemory>
    ensures { IfOk result (λ found. MatchOption found (SpellsNoPlan (map string_bytes words.now))
        (λ plan. SpellsPlan (map string_bytes words.now) plan)) }
{
    if have_hyphens(words) {
        return Ok(None);
    }
    let Some(matches) = found_in(make_command(alloc)?, words)? else {
        return Ok(None);
    };
    // Words without a kind or without sizes are refused, so that nothing is read in their place.
    let kind = matches.get_str("kind").unwrap_or_default();
    let sizes = matches.get_strs("sizes").unwrap_or_default();
    Ok(plan_in_range(kind, sizes))
}

/// The command line of `make`: a kind, and its sizes with the word of its way or guard.
fn make_command<'a>(alloc: Global) -> Result<Command<'a>, AllocError>
    ensures { IfOk result (λ command. app_of command ≡ make_app) }
{
    let kind = Arg::new(alloc, "kind").required(true);
    // From a coaster's two sizes up to a buffer's four and its guard.
    let sizes = Arg::new(alloc, "sizes").num_args(2..=5).required(true);
    bare_command(alloc, "make").arg(kind)?.arg(sizes)
}

/// The plan of the kind with this word that the words after it spell, with all sizes in their ranges.
fn plan_in_range(kind: &str, words: &[&str]) -> Option<Plan>
    ensures { MatchOption result (SpellsNoPlan (kind.now ∷ texts words.now))
        (λ plan. SpellsPlan (kind.now ∷ texts words.now) plan) }
{
    let plan = plan_of_kind(kind, words)?;
    plan.is_in_range().then_some(plan)
}

/// The plan of the kind with this word that the words after it describe. It may be out of range, and
/// where there is none, no plan in range is described.
fn plan_of_kind(kind: &str, words: &[&str]) -> Option<Plan>
    ensures { MatchOption result (SpellsNoPlan (kind.now ∷ texts words.now))
        (λ plan. Describes (kind.now ∷ texts words.now) plan) }
{
    match kind {
        "philosophers" => philosophers(words),
        "buffer" => buffer(words),
        "readers" => readers(words),
        "coaster" => coaster(words),
        "ring" => ring(words),
        _ => None,
    }
}

/// How many philosophers, how many rounds, and their way.
fn philosophers(words: &[&str]) -> Option<Plan>
    ensures { MatchOption result (SpellsNoPlan (codes "philosophers" ∷ texts words.now))
        (λ plan. Describes (codes "philosophers" ∷ texts words.now) plan) }
{
    let (way, numbers) = words.split_last()?;
    let way = way_of(way)?;
    let [n, rounds] = sizes::<2>(numbers)?;
    Some(Plan::Philosophers { n, rounds, way })
}

/// How many producers and consumers, how many places, how many items of a producer, and the guard.
fn buffer(words: &[&str]) -> Option<Plan>
    ensures { MatchOption result (SpellsNoPlan (codes "buffer" ∷ texts words.now))
        (λ plan. Describes (codes "buffer" ∷ texts words.now) plan) }
{
    let (guard, numbers) = words.split_last()?;
    let guard = guard_of(guard)?;
    let [producers, consumers, places, items] = sizes::<4>(numbers)?;
    Some(Plan::Buffer {
        producers,
        consumers,
        places,
        items,
        guard,
    })
}

/// How many readers and writers, and how many rounds.
fn readers(words: &[&str]) -> Option<Plan>
    ensures { MatchOption result (SpellsNoPlan (codes "readers" ∷ texts words.now))
        (λ plan. Describes (codes "readers" ∷ texts words.now) plan) }
{
    let [readers, writers, rounds] = sizes::<3>(words)?;
    Some(Plan::Readers {
        readers,
        writers,
        rounds,
    })
}

/// How many seats, and how many rides.
fn coaster(words: &[&str]) -> Option<Plan>
    ensures { MatchOption result (SpellsNoPlan (codes "coaster" ∷ texts words.now))
        (λ plan. Describes (codes "coaster" ∷ texts words.now) plan) }
{
    let [seats, rides] = sizes::<2>(words)?;
    Some(Plan::Coaster { seats, rides })
}

/// How many threads, and how many rounds.
fn ring(words: &[&str]) -> Option<Plan>
    ensures { MatchOption result (SpellsNoPlan (codes "ring" ∷ texts words.now))
        (λ plan. Describes (codes "ring" ∷ texts words.now) plan) }
{
    let [n, rounds] = sizes::<2>(words)?;
    Some(Plan::Ring { n, rounds })
}

/// The way that the word spells, if it spells one.
fn way_of(word: &str) -> Option<Way>
    ensures { MatchOption result ((way : Way) → ¬ (word.now ≡ way_word way)) (λ way. word.now ≡ way_word way) }
{
    match word {
        "naive" => Some(Way::Naive),
        "asymmetric" => Some(Way::Asymmetric),
        "chairs" => Some(Way::Chairs),
        _ => None,
    }
}

/// The guard that the word spells, if it spells one.
fn guard_of(word: &str) -> Option<Guard>
    ensures { MatchOption result ((guard : Guard) → ¬ (word.now ≡ guard_word guard)) (λ guard. word.now ≡ guard_word guard) }
{
    match word {
        "semaphores" => Some(Guard::Semaphores),
        "hoare" => Some(Guard::Hoare),
        "mesa" => Some(Guard::Mesa),
        _ => None,
    }
}

/// The sizes that the words spell, if they are the digits of this many numbers below 2^32.
fn sizes<const N: usize>(words: &[&str]) -> Option<[u32; N]>
    ensures { MatchOption result
        ((ns : List ℕ) → length ns ≡ N → AllByRecursion (λ n. n < 2 ^ 32) ns → ¬ AreNumbers (texts words.now) ns)
        (λ ns. AreNumbers (texts words.now) ns) }
{
    if words.len() != N {
        return None;
    }
    let mut sizes = [0; N];
    for (i, word) in words.iter().enumerate() {
        sizes[i] = size_of(word)?;
    }
    Some(sizes)
}
