ghost use Rattle.std.specs.Prelude.{◌≡◌, ◌≤◌, ℕ, MatchOption};
ghost use Rattle.tm_base.specs.declared.rules.Rules.{Rules};
ghost use Rattle.tm_words.specs.Numbers.{IsNumber};
ghost use Rattle.tm_words.specs.SettingsSet.{AreSet, IsLimitSet, IsScheduleSet, text_of};

use crate::numbers::value_of;
use tm_base::{MOST_CALLS, Rules, USUAL_CALLS};

/// The schedule where none is set.
const USUAL_SCHEDULE: u64 = 0;

/// The fewest calls that may be set.
const FEWEST_EVENTS: u64 = 1;

/// The most calls that may be set.
const MOST_EVENTS: u64 = MOST_CALLS as u64;

/// The rules that the values of `--schedule` and `--events` set, with the usual ones where an option
/// isn't there. `None` where a value can't be set.
pub(crate) fn rules_set(schedule: Option<&str>, events: Option<&str>) -> Option<Rules>
    ensures { MatchOption result
        ((rules : Rules) → ¬ AreSet (text_of schedule.entry) (text_of events.entry) rules)
        (λ rules. AreSet (text_of schedule.entry) (text_of events.entry) rules) }
{
    Some(Rules {
        schedule: schedule_set(schedule)?,
        limit: limit_set(events)?,
    })
}

/// The schedule that this value sets.
fn schedule_set(number: Option<&str>) -> Option<u64>
    ensures { MatchOption result ((n : ℕ) → ¬ IsScheduleSet (text_of number.entry) n)
        (λ n. IsScheduleSet (text_of number.entry) n) }
{
    match number {
        Some(number) => value_of(number),
        None => Some(USUAL_SCHEDULE),
    }
}

/// The number of calls that this value sets.
fn limit_set(number: Option<&str>) -> Option<u32>
    ensures { MatchOption result ((n : ℕ) → ¬ IsLimitSet (text_of number.entry) n)
        (λ n. IsLimitSet (text_of number.entry) n) }
{
    match number {
        Some(number) => limit_of(number),
        None => Some(USUAL_CALLS),
    }
}

/// The number of calls that the digits spell, if the text is digits of one that may be set.
fn limit_of(number: &str) -> Option<u32>
    ensures { MatchOption result ((n : ℕ) → IsNumber number.now n → FEWEST_EVENTS ≤ n → ¬ (n ≤ MOST_EVENTS))
        (λ n. IsNumber number.now n × (FEWEST_EVENTS ≤ n) × (n ≤ MOST_EVENTS)) }
{
    let value = value_of(number)?;
    if value < FEWEST_EVENTS || MOST_EVENTS < value {
        return None;
    }
    Some(value as u32)
}
