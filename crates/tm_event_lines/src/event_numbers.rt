ghost use Rattle.std.specs.Prelude.{◌≡◌, true, false, MatchOption};
ghost use Rattle.std.specs.List.{list_all};
ghost use Rattle.tm_base.specs.Names.{is_digit};
ghost use Rattle.tm_event_lines.specs.EventFaults.{has_wrong_number, has_wrong_operand, has_wrong_value};
ghost use Rattle.tm_event_lines.specs.EventWords.{parts_in};
ghost use Rattle.tm_event_lines.specs.SaidWords.{condition_of, counted_of, numbers_said, value_of};

use crate::event_names::place_in;
use crate::event_words::{EventWords, has_condition, has_value, operation_of};
use crate::reply_words::is_got;
use tm_lines::{GREATEST_NUMBER, LEAST_NUMBER, MOST_CONDITIONS, number};

/// The numbers that an event line writes.
#[derive(Clone, Copy, Debug)]
pub struct EventNumbers {
    pub stamp: u64,
    /// The place in the thread.
    pub place: u64,
    /// The place at the object.
    pub at: u64,
    /// The operand as a condition, and 0 where it is none.
    pub condition: u8,
    /// The operand as a value, and 0 where it is none.
    pub operand: i64,
    /// The value that the reply brings, and 0 where it brings none.
    pub detail: i64,
}

impl EventNumbers {
    /// The numbers that these words write. `None` exactly where one of them is none or is out of its range.
    pub fn of_words(words: &EventWords) -> Option<EventNumbers>
        ensures { MatchOption result (has_wrong_number (parts_in words.now) ≡ true)
            (λ numbers. (has_wrong_number (parts_in words.now) ≡ false)
            × (numbers ≡ numbers_said (parts_in words.now))) }
    {
        if !are_digits(words.number) {
            return None;
        }
        let stamp = counted(words.stamp)?;
        let place = counted(place_in(words.thread))?;
        let at = counted(place_in(words.object))?;
        if has_wrong_value(words) {
            return None;
        }
        Some(EventNumbers {
            stamp,
            place,
            at,
            condition: condition(words.operand).unwrap_or(0),
            operand: value(words.operand).unwrap_or(0),
            detail: value(words.detail).unwrap_or(0),
        })
    }
}

/// Whether the operand, or the value that the reply brings, is out of its range.
fn has_wrong_value(words: &EventWords) -> bool
    ensures { result ≡ has_wrong_value (parts_in words.now) }
{
    has_wrong_operand(words.operation, words.operand)
        || (is_got(words.reply) && value(words.detail).is_none())
}

/// Whether the operand of the operation is out of its range.
fn has_wrong_operand(operation: &[u8], operand: &[u8]) -> bool
    ensures { result ≡ has_wrong_operand operation.now operand.now }
{
    let Some(opcode) = operation_of(operation) else {
        return false;
    };
    (has_condition(opcode) && condition(operand).is_none())
        || (has_value(opcode) && value(operand).is_none())
}

/// Whether each byte is a digit.
fn are_digits(bytes: &[u8]) -> bool
    ensures { result ≡ list_all is_digit bytes.now }
{
    bytes.iter().all(|b| b.is_ascii_digit())
}

/// The number that counts from 1.
fn counted(word: &[u8]) -> Option<u64>
    ensures { result ≡ counted_of word.now }
{
    match number(1, GREATEST_NUMBER, word) {
        None => None,
        Some(k) => Some(k.unsigned_abs()),
    }
}

/// The number of a condition that some monitor can have.
fn condition(word: &[u8]) -> Option<u8>
    ensures { result ≡ condition_of word.now }
{
    match number(0, MOST_CONDITIONS - 1, word) {
        None => None,
        Some(k) => Some(k.unsigned_abs() as u8),
    }
}

/// The value.
fn value(word: &[u8]) -> Option<i64>
    ensures { result ≡ value_of word.now }
{
    number(LEAST_NUMBER, GREATEST_NUMBER, word)
}
