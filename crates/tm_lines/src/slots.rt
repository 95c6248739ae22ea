ghost use Rattle.std.specs.Prelude.{◌≡◌, ◌||◌, ◌&&◌, not, codes, pos, ◌-ℤ◌};
ghost use Rattle.std.specs.Str.{bytes_eq};
ghost use Rattle.tm_lines.specs.Found.{found_in, value_found};
ghost use Rattle.tm_lines.specs.LineFaults.{conditions_of, has_operation, is_of_another_kind};

use crate::first_words::{FirstWord, Slot};
use crate::found::Found;
use crate::limits::{GREATEST_NUMBER, LEAST_NUMBER, MOST_CONDITIONS};
use crate::names::is_new_name;
use crate::numerals::{begins_with_r, comparison, number, register};
use crate::places::Place;
use tm_base::{Kind, Opcode};

/// What the word breaks in the slot, on a line with this first word whose object has this kind.
pub fn found_in(
    place: &Place,
    first: FirstWord,
    kind: Option<Kind>,
    slot: Slot,
    word: &[u8],
) -> Found
    ensures { result ≡ found_in place.now first kind slot word.now }
{
    match slot {
        Slot::NewName => Found {
            name: !is_new_name(word) || place.has_name(word),
            ..Found::NOTHING
        },
        Slot::KnownName => Found {
            unknown: kind.is_none(),
            kind: is_of_another_kind(first, kind),
            ..Found::NOTHING
        },
        Slot::Number { least, most } => Found::in_number(number(least, most, word).is_none()),
        Slot::Condition => Found::in_number(number(0, conditions_of(kind) - 1, word).is_none()),
        Slot::Register => Found::in_register(register(word).is_none()),
        Slot::Value => found_in_value(word),
        Slot::Comparison => Found::in_word(comparison(word).is_none()),
        Slot::Discipline => Found::in_word(
            word != b"hoare".as_slice() && word != b"mesa".as_slice(),
        ),
        Slot::Held => Found::in_word(word != b"held".as_slice()),
    }
}

/// What the word breaks that has to be a number or a register.
fn found_in_value(word: &[u8]) -> Found
    ensures { result ≡ value_found word.now }
{
    if begins_with_r(word) {
        return Found::in_register(register(word).is_none());
    }
    Found::in_number(number(LEAST_NUMBER, GREATEST_NUMBER, word).is_none())
}

/// How many conditions an object of the kind has; the most there can be, where it is no monitor.
fn conditions_of(kind: Option<Kind>) -> i64
    ensures { result ≡ conditions_of kind }
{
    match kind {
        Some(Kind::Hoare { conditions }) => i64::from(conditions),
        Some(Kind::Mesa { conditions }) => i64::from(conditions),
        _ => MOST_CONDITIONS,
    }
}

/// Whether the first word calls an operation that the kind doesn't have.
pub(crate) fn is_of_another_kind(first: FirstWord, kind: Option<Kind>) -> bool
    ensures { result ≡ is_of_another_kind first kind }
{
    match first {
        FirstWord::Calls(opcode) => match kind {
            Some(kind) => !has_operation(kind, opcode),
            None => false,
        },
        _ => false,
    }
}

/// Whether the operation is one of the kind's.
fn has_operation(kind: Kind, opcode: Opcode) -> bool
    ensures { result ≡ has_operation kind opcode }
{
    opcode.with(0, 0).fits(kind)
}
