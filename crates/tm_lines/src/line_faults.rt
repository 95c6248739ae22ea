ghost use Rattle.std.specs.Prelude.{◌≡◌, ℕ, ◌&&◌, false, true, drop, length, nat_le, List, Some, None, option_map, IfNone, MatchResult};
ghost use Rattle.std.specs.List.{find};
ghost use Rattle.tm_lines.specs.FirstWords.{first_word_of, slots_of};
ghost use Rattle.tm_lines.specs.Found.{applies_by, block_fault, found_by, name_fault};
ghost use Rattle.tm_lines.specs.KnownNames.{known_in, number_known};
ghost use Rattle.tm_lines.specs.LineFaults.{fault_of_line, fault_of_words, is_beyond, opens, place_by, word_faults};
ghost use Rattle.tm_lines.specs.Lines.{words_of};
ghost use Rattle.tm_lines.specs.NamedLines.{word_at};
ghost use Rattle.tm_lines.specs.TextFaults.{named_in, text_lines};
ghost use Rattle.tm_lines.specs.Checks.{IsLine};
ghost use Rattle.tm_lines.specs.Saying.{AreFirst, HasRoom, HasSoundOperands, IsReadBy};

use crate::faults::{Fault, FaultyLine};
use crate::first_words::{FirstWord, operand_slot};
use crate::found::Found;
use crate::lines::is_printed;
use crate::names::{Known, Names};
use crate::places::Place;
use crate::saying::{Line, Said};
use crate::slots::{found_in, is_of_another_kind};
use crate::words::Words;
use tm_base::{Kind, Opcode};

/// What is wrong with a line that isn't ignored and stands at this place, where the text has these names.
pub fn fault_of_line(names: &Names, place: &Place, line: &[u8]) -> Option<Fault>
    ensures { result ≡ fault_of_line (named_in (text_lines names.now)) place.now line.now }
{
    if !is_printed(line) {
        return Some(Fault::Byte);
    }
    let words = Words::of_line(line);
    match judge(place, names.known(words.second), words) {
        Ok(_) => None,
        Err(fault) => Some(fault),
    }
}

impl<'a> Place<'a> {
    /// Takes the line with this number, and goes on to the place after it, unless it has a fault.
    pub fn take(&mut self, names: &Names, number: u64, line: &'a [u8]) -> Line<'a>
        ensures { IsLine (text_lines names.now) number self.old line.now result self.new }
    {
        let words = Words::of_line(line);
        if words.are_ignored() {
            return Line::Ignored;
        }
        if !is_printed(line) {
            return Line::Faulty(FaultyLine {
                line: number,
                kind: Fault::Byte,
            });
        }
        self.take_words(names.known(words.second), number, words)
    }

    /// The same by the words of a line that isn't ignored, and whose bytes all print. This is known of the name that
    /// its second word may be.
    #[inline(always)]
    pub(crate) fn take_words(
        &mut self,
        known: Option<Known>,
        number: u64,
        words: Words<'a>,
    ) -> Line<'a>
        ensures { (lines : List (List ℕ)) (line : List ℕ) → IsReadBy lines line words.entry known
            → IsLine lines number self.old line result self.new }
    {
        match judge(self, known, words) {
            Ok(first) => {
                self.go_on(first, words.second);
                Line::Said(Said {
                    first,
                    words,
                    object: number_of(known),
                })
            }
            Err(kind) => Line::Faulty(FaultyLine { line: number, kind }),
        }
    }
}

/// The first word of a line with these words, or what is wrong with them, where this is known of the name that the
/// second word may be.
#[inline(always)]
fn judge(place: &Place, known: Option<Known>, words: Words) -> Result<FirstWord, Fault>
    ensures said { (ws : List (List ℕ)) → AreFirst words.entry ws → MatchResult result
        (λ first. (fault_of_words place.now (option_map (λ known. known.kind) known) ws
        (first_word_of (word_at 0 ws)) ≡ None)
        × (first_word_of (word_at 0 ws) ≡ Some first))
        (λ fault. fault_of_words place.now (option_map (λ known. known.kind) known) ws
        (first_word_of (word_at 0 ws)) ≡ Some fault) }
    ensures room { MatchResult result (λ first. HasRoom place.now first) (λ _. Unit {0}) }
{
    let Some(first) = FirstWord::of_word(words.first) else {
        return Err(Fault::Word);
    };
    match fault_of_words(place, first, kind_of(known), words) {
        None => Ok(first),
        Some(fault) => Err(fault),
    }
}

/// The kind of an object of which this is known.
fn kind_of(known: Option<Known>) -> Option<Kind>
    ensures { result ≡ option_map (λ known. known.kind) known }
{
    known.map(|known| known.kind)
}

/// The number of an object of which this is known, or 0 where there is none.
fn number_of(known: Option<Known>) -> u32
    ensures { result ≡ number_known known }
{
    match known {
        None => 0,
        Some(known) => known.number,
    }
}

/// What is wrong with these words of a line that begins with this first word, where the object that it names has
/// this kind. Most lines are calls without a fault, which a few tests show.
#[inline(always)]
fn fault_of_words(
    place: &Place,
    first: FirstWord,
    kind: Option<Kind>,
    words: Words,
) -> Option<Fault>
    ensures fault { (ws : List (List ℕ)) → AreFirst words.entry ws
        → result ≡ fault_of_words place.now kind ws (Some first) }
    ensures room { IfNone result (HasRoom place.now first) }
{
    if is_sound_call(place, first, kind, &words) {
        return None;
    }
    fault_of_any_words(place, first, kind, words)
}

/// The same by a search for every kind of fault.
#[inline(never)]
fn fault_of_any_words(
    place: &Place,
    first: FirstWord,
    kind: Option<Kind>,
    words: Words,
) -> Option<Fault>
    ensures fault { (ws : List (List ℕ)) → AreFirst words.entry ws
        → result ≡ fault_of_words place.now kind ws (Some first) }
    ensures room { IfNone result (HasRoom place.now first) }
{
    let found = found_by(place, first, kind, &words);
    fault_found(place, first, found, words.count)
}

/// Whether these words are a call without a fault, where the object that they name has this kind.
#[inline(always)]
fn is_sound_call(place: &Place, first: FirstWord, kind: Option<Kind>, words: &Words) -> bool
    ensures fault { result ≡ true → (ws : List (List ℕ)) → AreFirst words.now ws
        → fault_of_words place.now kind ws (Some first) ≡ None }
    ensures room { result ≡ true → HasRoom place.now first }
{
    let FirstWord::Calls(opcode) = first else {
        return false;
    };
    place.is_inside()
        && !place.is_beyond(first)
        && kind.is_some()
        && !is_of_another_kind(first, kind)
        && has_sound_operands(place, opcode, kind, words)
}

/// Whether a call of the operation has as many words as it needs, and those after the name break nothing.
#[inline(always)]
fn has_sound_operands(place: &Place, opcode: Opcode, kind: Option<Kind>, words: &Words) -> bool
    ensures { result ≡ true → (ws : List (List ℕ)) → AreFirst words.now ws
        → HasSoundOperands place.now opcode kind ws }
{
    match operand_slot(opcode) {
        None => words.count == 2,
        Some(slot) => {
            words.count == 3
                && found_in(place, FirstWord::Calls(opcode), kind, slot, words.third)
                    == Found::NOTHING
        }
    }
}

/// The first kind of fault that applies to so many words in which these were found.
fn fault_found(place: &Place, first: FirstWord, found: Found, words: usize) -> Option<Fault>
    ensures fault { result ≡ find (applies_by place.now first found words) word_faults }
    ensures room { IfNone result (HasRoom place.now first) }
{
    if !first.is_allowed(place.is_inside()) || found.word {
        return Some(Fault::Word);
    }
    if !first.has_count(words) {
        return Some(Fault::Count);
    }
    match name_fault(found) {
        Some(fault) => Some(fault),
        None => block_fault(place, first),
    }
}

/// The first kind of fault of those that were found in names, numbers and registers.
fn name_fault(found: Found) -> Option<Fault>
    ensures { result ≡ name_fault found }
{
    if found.name {
        Some(Fault::Name)
    } else if found.unknown {
        Some(Fault::Unknown)
    } else if found.kind {
        Some(Fault::Kind)
    } else if found.number {
        Some(Fault::Number)
    } else if found.register {
        Some(Fault::Register)
    } else {
        None
    }
}

/// The first kind of fault that a line with this first word has by its place alone.
fn block_fault(place: &Place, first: FirstWord) -> Option<Fault>
    ensures fault { result ≡ block_fault place.now first }
    ensures room { IfNone result (HasRoom place.now first) }
{
    if first.opens() && place.is_deep() {
        Some(Fault::Depth)
    } else if place.ends_idle(first) {
        Some(Fault::Idle)
    } else if place.is_beyond(first) {
        Some(Fault::Limit)
    } else {
        None
    }
}

/// What the words after this first word break in its slots.
fn found_by(place: &Place, first: FirstWord, kind: Option<Kind>, words: &Words) -> Found
    ensures { (ws : List (List ℕ)) → AreFirst words.now ws
        → result ≡ found_by place.now first kind (slots_of first) (drop 1 ws) }
{
    let mut found = Found::NOTHING;
    let slots = first.slots();
    for (i, slot) in slots.iter().enumerate() {
        if words.count <= i + 1 {
            return found;
        }
        found = found.or(found_in(place, first, kind, *slot, words.at(i + 1)));
    }
    found
}
