ghost use Rattle.std.specs.Prelude.{◌≡◌, ℕ, ◌+◌, pos, ◌^◌, ◌≤◌, ◌<◌, ◌<ℤ◌, ◌≤ℤ◌, ◌∷◌, false, List, None, Some, length, option_map, IfOk, OnOk};
ghost use Rattle.std.specs.HashMap as hash;
ghost use Rattle.std.specs.Option.{option_or};
ghost use Rattle.std.specs.Str.{bytes_eq};
ghost use Rattle.tm_lines.specs.FirstWords.{first_word_of};
ghost use Rattle.tm_lines.specs.KnownNames.{is_new, known_by, known_in};
ghost use Rattle.tm_lines.specs.Lines.{words_of};
ghost use Rattle.tm_lines.specs.NamedLines.{conditions_said, declarator_of, kind_by, monitor_by, natural_or, word_at};
ghost use Rattle.tm_lines.specs.TextFaults.{named_in, said_words, text_lines};

use crate::first_words::Declarator;
use crate::limits::{
    GREATEST_NUMBER, LEAST_NUMBER, MOST_BYTES, MOST_CAPACITY, MOST_CONDITIONS, MOST_PARTIES,
    MOST_START,
};
use crate::lines::{first_line, first_word, is_blank, without_cr};
use crate::numerals::number;
use crate::words::Words;
use std::alloc::Global;
use std::collections::HashMap;
use std::marker::Model;
use tm_base::{Kind, Name, NoMemory};

/// What is known of a name: the kind of its object, and the object's number, from 0. The number of a thread is
/// left out of the kind.
#[derive(Clone, Copy, Debug)]
pub struct Known {
    pub kind: Kind,
    pub number: u32,
}

/// What the names of a text are, by all its lines.
#[derive(Drop)]
pub struct Names<'a> {
    text: &'a [u8],
    known: HashMap<&'a [u8], Known>,
}

impl<'a> Model for Names<'a> {
    ghost use Rattle.std.specs.Prelude.{◌≡◌, ℕ, List};
    ghost use Rattle.std.specs.HashMap as hash;
    ghost use Rattle.std.specs.Str.{bytes_eq};
    ghost use Rattle.tm_lines.specs.KnownNames.{known_in};
    ghost use Rattle.tm_lines.specs.TextFaults.{text_lines};

    ghost Value = { List ℕ };

    ghost view = { λ a. a.text.now };

    ghost invariant = { λ a. (name : List ℕ) →
        hash.get_by (λ k. bytes_eq name k.now) a.known ≡ known_in (text_lines a.text.now) name };
}

impl<'a> Names<'a> {
    /// The names of the text.
    pub fn of_text(alloc: Global, text: &'a [u8]) -> Result<Names<'a>, NoMemory>
        requires { length text.now ≤ MOST_BYTES }
        ensures { IfOk result (λ names. names ≡ text.now) }
    {
        let mut known = HashMap::new(alloc);
        let mut number = 0u32;
        let mut rest = text;
        while !rest.is_empty() {
            let (line, next) = first_line(rest);
            number = note(&mut known, number, without_cr(line))?;
            rest = next;
        }
        Ok(Names { text, known })
    }

    /// The text.
    pub fn text(&self) -> &'a [u8]
        ensures { result.now ≡ self.now }
    {
        self.text
    }

    /// What is known of the name. `None` exactly where the text has no such name.
    pub fn known(&self, name: &[u8]) -> Option<Known>
        ensures known { result ≡ known_in (text_lines self.now) name.now }
        ensures kind { option_map (λ known. known.kind) result ≡ named_in (text_lines self.now) name.now }
    {
        // Many lines name nothing, so that isn't looked for.
        if name.is_empty() {
            return None;
        }
        self.known.get(name).copied()
    }
}

/// What the line declares by its first word, where it declares an object.
fn declarator(line: &[u8]) -> Option<Declarator>
    ensures { result ≡ declarator_of (first_word_of (word_at 0 (words_of line.now))) }
{
    if !may_declare(line) {
        return None;
    }
    match first_word(line) {
        None => None,
        Some((word, _)) => Declarator::of_word(word),
    }
}

/// Whether the line's first word may declare an object, by its first bytes. Most lines declare nothing, and are
/// passed over before a word is cut.
fn may_declare(line: &[u8]) -> bool
    ensures { result ≡ false → declarator_of (first_word_of (word_at 0 (words_of line.now))) ≡ None }
{
    match line {
        [first, second, ..] => is_blank(*first) || Declarator::can_begin(*first, *second),
        _ => true,
    }
}

/// Notes the name of the object that the line declares, where it declares one. So many stand before the line, and
/// this many after it.
fn note<'a>(
    known: &mut HashMap<&'a [u8], Known>,
    number: u32,
    line: &'a [u8],
) -> Result<u32, NoMemory>
    requires { number < MOST_BYTES }
    ensures next { IfOk result (λ next. next ≤ number + 1) }
    ensures known { IfOk result (λ next. (lines : List (List ℕ)) (name : List ℕ) →
        option_or (hash.get_by (λ k. bytes_eq name k.now) known.new) (known_by next (said_words lines) name)
        ≡ option_or (hash.get_by (λ k. bytes_eq name k.now) known.old)
        (known_by number (said_words (line.now ∷ lines)) name)) }
{
    let Some(declarator) = declarator(line) else {
        return Ok(number);
    };
    declare(known, number, declarator, line)?;
    Ok(number + 1)
}

/// Notes the name that the line declares, unless an earlier line did. So many objects stand before it.
fn declare<'a>(
    known: &mut HashMap<&'a [u8], Known>,
    number: u32,
    declarator: Declarator,
    line: &'a [u8],
) -> Result<(), NoMemory>
    requires { declarator_of (first_word_of (word_at 0 (words_of line.now))) ≡ Some declarator }
    ensures { OnOk result ((lines : List (List ℕ)) (name : List ℕ) →
        option_or (hash.get_by (λ k. bytes_eq name k.now) known.new) (known_by (number + 1) (said_words lines) name)
        ≡ option_or (hash.get_by (λ k. bytes_eq name k.now) known.old)
        (known_by number (said_words (line.now ∷ lines)) name)) }
{
    let words = Words::of_line(line);
    if !is_new_name(words.second) {
        return Ok(());
    }
    if known.contains_key(words.second) {
        return Ok(());
    }
    let kind = declared_kind(0, declarator, words.third, words.fourth);
    known.insert(words.second, Known { kind, number })?;
    Ok(())
}

/// Whether an object can be named so.
pub fn is_new_name(name: &[u8]) -> bool
    ensures { result ≡ is_new name.now }
{
    Name::make(name).is_some() && name != b"main".as_slice()
}

/// The kind of the object that a line declares by these words. A thread has this number.
pub fn declared_kind(own: u32, declarator: Declarator, third: &[u8], fourth: &[u8]) -> Kind
    ensures { result ≡ kind_by own declarator third.now fourth.now }
{
    match declarator {
        Declarator::Mutex => Kind::Mutex,
        Declarator::Rwlock => Kind::Rw,
        Declarator::Sync => Kind::Sync,
        Declarator::Sem => Kind::Sem {
            value: natural_or(0, 0, MOST_START, third),
        },
        Declarator::Monitor => monitor(third, conditions(fourth)),
        Declarator::Barrier => Kind::Barrier {
            parties: natural_or(1, 1, MOST_PARTIES, third),
        },
        Declarator::Async => Kind::Async {
            capacity: natural_or(1, 1, MOST_CAPACITY, third),
        },
        Declarator::Var => Kind::Var {
            value: number(LEAST_NUMBER, GREATEST_NUMBER, third).unwrap_or(0),
        },
        Declarator::Thread => Kind::Thread {
            own,
            held: third == b"held".as_slice(),
        },
    }
}

/// The kind of a monitor with this discipline.
fn monitor(discipline: &[u8], conditions: u8) -> Kind
    ensures { result ≡ monitor_by discipline.now conditions }
{
    if discipline == b"hoare".as_slice() {
        Kind::Hoare { conditions }
    } else {
        Kind::Mesa { conditions }
    }
}

/// How many conditions a monitor has whose line says so: the most there can be, where it doesn't say it well.
fn conditions(word: &[u8]) -> u8
    ensures { result ≡ conditions_said word.now }
{
    match number(1, MOST_CONDITIONS, word) {
        None => MOST_CONDITIONS as u8,
        Some(k) => k.unsigned_abs() as u8,
    }
}

/// The number that the word writes from `least` to `most`, or the other where it writes none.
fn natural_or(other: u32, least: i64, most: i64, word: &[u8]) -> u32
    requires from_zero { pos 0 ≤ℤ least }
    requires small { most <ℤ pos (2 ^ 32) }
    ensures { result ≡ natural_or other least most word.now }
{
    match number(least, most, word) {
        None => other,
        Some(k) => k.unsigned_abs() as u32,
    }
}
