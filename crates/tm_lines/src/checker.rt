ghost use Rattle.std.specs.Prelude.{◌≡◌, ◌≤◌, false, true, length, IfOk};
ghost use Rattle.tm_lines.specs.Checks.{Follows, before, fault_left, is_empty};
ghost use Rattle.tm_lines.specs.KnownNames.{known_in};
ghost use Rattle.tm_lines.specs.TextFaults.{first_fault, text_lines};

use crate::faults::{Fault, FaultyLine};
use crate::limits::MOST_BYTES;
use crate::names::{Known, Names};
use crate::places::Place;
use crate::plain_lines::cut_line;
use crate::saying::Line;
use std::alloc::Global;
use std::marker::Model;
use tm_base::NoMemory;

/// A text whose lines are looked at one after the other.
#[derive(Drop)]
pub struct Checker<'a> {
    names: Names<'a>,
    number: u64,
    place: Place<'a>,
    rest: &'a [u8],
    last_name: &'a [u8],
    last_known: Option<Known>,
}

impl<'a> Model for Checker<'a> {
    ghost use Rattle.std.specs.Prelude.{◌≡◌, ◌+◌, ◌<◌, ◌^◌, length};
    ghost use Rattle.tm_lines.specs.Checks.{Check};
    ghost use Rattle.tm_lines.specs.KnownNames.{known_in};
    ghost use Rattle.tm_lines.specs.TextFaults.{text_lines};

    ghost Value = { Check };

    ghost view = { λ a. record { text = a.names; number = a.number; place = a.place; rest = a.rest.now } };

    ghost invariant = { λ a. (a.number + length a.rest.now < 2 ^ 64)
        × (a.last_known ≡ known_in (text_lines a.names) a.last_name.now) };
}

impl<'a> Checker<'a> {
    /// Before the first line of the text, whose names are noted. Only this takes memory.
    pub fn of_text(alloc: Global, text: &'a [u8]) -> Result<Checker<'a>, NoMemory>
        requires { length text.now ≤ MOST_BYTES }
        ensures { IfOk result (λ checker. checker ≡ before text.now) }
    {
        let names = Names::of_text(alloc, text)?;
        Ok(Checker {
            names,
            number: 1,
            place: Place::new(),
            rest: text,
            last_name: b"",
            last_known: None,
        })
    }

    /// The names of the text.
    pub fn names(&self) -> &Names<'a>
        ensures { result.now ≡ self.now.text }
    {
        &self.names
    }

    /// Whether each line was looked at.
    pub fn is_done(&self) -> bool
        ensures { result ≡ is_empty self.now.rest }
    {
        self.rest.is_empty()
    }

    /// Looks at the next line.
    #[inline(always)]
    pub fn next_line(&mut self) -> Line<'a>
        requires { is_empty self.old.rest ≡ false }
        ensures { Follows self.old result self.new }
    {
        let cut = cut_line(self.rest);
        let number = self.number;
        self.rest = cut.rest;
        self.number += 1;
        if cut.words.are_ignored() {
            return Line::Ignored;
        }
        if !cut.is_printed {
            return Line::Faulty(FaultyLine {
                line: number,
                kind: Fault::Byte,
            });
        }
        let known = self.known(cut.words.second);
        self.place.take_words(known, number, cut.words)
    }

    /// What is known of the name. Lines in a row often name one object, so the last name isn't looked up again.
    #[inline(always)]
    fn known(&mut self, name: &'a [u8]) -> Option<Known>
        ensures known { result ≡ known_in (text_lines self.old.text) name.now }
        ensures same { self.new ≡ self.old }
    {
        if name != self.last_name {
            self.last_known = self.names.known(name);
            self.last_name = name;
        }
        self.last_known
    }

    /// The first fault of the lines that are left, and of the end.
    pub fn fault_left(mut self) -> Option<FaultyLine>
        ensures { result ≡ fault_left self.entry }
    {
        while !self.is_done() {
            match self.next_line() {
                Line::Ignored => {}
                Line::Said(_) => {}
                Line::Faulty(fault) => return Some(fault),
            }
        }
        self.at_end()
    }

    /// What is wrong after the last line.
    pub fn at_end(&self) -> Option<FaultyLine>
        requires { is_empty self.now.rest ≡ true }
        ensures { result ≡ fault_left self.now }
    {
        if self.place.is_inside() {
            Some(FaultyLine {
                line: self.number,
                kind: Fault::NotEnded,
            })
        } else {
            None
        }
    }
}

/// The first faulty line of the text, with what is wrong with it; the line is 0 where the text is too long.
pub fn first_fault(alloc: Global, text: &[u8]) -> Result<Option<FaultyLine>, NoMemory>
    ensures { IfOk result (λ fault. fault ≡ first_fault text.now) }
{
    if MOST_BYTES < text.len() {
        return Ok(Some(FaultyLine {
            line: 0,
            kind: Fault::Size,
        }));
    }
    let checker = Checker::of_text(alloc, text)?;
    Ok(checker.fault_left())
}
