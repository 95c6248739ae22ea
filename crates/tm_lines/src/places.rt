ghost use Rattle.std.specs.Prelude.{◌≡◌, ◌<◌, ◌∷◌, ◌&&◌, false, length, nat_le};
ghost use Rattle.std.specs.List.{list_any};
ghost use Rattle.std.specs.Str.{bytes_eq};
ghost use Rattle.tm_programs.specs.Instructions.{with_call};
ghost use Rattle.tm_lines.specs.LineFaults.{after_declaration, after_end, after_instruction, after_thread, ends_idle, first_place, is_beyond, opens, place_after};
ghost use Rattle.tm_lines.specs.Places.{block_of, stack_of};

use crate::first_words::{Declarator, FirstWord};
use crate::limits::{MOST_INSTRUCTIONS, MOST_OBJECTS};
use arrayvec::ArrayVec;
use std::marker::Model;
use tm_base::MOST_THREADS;
use tm_programs::MOST_BLOCKS;

/// A block that isn't ended yet: a loop, with whether it has a call directly in its body so far, or an `if`.
#[derive(Clone, Copy, Debug, Default, PartialEq, Eq)]
pub enum OpenBlock {
    Loop { asks: bool },
    #[default]
    Choice,
}

/// Where a line stands: what the lines before it declare, and what is open.
#[derive(Drop)]
pub struct Place<'a> {
    inside: bool,
    names: ArrayVec<&'a [u8], MOST_OBJECTS>,
    threads: usize,
    instructions: usize,
    blocks: ArrayVec<OpenBlock, MOST_BLOCKS>,
}

impl<'a> Model for Place<'a> {
    ghost use Rattle.tm_lines.specs.LineFaults.{Place as PlaceOfLine};

    ghost Value = { PlaceOfLine };

    ghost use Rattle.tm_lines.specs.Places.{place_of};

    ghost view = { place_of };
}

impl<'a> Place<'a> {
    /// The place of the first line.
    pub fn new() -> Place<'a>
        ensures { result ≡ first_place }
    {
        Place {
            inside: false,
            names: ArrayVec::new(),
            threads: 0,
            instructions: 0,
            blocks: ArrayVec::new(),
        }
    }

    /// Whether it is inside a thread.
    pub fn is_inside(&self) -> bool
        ensures { result ≡ self.now.inside }
    {
        self.inside
    }

    /// Whether an earlier line declares the name. An exercise has few objects, so all of them are compared.
    pub fn has_name(&self, name: &[u8]) -> bool
        ensures { result ≡ list_any (λ earlier. bytes_eq earlier name.now) self.now.earlier }
    {
        contains(self.names.as_slice(), name)
    }

    /// Whether as many blocks are open as may be.
    pub fn is_deep(&self) -> bool
        ensures { result ≡ nat_le MOST_BLOCKS (length self.now.blocks) }
    {
        MOST_BLOCKS <= self.blocks.len()
    }

    /// Whether a line with this first word ends a loop that has no call directly in its body.
    pub fn ends_idle(&self, first: FirstWord) -> bool
        ensures { result ≡ ends_idle first self.now.blocks }
    {
        match first {
            FirstWord::End => self.is_idle(),
            _ => false,
        }
    }

    /// Whether a line with this first word is one more than there may be.
    pub fn is_beyond(&self, first: FirstWord) -> bool
        ensures { result ≡ is_beyond self.now first }
    {
        match first {
            FirstWord::Declares(Declarator::Thread) => {
                MOST_OBJECTS <= self.names.len() || MOST_THREADS <= self.threads
            }
            FirstWord::Declares(_) => MOST_OBJECTS <= self.names.len(),
            FirstWord::End => false,
            _ => MOST_INSTRUCTIONS <= self.instructions,
        }
    }

    /// Goes on to the place after a line with this first word and this second one. Most lines call.
    #[inline(always)]
    pub fn go_on(&mut self, first: FirstWord, second: &'a [u8])
        requires shallow { (opens first && nat_le MOST_BLOCKS (length self.old.blocks)) ≡ false }
        requires within { is_beyond self.old first ≡ false }
        ensures { self.new ≡ place_after self.old first second.now }
    {
        match first {
            FirstWord::Calls(_) => self.call(),
            _ => self.go_on_after_any(first, second),
        }
    }

    /// The same after any line.
    #[inline(never)]
    fn go_on_after_any(&mut self, first: FirstWord, second: &'a [u8])
        requires shallow { (opens first && nat_le MOST_BLOCKS (length self.old.blocks)) ≡ false }
        requires within { is_beyond self.old first ≡ false }
        ensures { self.new ≡ place_after self.old first second.now }
    {
        match first {
            FirstWord::Declares(Declarator::Thread) => self.begin_thread(second),
            FirstWord::Declares(_) => self.declare(second),
            FirstWord::Calls(_) => self.call(),
            FirstWord::Set => self.instruct(),
            FirstWord::Inc => self.instruct(),
            FirstWord::Repeat => self.open(OpenBlock::Loop { asks: false }),
            FirstWord::While => self.open(OpenBlock::Loop { asks: false }),
            FirstWord::If => self.open(OpenBlock::Choice),
            FirstWord::End => self.end(),
        }
    }

    /// Whether the innermost block is a loop that has no call directly in its body.
    fn is_idle(&self) -> bool
        ensures { result ≡ ends_idle FirstWord.End self.now.blocks }
    {
        match self.blocks.as_slice().last() {
            Some(OpenBlock::Loop { asks }) => !*asks,
            Some(OpenBlock::Choice) => false,
            None => false,
        }
    }

    /// Goes on after the declaration of an object.
    fn declare(&mut self, name: &'a [u8])
        requires { self.old.objects < MOST_OBJECTS }
        ensures { self.new ≡ after_declaration self.old name.now }
    {
        self.inside = false;
        self.names.push(name);
        self.instructions = 0;
        self.blocks.clear();
    }

    /// Goes on after that of a thread.
    fn begin_thread(&mut self, name: &'a [u8])
        requires objects { self.old.objects < MOST_OBJECTS }
        requires threads { self.old.threads < MOST_THREADS }
        ensures { self.new ≡ after_thread self.old name.now }
    {
        self.inside = true;
        self.names.push(name);
        self.threads += 1;
        self.instructions = 0;
        self.blocks.clear();
    }

    /// Goes on after an instruction that leaves the blocks as they are.
    fn instruct(&mut self)
        requires { self.old.instructions < MOST_INSTRUCTIONS }
        ensures { self.new ≡ after_instruction self.old self.old.blocks }
    {
        self.instructions += 1;
    }

    /// Goes on after a call.
    fn call(&mut self)
        requires { self.old.instructions < MOST_INSTRUCTIONS }
        ensures { self.new ≡ after_instruction self.old (with_call self.old.blocks) }
    {
        self.instructions += 1;
        note_call(&mut self.blocks);
    }

    /// Goes on after an instruction that opens a block.
    fn open(&mut self, block: OpenBlock)
        requires instructions { self.old.instructions < MOST_INSTRUCTIONS }
        requires blocks { length self.old.blocks < MOST_BLOCKS }
        ensures { self.new ≡ after_instruction self.old (block_of block ∷ self.old.blocks) }
    {
        self.instructions += 1;
        self.blocks.push(block);
    }

    /// Goes on after an `end`.
    fn end(&mut self)
        ensures { self.new ≡ after_end self.old self.old.blocks }
    {
        match self.blocks.pop() {
            Some(_) => {}
            None => {
                self.inside = false;
                self.instructions = 0;
            }
        }
    }
}

/// Whether the name is among these.
fn contains(names: &[&[u8]], name: &[u8]) -> bool
    ensures { result ≡ list_any (λ n. bytes_eq n.now name.now) names.now }
{
    names.iter().any(|n| *n == name)
}

/// Notes that a call stands directly in the body of the innermost block.
fn note_call(blocks: &mut ArrayVec<OpenBlock, MOST_BLOCKS>)
    ensures { stack_of blocks.new.items ≡ with_call (stack_of blocks.old.items) }
{
    let depth = blocks.len();
    prove!(depth <= MOST_BLOCKS);
    match blocks.pop() {
        Some(OpenBlock::Loop { .. }) => blocks.push(OpenBlock::Loop { asks: true }),
        Some(OpenBlock::Choice) => blocks.push(OpenBlock::Choice),
        None => {}
    }
}
