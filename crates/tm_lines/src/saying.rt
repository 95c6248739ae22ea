use crate::faults::FaultyLine;
use crate::first_words::FirstWord;
use crate::words::Words;

/// What a line says that has no fault: its first word, its words, and the number of the object that the second
/// word names, or 0 where it names none.
#[derive(Clone, Copy, Debug)]
pub struct Said<'a> {
    pub first: FirstWord,
    pub words: Words<'a>,
    pub object: u32,
}

/// What one line of a text is.
#[derive(Clone, Copy, Debug)]
pub enum Line<'a> {
    Ignored,
    /// It has no fault, and says this.
    Said(Said<'a>),
    /// It has this fault.
    Faulty(FaultyLine),
}
