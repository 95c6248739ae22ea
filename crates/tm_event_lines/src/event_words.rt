ghost use Rattle.std.specs.Prelude.{◌≡◌, drop};
ghost use Rattle.tm_lines.specs.Lines.{words_of};
ghost use Rattle.tm_lines.specs.NamedLines.{word_at};
ghost use Rattle.tm_event_lines.specs.EventWords.{behind_if, has_condition, has_point, has_value, is_numbered, operation_of, parts_in, parts_of, takes_operand, word_if};

use crate::reply_words::takes_detail;
use tm_base::Opcode;
use tm_lines::first_word;

/// The words of an event line by their places. One that isn't there is empty.
#[derive(Clone, Copy, Debug)]
pub struct EventWords<'a> {
    /// The number in front of the event's text.
    pub number: &'a [u8],
    pub stamp: &'a [u8],
    pub thread: &'a [u8],
    pub object: &'a [u8],
    pub operation: &'a [u8],
    pub operand: &'a [u8],
    pub reply: &'a [u8],
    /// What the reply names or brings.
    pub detail: &'a [u8],
    /// The bytes behind these words.
    pub behind: &'a [u8],
}

impl<'a> EventWords<'a> {
    /// The words of the line.
    pub fn of_line(line: &'a [u8]) -> EventWords<'a>
        ensures { parts_in result ≡ parts_of (words_of line.now) }
    {
        let (number, rest) = word_if(is_numbered(line), line);
        let (stamp, rest) = next_word(rest);
        let (thread, rest) = next_word(rest);
        let (object, rest) = next_word(rest);
        let (operation, rest) = next_word(rest);
        let (operand, rest) = word_if(takes_operand(operation), rest);
        let (reply, rest) = next_word(rest);
        let (detail, behind) = word_if(takes_detail(reply), rest);
        EventWords {
            number,
            stamp,
            thread,
            object,
            operation,
            operand,
            reply,
            detail,
            behind,
        }
    }
}

/// The first word of the line, empty where it has none, and the bytes behind it.
fn next_word(line: &[u8]) -> (&[u8], &[u8])
    ensures word { result.0.now ≡ word_at 0 (words_of line.now) }
    ensures behind { words_of result.1.now ≡ drop 1 (words_of line.now) }
{
    match first_word(line) {
        None => (b"", b""),
        Some(found) => found,
    }
}

/// The same where a word is to be taken, and else no word and the whole line.
fn word_if(there: bool, line: &[u8]) -> (&[u8], &[u8])
    ensures word { result.0.now ≡ word_if there (words_of line.now) }
    ensures behind { words_of result.1.now ≡ behind_if there (words_of line.now) }
{
    if there { next_word(line) } else { (b"", line) }
}

/// Whether the line has a number in front: its second word has no `.`.
fn is_numbered(line: &[u8]) -> bool
    ensures { result ≡ is_numbered (words_of line.now) }
{
    let (_, rest) = next_word(line);
    let (second, _) = next_word(rest);
    !has_point(second)
}

/// Whether the word has a `.`.
fn has_point(word: &[u8]) -> bool
    ensures { result ≡ has_point word.now }
{
    word.iter().any(|b| *b == b'.')
}

/// The operation that the word spells. `None` exactly where it spells none.
pub fn operation_of(word: &[u8]) -> Option<Opcode>
    ensures { result ≡ operation_of word.now }
{
    Opcode::of_word(word)
}

/// Whether the operation's operand is a condition.
pub fn has_condition(opcode: Opcode) -> bool
    ensures { result ≡ has_condition opcode }
{
    matches!(opcode, Opcode::Wait | Opcode::Signal | Opcode::Broadcast)
}

/// Whether the operation's operand is a value.
pub fn has_value(opcode: Opcode) -> bool
    ensures { result ≡ has_value opcode }
{
    matches!(opcode, Opcode::Send | Opcode::Write | Opcode::Add)
}

/// Whether one word more follows the operation's word.
pub fn takes_operand(word: &[u8]) -> bool
    ensures { result ≡ takes_operand word.now }
{
    match operation_of(word) {
        None => false,
        Some(opcode) => has_condition(opcode) || has_value(opcode),
    }
}
