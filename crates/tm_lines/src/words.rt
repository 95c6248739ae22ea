ghost use Rattle.std.specs.Prelude.{◌≡◌, ℕ, [], ◌∷◌, length, List};
ghost use Rattle.tm_lines.specs.Lines.{is_ignored, words_of};
ghost use Rattle.tm_lines.specs.NamedLines.{word_at};
ghost use Rattle.tm_lines.specs.Saying.{AreFirst};

use crate::lines::first_word;

/// The first four words of a line, and how many it has. No line has a use for more; one that isn't there is empty.
#[derive(Clone, Copy, Debug)]
pub struct Words<'a> {
    pub first: &'a [u8],
    pub second: &'a [u8],
    pub third: &'a [u8],
    pub fourth: &'a [u8],
    pub count: usize,
}

impl<'a> Words<'a> {
    /// The words of the line.
    pub fn of_line(line: &'a [u8]) -> Words<'a>
        ensures { AreFirst result (words_of line.now) }
    {
        let none = Words {
            first: b"",
            second: b"",
            third: b"",
            fourth: b"",
            count: 0,
        };
        let Some((first, rest)) = first_word(line) else {
            return none;
        };
        let one = Words {
            first,
            count: 1,
            ..none
        };
        let Some((second, rest)) = first_word(rest) else {
            return one;
        };
        let two = Words {
            second,
            count: 2,
            ..one
        };
        let Some((third, rest)) = first_word(rest) else {
            return two;
        };
        let three = Words {
            third,
            count: 3,
            ..two
        };
        let Some((fourth, rest)) = first_word(rest) else {
            return three;
        };
        Words {
            fourth,
            count: 4 + word_count(rest),
            ..three
        }
    }

    /// Whether a line of these words is ignored: there is none, or the first begins with `#`.
    pub fn are_ignored(&self) -> bool
        ensures { (ws : List (List ℕ)) → AreFirst self.now ws → result ≡ is_ignored ws }
    {
        self.count == 0 || matches!(self.first, [b'#', ..])
    }

    /// The word with this number, from 0.
    pub fn at(&self, number: usize) -> &'a [u8]
        ensures { result.now ≡ word_at number
            (self.now.first.now ∷ self.now.second.now ∷ self.now.third.now ∷ self.now.fourth.now ∷ []) }
    {
        match number {
            0 => self.first,
            1 => self.second,
            2 => self.third,
            3 => self.fourth,
            _ => b"",
        }
    }
}

/// How many words the line has.
fn word_count(line: &[u8]) -> usize
    ensures { result ≡ length (words_of line.now) }
{
    let mut count = 0usize;
    let mut rest = line;
    while let Some((_, next)) = first_word(rest) {
        count += 1;
        rest = next;
    }
    count
}
