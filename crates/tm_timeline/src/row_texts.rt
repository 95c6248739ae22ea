ghost use Rattle.std.specs.Prelude.{◌≡◌, ◌+◌, ◌≤◌, ◌∷◌, ◌++◌, [], flat_map, length};
ghost use Rattle.std.specs.Fmt.{decimal, signed_decimal};
ghost use Rattle.tm_timeline.specs.Words.{bar_letter};

use crate::words::bar_letter;
use itoa::write_digits;
use std::marker::Model;
use tm_base::Bar;

/// How many bytes a row has room for. The longest has 246.
pub const ROOM: usize = 256;

/// The text of a row, which is written from its end to its front, since that is the order in which the digits
/// of a number are found. What is put goes in front of what is there. It takes no memory.
#[derive(Drop)]
pub struct RowText {
    bytes: [u8; ROOM],
    start: usize,
}

impl Model for RowText {
    ghost use Rattle.std.specs.Prelude.{ℕ, List};

    ghost Value = { List ℕ };

    ghost use Rattle.tm_timeline.specs.StoredRows.{row_bytes, IsStoredRow};

    ghost view = { row_bytes };

    ghost invariant = { IsStoredRow };
}

impl RowText {
    /// No text.
    pub fn empty() -> RowText
        ensures { result ≡ [] }
    {
        RowText {
            bytes: [0; ROOM],
            start: ROOM,
        }
    }

    /// The text.
    pub fn as_slice(&self) -> &[u8]
        ensures { result.now ≡ self.now }
    {
        &self.bytes[self.start..]
    }

    /// Puts a byte in front.
    pub fn put_byte(&mut self, byte: u8)
        requires { length self.old + 1 ≤ ROOM }
        ensures text { self.new ≡ byte ∷ self.old }
        ensures len { length self.new ≡ length self.old + 1 }
    {
        self.start -= 1;
        self.bytes[self.start] = byte;
    }

    /// Puts the bytes in front.
    pub fn put(&mut self, bytes: &[u8])
        requires { length self.old + length bytes.now ≤ ROOM }
        ensures text { self.new ≡ bytes.now ++ self.old }
        ensures len { length self.new ≡ length self.old + length bytes.now }
    {
        let start = self.start - bytes.len();
        self.bytes[start..self.start].copy_from_slice(bytes);
        self.start = start;
    }

    /// Puts the letters of the bars in front.
    pub fn put_bars(&mut self, bars: &[Bar])
        requires { length self.old + length bars.now ≤ ROOM }
        ensures text { self.new ≡ flat_map bar_letter bars.now ++ self.old }
        ensures len { length self.new ≡ length self.old + length bars.now }
    {
        let start = self.start - bars.len();
        write_letters(&mut self.bytes[start..self.start], bars);
        self.start = start;
    }

    /// Puts the number in front, in decimal.
    pub fn put_number(&mut self, number: u64)
        requires { length self.old + 20 ≤ ROOM }
        ensures text { self.new ≡ decimal number ++ self.old }
        ensures len { length self.new ≤ length self.old + 20 }
    {
        self.start = write_digits(number, &mut self.bytes, self.start);
    }

    /// Puts the value in front, in decimal, with a minus sign before a negative one.
    pub fn put_value(&mut self, value: i64)
        requires { length self.old + 20 ≤ ROOM }
        ensures text { self.new ≡ signed_decimal value ++ self.old }
        ensures len { length self.new ≤ length self.old + 20 }
    {
        self.start = write_digits(value.unsigned_abs(), &mut self.bytes, self.start);
        if value < 0 {
            self.put_byte(b'-');
        }
    }
}

/// Writes the letter of each bar, one beside the other.
fn write_letters(letters: &mut [u8], bars: &[Bar])
    requires { length letters.old ≡ length bars.now }
    ensures letters { letters.new ≡ flat_map bar_letter bars.now }
    ensures len { length letters.new ≡ length bars.now }
{
    for index in 0..bars.len() {
        letters[index] = bar_letter(bars[index]);
    }
}
