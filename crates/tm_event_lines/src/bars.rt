ghost use Rattle.std.specs.Prelude.{◌≡◌, true};
ghost use Rattle.std.specs.List.{list_all};
ghost use Rattle.tm_lines.specs.Lines.{words_of};
ghost use Rattle.tm_event_lines.specs.EventFaults.{are_bars, closes_bars, is_bar_letter, is_bars};

use tm_lines::first_word;

/// Whether the words of these bytes are none, or one word of bars.
pub fn are_bars(bytes: &[u8]) -> bool
    ensures { result ≡ are_bars (words_of bytes.now) }
{
    are_spaced_bars(bytes) || are_any_bars(bytes)
}

/// Whether the bytes are a space and a word of bars, as behind nearly all events. The word ends where the bytes do, so
/// that its end isn't looked for.
fn are_spaced_bars(bytes: &[u8]) -> bool
    ensures { result ≡ true → are_bars (words_of bytes.now) ≡ true }
{
    match bytes {
        [b' ', word @ ..] => is_bars(word),
        _ => false,
    }
}

/// The same as `are_bars`, of bytes of whatever form.
fn are_any_bars(bytes: &[u8]) -> bool
    ensures { result ≡ are_bars (words_of bytes.now) }
{
    match first_word(bytes) {
        None => true,
        Some((word, rest)) => first_word(rest).is_none() && is_bars(word),
    }
}

/// Whether the word is one of bars: letters of bars between `[` and `]`.
fn is_bars(word: &[u8]) -> bool
    ensures { result ≡ is_bars word.now }
{
    match word {
        [b'[', rest @ ..] => closes_bars(rest),
        _ => false,
    }
}

/// Whether the bytes are letters of bars and a `]` at the end.
fn closes_bars(bytes: &[u8]) -> bool
    ensures { result ≡ closes_bars bytes.now }
{
    match bytes.split_last() {
        None => false,
        Some((last, letters)) => *last == b']' && are_bar_letters(letters),
    }
}

/// Whether each byte is the letter of a bar.
fn are_bar_letters(bytes: &[u8]) -> bool
    ensures { result ≡ list_all is_bar_letter bytes.now }
{
    // No byte has a branch, so that many are tested at once.
    bytes.iter().fold(true, |all, b| all & is_bar_letter(*b))
}

/// Whether the byte is the letter of a bar.
fn is_bar_letter(byte: u8) -> bool
    ensures { result ≡ is_bar_letter byte }
{
    (byte == b'-') | (byte == b'R') | (byte == b'B') | (byte == b'G') | (byte == b'E')
}
