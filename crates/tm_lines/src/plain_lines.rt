ghost use Rattle.std.specs.Prelude.{◌≡◌, ◌<◌, true, [], ◌∷◌, length, IfSome};
ghost use Rattle.std.specs.List.{prefix_len};
ghost use Rattle.tm_lines.specs.Lines.{is_blank};
ghost use Rattle.tm_lines.specs.PlainLines.{CutsWords, EndsLine, IsCutOff, ends_word, is_plain};

use crate::lines::{blank_len, first_line, is_printed, without_cr};
use crate::words::Words;

/// The first line of some bytes: its words, whether each of its bytes prints or is a tab, and the bytes after it.
#[derive(Clone, Copy, Debug)]
pub struct CutLine<'a> {
    pub words: Words<'a>,
    pub is_printed: bool,
    pub rest: &'a [u8],
}

/// The first line of the bytes.
///
/// Nearly all lines are plain. One pass over their bytes cuts a line off, cuts its words and tests its bytes.
#[inline(always)]
pub fn cut_line(bytes: &[u8]) -> CutLine<'_>
    requires { 0 < length bytes.now }
    ensures { IsCutOff bytes.now result }
{
    match plain_line(bytes) {
        None => any_line(bytes),
        Some((words, rest)) => CutLine {
            words,
            is_printed: true,
            rest,
        },
    }
}

/// The first line of the bytes, of whatever form.
#[inline(never)]
fn any_line(bytes: &[u8]) -> CutLine<'_>
    requires { 0 < length bytes.now }
    ensures { IsCutOff bytes.now result }
{
    let (line, rest) = first_line(bytes);
    let line = without_cr(line);
    CutLine {
        words: Words::of_line(line),
        is_printed: is_printed(line),
        rest,
    }
}

/// The words of the bytes' first line, and the bytes after it, where the line is plain: it has three words at most,
/// and each of its bytes prints or is a tab. `None` says nothing of the line.
#[inline(always)]
fn plain_line<'a>(bytes: &'a [u8]) -> Option<(Words<'a>, &'a [u8])>
    requires { 0 < length bytes.now }
    ensures { IfSome result (λ plain.
        IsCutOff bytes.now (record { words = plain.0; is_printed = true; rest = plain.1 })) }
{
    let none = Words {
        first: b"",
        second: b"",
        third: b"",
        fourth: b"",
        count: 0,
    };
    let rest = after_blanks(bytes);
    if let Some(next) = after_end(rest) {
        return Some((none, next));
    }
    let (first, rest) = plain_word(rest)?;
    let one = Words {
        first,
        count: 1,
        ..none
    };
    if let Some(next) = after_end(rest) {
        return Some((one, next));
    }
    let (second, rest) = plain_word(rest)?;
    let two = Words {
        second,
        count: 2,
        ..one
    };
    if let Some(next) = after_end(rest) {
        return Some((two, next));
    }
    let (third, rest) = plain_word(rest)?;
    let three = Words {
        third,
        count: 3,
        ..two
    };
    let next = after_end(rest)?;
    Some((three, next))
}

/// The first word of the bytes, and the bytes after it and the blanks behind it. `None` where the bytes don't begin
/// with a word, or it has a byte that doesn't print.
#[inline(always)]
fn plain_word(bytes: &[u8]) -> Option<(&[u8], &[u8])>
    ensures { IfSome result (λ cut. CutsWords bytes.now (cut.0.now ∷ []) cut.1.now) }
{
    let (word, rest) = bytes.split_at(plain_len(bytes));
    if word.is_empty() || !ends_word(rest) {
        return None;
    }
    Some((word, after_blanks(rest)))
}

/// How many bytes that print and are no blanks the bytes begin with.
fn plain_len(bytes: &[u8]) -> usize
    ensures { result ≡ prefix_len is_plain bytes.now }
{
    bytes.iter().take_while(|b| is_plain(**b)).count()
}

/// Whether the byte prints and is no blank.
fn is_plain(byte: u8) -> bool
    ensures { result ≡ is_plain byte }
{
    b'!' <= byte && byte <= b'~'
}

/// Whether a word ends before these bytes.
fn ends_word(bytes: &[u8]) -> bool
    ensures { result ≡ ends_word bytes.now }
{
    match bytes {
        [] => true,
        [byte, ..] => *byte == b' ' || *byte == b'\t' || *byte == b'\n',
    }
}

/// The bytes after the blanks that they begin with.
fn after_blanks(bytes: &[u8]) -> &[u8]
    ensures { CutsWords bytes.now [] result.now }
{
    &bytes[blank_len(bytes)..]
}

/// The bytes after the end of the line, where the line ends here.
fn after_end(bytes: &[u8]) -> Option<&[u8]>
    ensures { IfSome result (λ rest. EndsLine bytes.now rest.now) }
{
    match bytes {
        [] => Some(bytes),
        [b'\n', rest @ ..] => Some(rest),
        _ => None,
    }
}
