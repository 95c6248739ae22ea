ghost use Rattle.std.specs.Prelude.{◌≡◌, ◌<◌, ◌∷◌, [], length, MatchOption};
ghost use Rattle.std.specs.List.{list_all, position_or_len, prefix_len};
ghost use Rattle.tm_lines.specs.Lines.{is_blank, is_ignored, is_lf, is_printed, lines_of, without_cr, words_of};

use memchr::memchr;

/// How many bytes of a line are looked at one by one, before several are at once.
const SHORT_LINE: usize = 8;

/// The first line of the bytes, without its LF, and the bytes after it.
pub fn first_line(bytes: &[u8]) -> (&[u8], &[u8])
    requires { 0 < length bytes.now }
    ensures lines { lines_of bytes.now ≡ result.0.now ∷ lines_of result.1.now }
    ensures shorter { length result.1.now < length bytes.now }
{
    let end = line_len(bytes);
    if end < bytes.len() {
        (&bytes[..end], &bytes[end + 1..])
    } else {
        (bytes, &bytes[end..])
    }
}

/// The line without one CR at its end.
pub fn without_cr(line: &[u8]) -> &[u8]
    ensures { result.now ≡ without_cr line.now }
{
    match line.strip_suffix(b"\r".as_slice()) {
        None => line,
        Some(prefix) => prefix,
    }
}

/// The first word of the line, and what follows it. `None` where there is no word.
pub fn first_word(line: &[u8]) -> Option<(&[u8], &[u8])>
    ensures { MatchOption result (words_of line.now ≡ [])
        (λ found. words_of line.now ≡ found.0.now ∷ words_of found.1.now) }
{
    let rest = &line[blank_len(line)..];
    if rest.is_empty() {
        return None;
    }
    Some(rest.split_at(word_len(rest)))
}

/// Whether the line is ignored: it has no word, or its first word begins with `#`.
pub fn is_ignored(line: &[u8]) -> bool
    ensures { result ≡ is_ignored (words_of line.now) }
{
    match first_word(line) {
        None => true,
        Some((word, _)) => matches!(word, [b'#', ..]),
    }
}

/// Whether each byte of the line is a tab or prints.
pub fn is_printed(line: &[u8]) -> bool
    ensures { result ≡ list_all is_printed line.now }
{
    // No byte has a branch, so that many are tested at once.
    line.iter().fold(true, |all, b| all & is_printed_byte(*b))
}

/// Whether the byte is a tab or prints.
fn is_printed_byte(byte: u8) -> bool
    ensures { result ≡ is_printed byte }
{
    (byte == b'\t') | ((b' ' <= byte) & (byte <= b'~'))
}

/// How many bytes stand before the first LF. A search by vectors begins slowly, and most lines of an exercise are short:
/// so it begins only behind the first bytes.
fn line_len(bytes: &[u8]) -> usize
    ensures { result ≡ position_or_len is_lf bytes.now }
{
    if bytes.len() <= SHORT_LINE {
        return near_line_len(bytes);
    }
    let (front, back) = bytes.split_at(SHORT_LINE);
    let near = near_line_len(front);
    if near < front.len() {
        near
    } else {
        near + far_line_len(back)
    }
}

/// The same, byte by byte.
fn near_line_len(bytes: &[u8]) -> usize
    ensures { result ≡ position_or_len is_lf bytes.now }
{
    bytes.iter().take_while(|b| **b != b'\n').count()
}

/// The same, by a search that takes several bytes at once.
fn far_line_len(bytes: &[u8]) -> usize
    ensures { result ≡ position_or_len is_lf bytes.now }
{
    memchr(b'\n', bytes).unwrap_or(bytes.len())
}

/// How many blanks the line begins with.
pub(crate) fn blank_len(line: &[u8]) -> usize
    ensures { result ≡ prefix_len is_blank line.now }
{
    line.iter().take_while(|b| is_blank(**b)).count()
}

/// How many bytes stand before the first blank.
fn word_len(line: &[u8]) -> usize
    ensures { result ≡ position_or_len is_blank line.now }
{
    line.iter().take_while(|b| !is_blank(**b)).count()
}

/// Whether the byte separates words.
pub(crate) fn is_blank(byte: u8) -> bool
    ensures { result ≡ is_blank byte }
{
    byte == b' ' || byte == b'\t'
}
