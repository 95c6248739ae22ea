ghost use Rattle.std.specs.Prelude.{◌≡◌};
ghost use Rattle.tm_lines.specs.Lines.{words_of};
ghost use Rattle.tm_trace_texts.specs.TraceTexts.{is_passed_over, is_trace_line, says_end};

use tm_lines::{first_word, is_ignored, without_cr};

/// Whether the line's only word is `trace`.
pub fn is_trace_line(line: &[u8]) -> bool
    ensures { result ≡ is_trace_line line.now }
{
    match first_word(without_cr(line)) {
        None => false,
        Some((word, rest)) => word == b"trace".as_slice() && first_word(rest).is_none(),
    }
}

/// Whether the line behind the line `trace` is no event line: it is ignored, or says how a run ended.
pub fn is_passed_over(line: &[u8]) -> bool
    ensures { result ≡ is_passed_over (words_of line.now) }
{
    is_ignored(line) || says_end(line)
}

/// Whether the line's first word says how a run or a check ended.
fn says_end(line: &[u8]) -> bool
    ensures { result ≡ says_end (words_of line.now) }
{
    match first_word(line) {
        None => false,
        Some((word, _)) => {
            word == b"done".as_slice()
                || word == b"stuck".as_slice()
                || word == b"budget".as_slice()
                || word == b"legal".as_slice()
        }
    }
}
