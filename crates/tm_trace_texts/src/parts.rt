ghost use Rattle.std.specs.Prelude.{◌≡◌, ◌≤◌, MatchResult, length};
ghost use Rattle.tm_lines.specs.Lines.{lines_of};
ghost use Rattle.tm_trace_texts.specs.Readings.{AreParts, HasNoTraceLine};

use crate::limits::MOST_TRACE_BYTES;
use crate::trace_lines::is_trace_line;
use tm_lines::first_line;

/// The parts of a text that its first line `trace` divides.
#[derive(Clone, Copy, Debug)]
pub struct Parts<'a> {
    /// The bytes before that line.
    pub exercise: &'a [u8],
    /// The number of the first line behind it.
    pub number: u64,
    /// The bytes behind it.
    pub events: &'a [u8],
}

impl<'a> Parts<'a> {
    /// The parts of the text. Where no line of it is `trace`, how many lines it has.
    pub fn of_text(text: &'a [u8]) -> Result<Parts<'a>, u64>
        requires { length text.now ≤ MOST_TRACE_BYTES }
        ensures { MatchResult result (λ parts. AreParts text.now parts) (λ lines. HasNoTraceLine text.now lines) }
    {
        let mut rest = text;
        let mut lines = 0;
        let mut exercise_len = 0;
        while !rest.is_empty() {
            let (line, behind) = first_line(rest);
            lines += 1;
            if is_trace_line(line) {
                return Ok(Parts {
                    exercise: &text[..exercise_len],
                    number: lines + 1,
                    events: behind,
                });
            }
            exercise_len += line.len() + 1;
            rest = behind;
        }
        Err(lines)
    }
}
