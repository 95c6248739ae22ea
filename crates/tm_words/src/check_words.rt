ghost use Rattle.std.specs.Prelude.{◌≡◌, [], IfOk, IsTrue, map, string_bytes, ◌↔◌};

use crate::arguments::{bare_command, found_in, have_hyphens};
use std::alloc::Global;
use tm_base::NoMemory;

/// Whether no word follows `check`.
pub(crate) fn is_alone(alloc: Global, words: &[String]) -> Result<bool, NoMemory>
    ensures { IfOk result (λ alone. IsTrue alone ↔ (map string_bytes words.now ≡ [])) }
{
    if have_hyphens(words) {
        return Ok(false);
    }
    let matches = found_in(bare_command(alloc, "check"), words)?;
    Ok(matches.is_some())
}
