ghost use Rattle.std.specs.Prelude.{◌≡◌, ◌<◌, true, IfOk};
ghost use Rattle.tm_base.specs.Names.{IsName};
ghost use Rattle.tm_makers.specs.Drafts.{is_short_name};
ghost use Rattle.tm_makers.specs.LineForms.{numbered};

use std::alloc::Global;
use tm_base::{Name, NoMemory};

/// The name that is this word.
pub fn plain(word: &[u8]) -> Name
    requires { IsName word.now }
    ensures { result ≡ word.now }
{
    let Some(name) = Name::make(word) else {
        unreachable!()
    };
    name
}

/// The name that is this word with the number behind it.
pub fn numbered(alloc: Global, word: &[u8], number: u32) -> Result<Name, NoMemory>
    requires word { is_short_name word.now ≡ true }
    requires number { number < 100 }
    ensures { IfOk result (λ name. name ≡ numbered word.now number) }
{
    let digits = number.to_string(alloc)?;
    let mut bytes = Vec::from_slice(alloc, word)?;
    bytes.extend_from_slice(digits.as_bytes())?;
    Ok(plain(bytes.as_slice()))
}
