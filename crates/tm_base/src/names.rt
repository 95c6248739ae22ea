ghost use Rattle.std.specs.Prelude.{◌≡◌, ◌↔◌, IsNone, IfSome};
ghost use Rattle.tm_base.specs.Names.{IsName, is_letter, is_name, is_word};
ghost use Rattle.std.specs.List.{list_all};

use std::marker::Model;

/// A name of an object or a thread: a letter and up to 15 letters, digits or underscores.
#[derive(Clone, Copy, Debug, PartialEq, Eq)]
pub struct Name {
    len: u8,
    bytes: [u8; 16],
}

impl Model for Name {
    ghost use Rattle.std.specs.Prelude.{ℕ, List};
    ghost use Rattle.tm_base.specs.Names.{IsName};

    ghost Value = { List ℕ };

    ghost use Rattle.tm_base.specs.StoredNames.{name_bytes, IsStored, stored, stored-name_bytes};

    ghost view = { name_bytes };

    ghost invariant = { IsStored };

    ghost inverse = { stored };

    ghost inverse_ok = { stored-name_bytes };
}

impl Name {
    /// The name with these bytes. `None` exactly where they are no name.
    pub fn make(bytes: &[u8]) -> Option<Name>
        ensures none { IsNone result ↔ ¬ IsName bytes.now }
        ensures value { IfSome result (λ name. name ≡ bytes.now) }
    {
        if !is_name(bytes) {
            return None;
        }
        let mut kept = [0u8; 16];
        kept[..bytes.len()].copy_from_slice(bytes);
        Some(Name {
            len: bytes.len() as u8,
            bytes: kept,
        })
    }

    /// Its bytes.
    pub fn bytes(&self) -> &[u8]
        ensures value { result.now ≡ self.now }
        ensures name { IsName result.now }
    {
        &self.bytes[..self.len as usize]
    }
}

/// Whether a name may go on with the byte.
fn is_word(byte: u8) -> bool
    ensures { result ≡ is_word byte }
{
    byte.is_ascii_alphanumeric() || byte == b'_'
}

/// Whether the bytes are a name.
fn is_name(bytes: &[u8]) -> bool
    ensures { result ≡ is_name bytes.now }
{
    match bytes.split_first() {
        None => false,
        Some((first, rest)) => is_letter(*first) && are_words(rest) && rest.len() <= 15,
    }
}

/// Whether a name may begin with the byte.
fn is_letter(byte: u8) -> bool
    ensures { result ≡ is_letter byte }
{
    byte.is_ascii_alphabetic()
}

/// Whether a name may go on with each of the bytes.
fn are_words(bytes: &[u8]) -> bool
    ensures { result ≡ list_all is_word bytes.now }
{
    bytes.iter().all(|b| is_word(*b))
}
