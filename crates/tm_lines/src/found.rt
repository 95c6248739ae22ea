ghost use Rattle.std.specs.Prelude.{◌≡◌};
ghost use Rattle.tm_lines.specs.Found.{in_number, in_register, in_word, or_found};

/// Which kinds of fault were found in words of a line.
#[derive(Clone, Copy, Debug, PartialEq, Eq)]
pub struct Found {
    pub word: bool,
    pub name: bool,
    pub unknown: bool,
    pub kind: bool,
    pub number: bool,
    pub register: bool,
}

impl Found {
    /// Nothing was found.
    pub const NOTHING: Found = Found {
        word: false,
        name: false,
        unknown: false,
        kind: false,
        number: false,
        register: false,
    };

    /// Whether a word of few choices is another, and nothing else.
    pub fn in_word(word: bool) -> Found
        ensures { result ≡ in_word word }
    {
        Found {
            word,
            ..Found::NOTHING
        }
    }

    /// Whether a number is none, and nothing else.
    pub fn in_number(number: bool) -> Found
        ensures { result ≡ in_number number }
    {
        Found {
            number,
            ..Found::NOTHING
        }
    }

    /// Whether a register is none, and nothing else.
    pub fn in_register(register: bool) -> Found
        ensures { result ≡ in_register register }
    {
        Found {
            register,
            ..Found::NOTHING
        }
    }

    /// What was found here or there.
    pub fn or(self, other: Found) -> Found
        ensures { result ≡ or_found self other }
    {
        Found {
            word: self.word || other.word,
            name: self.name || other.name,
            unknown: self.unknown || other.unknown,
            kind: self.kind || other.kind,
            number: self.number || other.number,
            register: self.register || other.register,
        }
    }
}
