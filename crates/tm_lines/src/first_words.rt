ghost use Rattle.std.specs.Prelude.{◌≡◌, [], ◌∷◌};
ghost use Rattle.std.specs.List.{find, list_any};
ghost use Rattle.std.specs.Option.{option_to_list};
ghost use Rattle.std.specs.Str.{bytes_eq};
ghost use Rattle.tm_base.specs.Opcodes.{word_of};
ghost use Rattle.tm_lines.specs.LineFaults.{opens};
ghost use Rattle.tm_lines.specs.FirstWords.{asked_opcodes, begins_with, declarators, own_words, declarator_slots, declarator_word, first_word_of, has_count, is_allowed, operand_slots, slots_of, spelling};

use crate::limits::{
    GREATEST_NUMBER, LEAST_NUMBER, MOST_CAPACITY, MOST_CONDITIONS, MOST_PARTIES, MOST_START,
    MOST_TURNS,
};
use tm_base::Opcode;

/// A word that declares an object.
#[derive(Clone, Copy, Debug, PartialEq, Eq)]
pub enum Declarator {
    Mutex,
    Rwlock,
    Sync,
    Sem,
    Monitor,
    Barrier,
    Async,
    Var,
    Thread,
}

/// A word that a line can begin with.
#[derive(Clone, Copy, Debug, PartialEq, Eq)]
pub enum FirstWord {
    Declares(Declarator),
    /// An operation that a program can ask.
    Calls(Opcode),
    Set,
    Inc,
    Repeat,
    While,
    If,
    End,
}

/// What a word after the first has to be.
#[derive(Clone, Copy, Debug, PartialEq, Eq)]
pub enum Slot {
    /// The name of an object that the line declares.
    NewName,
    /// The name of an object of the text.
    KnownName,
    /// A number from `least` to `most`.
    Number { least: i64, most: i64 },
    /// A condition of the monitor that is named, from 0.
    Condition,
    Register,
    /// A number or a register.
    Value,
    Comparison,
    /// `hoare` or `mesa`.
    Discipline,
    /// `held`, which may be left out.
    Held,
}

/// A number of 64 bits.
const ANY_NUMBER: Slot = Slot::Number {
    least: LEAST_NUMBER,
    most: GREATEST_NUMBER,
};

impl FirstWord {
    /// The first word that is spelled so. Where lines are short, most begin with a word of one byte.
    #[inline(always)]
    pub fn of_word(word: &[u8]) -> Option<FirstWord>
        ensures { result ≡ first_word_of word.now }
    {
        match word {
            [byte] => FirstWord::of_byte(*byte),
            _ => FirstWord::of_any_word(word),
        }
    }

    /// The first word that is this byte alone.
    fn of_byte(byte: u8) -> Option<FirstWord>
        ensures { result ≡ first_word_of (byte ∷ []) }
    {
        match byte {
            b'p' => Some(FirstWord::Calls(Opcode::P)),
            b'v' => Some(FirstWord::Calls(Opcode::V)),
            _ => None,
        }
    }

    /// The first word of any length that is spelled so.
    fn of_any_word(word: &[u8]) -> Option<FirstWord>
        ensures { result ≡ first_word_of word.now }
    {
        match Declarator::of_word(word) {
            Some(declarator) => Some(FirstWord::Declares(declarator)),
            None => match asked_opcode(word) {
                Some(opcode) => Some(FirstWord::Calls(opcode)),
                None => own_word(word),
            },
        }
    }

    /// How it is spelled.
    pub fn spelling(self) -> &'static [u8]
        ensures { result.now ≡ spelling self }
    {
        match self {
            FirstWord::Declares(declarator) => declarator.word(),
            FirstWord::Calls(opcode) => opcode.word(),
            FirstWord::Set => b"set",
            FirstWord::Inc => b"inc",
            FirstWord::Repeat => b"repeat",
            FirstWord::While => b"while",
            FirstWord::If => b"if",
            FirstWord::End => b"end",
        }
    }

    /// What the words after it have to be, one after the other.
    pub fn slots(self) -> &'static [Slot]
        ensures { result.now ≡ slots_of self }
    {
        match self {
            FirstWord::Declares(declarator) => declarator.slots(),
            FirstWord::Calls(opcode) => operand_slots(opcode),
            FirstWord::Set | FirstWord::Inc => &[Slot::Register, ANY_NUMBER],
            FirstWord::Repeat => &[Slot::Number {
                least: 0,
                most: MOST_TURNS,
            }],
            FirstWord::While | FirstWord::If => &[Slot::Register, Slot::Comparison, ANY_NUMBER],
            FirstWord::End => &[],
        }
    }

    /// Whether it may stand inside a thread, or outside of each.
    pub fn is_allowed(self, inside: bool) -> bool
        ensures { result ≡ is_allowed inside self }
    {
        match self {
            FirstWord::Declares(_) => !inside,
            _ => inside,
        }
    }

    /// Whether a line that begins with it opens a block.
    pub fn opens(self) -> bool
        ensures { result ≡ opens self }
    {
        matches!(self, FirstWord::Repeat | FirstWord::While | FirstWord::If)
    }

    /// Whether a line that begins with it may have so many words.
    pub fn has_count(self, words: usize) -> bool
        ensures { result ≡ has_count self words }
    {
        match self {
            FirstWord::Declares(Declarator::Thread) => words == 2 || words == 3,
            _ => words == 1 + self.slots().len(),
        }
    }
}

impl Declarator {
    /// The word that declares, where it is spelled so.
    pub fn of_word(word: &[u8]) -> Option<Declarator>
        ensures { result ≡ find (λ d. bytes_eq (declarator_word d) word.now) declarators }
    {
        match word {
            b"mutex" => Some(Declarator::Mutex),
            b"rwlock" => Some(Declarator::Rwlock),
            b"sync" => Some(Declarator::Sync),
            b"sem" => Some(Declarator::Sem),
            b"monitor" => Some(Declarator::Monitor),
            b"barrier" => Some(Declarator::Barrier),
            b"async" => Some(Declarator::Async),
            b"var" => Some(Declarator::Var),
            b"thread" => Some(Declarator::Thread),
            _ => None,
        }
    }

    /// Whether a word that begins with these bytes may declare, or one that is the first of them alone.
    pub(crate) fn can_begin(first: u8, second: u8) -> bool
        ensures { result ≡ list_any (λ d. begins_with first second (declarator_word d)) declarators }
    {
        matches!(
            (first, second),
            (b'm', b'u')
                | (b'r', b'w')
                | (b's', b'y')
                | (b's', b'e')
                | (b'm', b'o')
                | (b'b', b'a')
                | (b'a', b's')
                | (b'v', b'a')
                | (b't', b'h')
        )
    }

    /// How it is spelled.
    fn word(self) -> &'static [u8]
        ensures { result.now ≡ declarator_word self }
    {
        match self {
            Declarator::Mutex => b"mutex",
            Declarator::Rwlock => b"rwlock",
            Declarator::Sync => b"sync",
            Declarator::Sem => b"sem",
            Declarator::Monitor => b"monitor",
            Declarator::Barrier => b"barrier",
            Declarator::Async => b"async",
            Declarator::Var => b"var",
            Declarator::Thread => b"thread",
        }
    }

    /// What the words after it have to be.
    fn slots(self) -> &'static [Slot]
        ensures { result.now ≡ declarator_slots self }
    {
        match self {
            Declarator::Sem => &[
                Slot::NewName,
                Slot::Number {
                    least: 0,
                    most: MOST_START,
                },
            ],
            Declarator::Monitor => {
                &[
                    Slot::NewName,
                    Slot::Discipline,
                    Slot::Number {
                        least: 1,
                        most: MOST_CONDITIONS,
                    },
                ]
            }
            Declarator::Barrier => &[
                Slot::NewName,
                Slot::Number {
                    least: 1,
                    most: MOST_PARTIES,
                },
            ],
            Declarator::Async => &[
                Slot::NewName,
                Slot::Number {
                    least: 1,
                    most: MOST_CAPACITY,
                },
            ],
            Declarator::Var => &[Slot::NewName, ANY_NUMBER],
            Declarator::Thread => &[Slot::NewName, Slot::Held],
            Declarator::Mutex | Declarator::Rwlock | Declarator::Sync => &[Slot::NewName],
        }
    }
}

/// The operation that is spelled so, and that a program can ask.
fn asked_opcode(word: &[u8]) -> Option<Opcode>
    ensures { result ≡ find (λ c. bytes_eq (word_of c) word.now) asked_opcodes }
{
    match Opcode::of_word(word) {
        None => None,
        Some(Opcode::Begin | Opcode::End | Opcode::Resume | Opcode::Stop) => None,
        Some(opcode) => Some(opcode),
    }
}

/// The first word that is spelled so, and is neither a declaration's nor a call's.
fn own_word(word: &[u8]) -> Option<FirstWord>
    ensures { result ≡ find (λ f. bytes_eq (spelling f) word.now) own_words }
{
    match word {
        b"set" => Some(FirstWord::Set),
        b"inc" => Some(FirstWord::Inc),
        b"repeat" => Some(FirstWord::Repeat),
        b"while" => Some(FirstWord::While),
        b"if" => Some(FirstWord::If),
        b"end" => Some(FirstWord::End),
        _ => None,
    }
}

/// The name of an object, and then what the operation has beside it.
fn operand_slots(opcode: Opcode) -> &'static [Slot]
    ensures { result.now ≡ Slot.KnownName ∷ operand_slots opcode }
{
    match opcode {
        Opcode::TryLock | Opcode::TryP | Opcode::Recv | Opcode::Read => &[
            Slot::KnownName,
            Slot::Register,
        ],
        Opcode::Wait | Opcode::Signal | Opcode::Broadcast => &[Slot::KnownName, Slot::Condition],
        Opcode::Send | Opcode::Write | Opcode::Add => &[Slot::KnownName, Slot::Value],
        _ => &[Slot::KnownName],
    }
}

/// What the operation has beside the name of an object.
pub(crate) fn operand_slot(opcode: Opcode) -> Option<Slot>
    ensures { option_to_list result ≡ operand_slots opcode }
{
    match operand_slots(opcode) {
        [_, slot, ..] => Some(*slot),
        _ => None,
    }
}
