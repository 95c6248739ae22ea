ghost use Rattle.std.specs.Prelude.{◌≡◌};
ghost use Rattle.tm_merge.specs.Refusals.{RefusalsAreFounded};

use tm_base::{Entry, NoMemory};

/// The numbers of an event that have a range.
#[derive(Clone, Copy, Debug, PartialEq, Eq)]
pub enum Field {
    Thread,
    Object,
    Place,
    At,
    Stamp,
}

/// Why an event is refused. Of two events the first is the one that is kept, the second the new one.
#[derive(Clone, Copy, Debug, PartialEq, Eq)]
pub enum Refused {
    /// An event has the new one's place in its thread, or else its place at its object.
    TwicePlace(Entry, Entry),
    /// A direct neighbour breaks the rise of stamps.
    StampOrder(Entry, Entry),
    /// The thread or the object isn't there, or a place or the stamp is 0.
    OutOfRange(Field),
    NoMemory,
}

impl From<NoMemory> for Refused {
    ghost use Rattle.tm_merge.specs.declared.refusals.Refused.{Refused};

    ghost from_gives = { λ _ r. r ≡ Refused.NoMemory };

    fn from(_error: NoMemory) -> Refused {
        Refused::NoMemory
    }
}

/// What a refusal says is so: the number is out of range; or the kept event arrived and has the new one's
/// place in its thread or at its object; or it arrived, stands directly before or after the new one, and
/// their stamps don't rise.
pub fn refusals_are_founded()
    ensures { RefusalsAreFounded }
{}
