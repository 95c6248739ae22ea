ghost use Rattle.std.specs.Prelude.{◌≡◌, length};

use crate::events::Entry;

/// A value that stands for the events of one object. What threads share in turns is such a value, and a
/// book is one. Contracts see its events in order, and which object it is of.
pub trait Kept {
    ghost use Rattle.std.specs.Prelude.{List};
    ghost use Rattle.tm_base.specs.declared.events.Entry.{Entry};
    ghost use Rattle.tm_base.specs.Histories.{Label};

    /// The events in order.
    ghost entries: { Self → List Entry };

    /// The object's number, its kind and its number of threads.
    ghost label: { Self → Label };

    /// How many events it has.
    fn length(&self) -> u64
        ensures { result ≡ length (entries self.now) };
}
