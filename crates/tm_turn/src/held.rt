ghost use Rattle.std.specs.Prelude.{◌≡◌};
ghost use types.Logic.{sem};
ghost use Rattle.std.specs.Borrow.{Lends};
ghost use Rattle.tm_turn.specs.contracts.held.Held.{the_row};

use crate::passes::Pass;
use std::snapshot::Snapshot;

/// The turn's value, while a pass holds the turn. It can't be dropped: it is spent by `give`. Contracts
/// see the value, and which pass took it.
pub struct Held<V> {
    /// The value.
    pub value: V,
    /// The pass that took it, as it was then.
    pub(crate) from: Snapshot<Pass<V>>,
}

impl<V> Held<V> {
    /// The value, to be worked on.
    pub fn value(&mut self) -> &mut V
        ensures* writes_back { sem 𝓛 (Lends (the_row V.row) V.row self.entry result (λ value. record self.entry.now { value = value })) }
        ensures value { result.now ≡ self.old.value }
    {
        &mut self.value
    }
}

/// Another pass holds the turn.
#[derive(Clone, Copy, Debug, PartialEq, Eq)]
pub struct Busy {
    /// The number of the pass that held the turn when this call lost it.
    pub holder: u32,
}
