ghost use Rattle.std.specs.Prelude.{◌≡◌};

use crate::views::LocalView;
use atomic_table::Seat;
use std::marker::Model;

/// What one thread has seen of a turn's history. Contracts see its number, the events that it has seen,
/// the numbers that were split from it and those that it absorbed, whether it holds the turn, and how
/// often it won and lost the turn. But for the number all of this stands in proofs alone, as the
/// auxiliary variables of Owicki and Gries do (1976).
#[derive(Drop)]
pub struct Pass<V> {
    pub(crate) number: u32,
    pub(crate) seat: Seat<Option<V>, LocalView>,
}

impl<V> Model for Pass<V> {
    ghost use Rattle.tm_turn.specs.Passes.{PassView, pass_view};
    ghost use Rattle.tm_turn.specs.StoredPasses.{KeepsPass};

    ghost Value = { PassView };

    ghost view = { λ p. pass_view p.seat.table_id p.seat.id p.seat.me.0 };

    ghost invariant = { λ p. KeepsPass p.number p.seat.me };
}

impl<V> Pass<V> {
    /// The pass's number, which no call changes.
    pub fn number(&self) -> u32
        ensures { result ≡ self.now.number }
    {
        self.number
    }
}
