ghost use Rattle.std.specs.Prelude.{◌≡◌, ◌≢◌, suc, ◌++◌, ◌∷◌, ◌^◌, ◌<◌, ◌≤◌, [], false, true, length, IfOk, IfErr, OnOk};
ghost use Rattle.tm_turn.specs.Prefixes.{StartsWith};
ghost use Rattle.tm_turn.specs.Passes.{IsHeldBy, IsPassOf, mine};

use crate::held::{Busy, Held};
use crate::passes::Pass;
use crate::rules::{GiveTurn, NoteEntry, Noted, TryTurn, TurnRule};
use crate::views::LocalView;
use atomic_table::{Refused, Seat, Table};
use std::alloc::Global;
use std::marker::{Brand, Model};
use std::snapshot::Snapshot;
use std::sync::Wait;
use std::thread::yield_now;
use tm_base::{Entry, Kept, NoMemory};

/// The word that names the holder: 0, or the number of a pass plus 1.
pub(crate) const HOLDER: usize = 0;

/// The word that counts the events of the history.
const COUNT: usize = 1;

/// The slot that has the value, or nothing while a pass holds the turn.
pub(crate) const VALUE: usize = 0;

/// The turn of a value that threads share. One pass at a time holds it, and with it the value, by a
/// compare-exchange on one word. Contracts see which turn it is, and the label of the value that it was
/// made with, which stays for good.
#[derive(Drop)]
pub struct Turn<V: Kept> {
    pub(crate) table: Table<Option<V>, LocalView, Snapshot<V>, TurnRule, Global>,
}

impl<V: Kept> Model for Turn<V> {
    ghost use Rattle.std.specs.Prelude.{◌≡◌};
    ghost use Rattle.tm_turn.specs.Passes.{TurnView};

    ghost Value = { TurnView };

    ghost view = { λ t. record { turn = t.table.shared.table_id; label = V.label t.table.shared.key.value } };

    ghost invariant = { λ t. (t.table.shared.table_id.words ≡ 2) × (t.table.shared.table_id.slots ≡ 1) };
}

impl<V: Kept + Drop> Turn<V> {
    /// The turn of the value, which nobody holds, and pass 0, which has seen nothing. Running out of
    /// memory refuses it, and drops the value.
    pub fn make(alloc: Global, value: V) -> Result<(Turn<V>, Pass<V>), NoMemory>
        requires { V.entries value ≡ [] }
        ensures label { IfOk result (λ made. made.0.label ≡ V.label value) }
        ensures of { IfOk result (λ made. IsPassOf made.0 made.1) }
        ensures number { IfOk result (λ made. made.1.number ≡ 0) }
        ensures seen { IfOk result (λ made. made.1.seen ≡ []) }
        ensures given { IfOk result (λ made. made.1.given ≡ []) }
        ensures absorbed { IfOk result (λ made. made.1.absorbed ≡ []) }
        ensures idle { IfOk result (λ made. made.1.holds ≡ false) }
    {
        let key = Snapshot::of(&value);
        let mut slots = Vec::with_capacity(alloc, 1)?;
        slots.push_reserved(Some(value));
        match Table::new(alloc, &[0, 0], slots, &key) {
            Ok((table, seat)) => Ok((Turn { table }, Pass { number: 0, seat })),
            Err(Refused { slots: _ }) => Err(NoMemory),
        }
    }
}

impl<V: Kept> Turn<V> {
    /// Tries once to take the turn, without waiting. Who takes it has seen the whole history, which is the
    /// value's list. `Busy` only where this call lost the turn to the pass that it names; then the pass is
    /// unchanged but for its marks.
    pub fn try_take(&self, pass: &mut Pass<V>) -> Result<Held<V>, Busy>
        requires of { IsPassOf self.now pass.old }
        requires idle { pass.old.holds ≡ false }
        ensures taken { OnOk result (pass.new ≡ record pass.old { seen = pass.new.seen; holds = true; turns = suc pass.old.turns }) }
        ensures begins { OnOk result (StartsWith pass.new.seen pass.old.seen) }
        ensures mine { OnOk result (mine pass.new ≡ mine pass.old) }
        ensures list { IfOk result (λ held. V.entries held.value ≡ pass.new.seen) }
        ensures label { IfOk result (λ held. V.label held.value ≡ self.now.label) }
        ensures held { IfOk result (λ held. IsHeldBy pass.new held.from.value) }
        ensures busy { IfErr result (λ busy. pass.new ≡ record pass.old { misses = suc pass.old.misses; missed = suc busy.holder }) }
        ensures other { IfErr result (λ busy. busy.holder ≢ pass.old.number) }
    {
        let shared = &self.table.shared;
        let word = u64::from(pass.number) + 1;
        let found = shared.compare_exchange::<TryTurn>(&mut pass.seat, HOLDER, 0, word);
        if found != 0 {
            return Err(Busy {
                holder: (found - 1) as u32,
            });
        }
        let value = shared.exchange(&mut pass.seat, VALUE, None).unwrap();
        let from = Snapshot::of(pass);
        Ok(Held { value, from })
    }

    /// Takes the turn as `try_take` does, and tries until it holds it. That it ever does isn't promised.
    pub fn take<R: Wait>(&self, rt: &R, pass: &mut Pass<V>) -> Held<V>
        requires of { IsPassOf self.now pass.old }
        requires idle { pass.old.holds ≡ false }
        ensures taken { pass.new ≡ record pass.old { seen = pass.new.seen; holds = true; turns = suc pass.old.turns; misses = pass.new.misses; missed = pass.new.missed } }
        ensures misses { pass.old.misses ≤ pass.new.misses }
        ensures begins { StartsWith pass.new.seen pass.old.seen }
        ensures mine { mine pass.new ≡ mine pass.old }
        ensures list { V.entries result.value ≡ pass.new.seen }
        ensures label { V.label result.value ≡ self.now.label }
        ensures held { IsHeldBy pass.new result.from.value }
    {
        for _ in rt.forever() {
            match self.try_take(pass) {
                Ok(held) => return held,
                Err(_) => yield_now(),
            }
        }
        unreachable!()
    }

    /// Notes the event that the holder made, which stands at the end of the value's list. The one
    /// `fetch_add` makes it an event of the history: this is its linearization point, as Herlihy and Wing
    /// call it (TOPLAS 1990).
    pub fn note(&self, pass: &mut Pass<V>, held: &mut Held<V>, entry: &Entry)
        requires of { IsPassOf self.now pass.old }
        requires from { IsHeldBy pass.old held.old.from.value }
        requires list { V.entries held.old.value ≡ pass.old.seen ++ entry.now ∷ [] }
        requires own { entry.now.thread ≡ pass.old.number }
        ensures seen { pass.new ≡ record pass.old { seen = pass.old.seen ++ entry.now ∷ [] } }
        ensures mine { mine pass.new ≡ mine pass.old ++ entry.now ∷ [] }
        ensures held { held.new ≡ held.old }
    {
        // A list with one event more has a length that fits its word.
        let _length = held.value.length();
        self.count::<Brand>(pass, entry);
    }

    /// Counts the event, which the caller picks for the proof.
    fn count<E: Noted>(&self, pass: &mut Pass<V>, _entry: &Entry)
        requires of { IsPassOf self.now pass.old }
        requires holds { pass.old.holds ≡ true }
        requires entry { E.entry ≡ _entry.now }
        requires own { E.entry.thread ≡ pass.old.number }
        requires short { suc (length pass.old.seen) < 2 ^ 64 }
        ensures { pass.new ≡ record pass.old { seen = pass.old.seen ++ E.entry ∷ [] } }
    {
        let shared = &self.table.shared;
        shared.fetch_add::<NoteEntry<E>>(&mut pass.seat, COUNT, 1);
    }

    /// Gives the turn back, with the value, whose list is what the pass has seen.
    pub fn give(&self, pass: &mut Pass<V>, held: Held<V>)
        requires of { IsPassOf self.now pass.old }
        requires from { IsHeldBy pass.old held.from.value }
        requires list { V.entries held.value ≡ pass.old.seen }
        requires label { V.label held.value ≡ self.now.label }
        ensures { pass.new ≡ record pass.old { holds = false } }
    {
        let Held { value, from: _ } = held;
        let shared = &self.table.shared;
        match shared.exchange(&mut pass.seat, VALUE, Some(value)) {
            None => {}
            Some(_) => unreachable!(),
        }
        shared.store::<GiveTurn>(&mut pass.seat, HOLDER, 0);
    }
}
