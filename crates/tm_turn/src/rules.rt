// The rule of a turn's table, and what each of its steps tells. These types are for the proofs alone.
ghost use Rattle.tm_turn.specs.LocalViews.{newcomer, splitting, note_of, absorbing, meeting, spent};
ghost use Rattle.tm_turn.specs.TurnSteps.{Tries, Notes, Gives, Looks, Learns};

use crate::views::LocalView;
use atomic_table::{Join, Play, Split, TableRule};
use std::marker::{Brand, PhantomData};
use std::snapshot::Snapshot;
use tm_base::Kept;

/// The rule of the table: one holder, one history.
pub struct TurnRule;

impl<V: Kept> TableRule<Option<V>, LocalView, Snapshot<V>> for TurnRule {
    ghost use Rattle.std.specs.Prelude.{[]};
    ghost use Rattle.tm_turn.specs.Rule.{FollowsRule};
    ghost use Rattle.tm_turn.specs.LocalViews.{newcomer};

    ghost holds = { λ key. FollowsRule V.entries V.label (V.label key.value) };

    ghost first = { λ key. newcomer (V.label key.value) 0 [] };
}

/// A compare-exchange on `holder`, from 0.
pub struct TryTurn;

impl<V: Kept> Play<Option<V>, LocalView> for TryTurn {
    ghost then = { λ _ m found after. Tries V.entries V.label m found after };
}

/// The event that a `note` will count, for the proof alone. A call at `Brand` picks it.
pub trait Noted {
    ghost use Rattle.tm_base.specs.declared.events.Entry.{Entry};

    ghost entry: { Entry };
}

impl Noted for Brand {
    ghost use Rattle.tm_turn.specs.TurnSteps.{no_entry};

    ghost entry = { no_entry };
}

/// A `fetch_add` on `count`.
pub struct NoteEntry<E> {
    marker: PhantomData<E>,
}

impl<V, E: Noted> Play<Option<V>, LocalView> for NoteEntry<E> {
    ghost then = { λ _ m _ after. Notes E.entry m after };
}

/// A store of 0 to `holder`.
pub struct GiveTurn;

impl<V> Play<Option<V>, LocalView> for GiveTurn {
    ghost then = { λ _ m _ after. Gives m after };
}

/// A load of `holder` before a split.
pub struct LookBefore;

impl<V> Play<Option<V>, LocalView> for LookBefore {
    ghost then = { λ _ m _ after. Looks m after };
}

/// A load of `holder` after a join.
pub struct LearnAfter;

impl<V> Play<Option<V>, LocalView> for LearnAfter {
    ghost then = { λ _ m _ after. Learns m after };
}

/// The number that a `split` will give, for the proof alone. A call at `Brand` picks it.
pub trait Numbered {
    ghost use Rattle.std.specs.Prelude.{ℕ};

    ghost number: { ℕ };
}

impl Numbered for Brand {
    ghost number = { 0 };
}

/// A new pass is split from pass 0.
pub struct SplitPass<N> {
    marker: PhantomData<N>,
}

impl<N: Numbered> Split<LocalView> for SplitPass<N> {
    ghost left = { λ v. splitting v N.number };

    ghost right = { λ v. newcomer v.label N.number v.seen };
}

/// What a pass has seen is split off as a note.
pub struct SplitNote;

impl Split<LocalView> for SplitNote {
    ghost left = { λ v. v };

    ghost right = { λ v. note_of v };
}

/// A pass is joined to pass 0.
pub struct JoinPass;

impl Join<LocalView> for JoinPass {
    ghost both = { λ v w. absorbing v w };

    ghost spent = { spent };
}

/// A note is joined to a pass.
pub struct JoinNote;

impl Join<LocalView> for JoinNote {
    ghost both = { λ v w. meeting v w };

    ghost spent = { spent };
}
