ghost use Rattle.std.specs.Prelude.{◌≡◌, ◌≢◌, ℕ, ◌<◌, ◌∷◌, [], false, true};
ghost use Rattle.tm_base.specs.Orders.{of_thread};
ghost use Rattle.tm_turn.specs.Prefixes.{AreOf, StartsWith, has, longer};
ghost use Rattle.tm_turn.specs.Passes.{IsPassOf, mine};

use crate::passes::Pass;
use crate::rules::{JoinNote, JoinPass, LearnAfter, LookBefore, Numbered, SplitNote, SplitPass};
use crate::turns::{HOLDER, Turn, VALUE};
use std::marker::Brand;
use tm_base::Kept;

impl<V: Kept> Turn<V> {
    /// Pass 0 gives the number to a new pass, which has seen what pass 0 has. None of it is its own.
    pub fn split(&self, pass: &mut Pass<V>, number: u32) -> Pass<V>
        requires of { IsPassOf self.now pass.old }
        requires idle { pass.old.holds ≡ false }
        requires root { pass.old.number ≡ 0 }
        requires number { 0 < number }
        requires unused { has number pass.old.given ≡ false }
        ensures given { pass.new ≡ record pass.old { given = number ∷ pass.old.given } }
        ensures new { result ≡ record pass.old { seat = result.seat; number = number; given = []; absorbed = []; turns = 0; misses = 0; missed = 0 } }
        ensures mine { mine result ≡ [] }
    {
        self.split_off::<Brand>(pass, number)
    }

    /// Splits a pass off, with the number that the caller picks for the proof.
    fn split_off<N: Numbered>(&self, pass: &mut Pass<V>, number: u32) -> Pass<V>
        requires of { IsPassOf self.now pass.old }
        requires idle { pass.old.holds ≡ false }
        requires root { pass.old.number ≡ 0 }
        requires number { 0 < number }
        requires same { N.number ≡ number }
        requires unused { has N.number pass.old.given ≡ false }
        ensures given { pass.new ≡ record pass.old { given = N.number ∷ pass.old.given } }
        ensures new { result ≡ record pass.old { seat = result.seat; number = N.number; given = []; absorbed = []; turns = 0; misses = 0; missed = 0 } }
        ensures mine { of_thread result.seen N.number ≡ [] }
    {
        let shared = &self.table.shared;
        shared.load::<LookBefore>(&mut pass.seat, HOLDER);
        let seat = shared.split_seat::<SplitPass<N>>(&mut pass.seat);
        Pass { number, seat }
    }

    /// Pass 0 takes in what another pass has seen, and absorbs its number. It has then seen the longer of
    /// both lists, which begins with both, with all events of that pass.
    pub fn absorb(&self, pass: &mut Pass<V>, other: Pass<V>)
        requires of { IsPassOf self.now pass.old }
        requires of_other { IsPassOf self.now other }
        requires idle { pass.old.holds ≡ false }
        requires idle_other { other.holds ≡ false }
        requires root { pass.old.number ≡ 0 }
        ensures seen { pass.new ≡ record pass.old { seen = longer pass.old.seen other.seen; absorbed = other.number ∷ pass.old.absorbed } }
        ensures begins { StartsWith pass.new.seen pass.old.seen }
        ensures begins_other { StartsWith pass.new.seen other.seen }
        ensures mine { mine pass.new ≡ mine pass.old }
        ensures theirs { of_thread pass.new.seen other.number ≡ mine other }
        ensures before { (n : ℕ) → has n pass.old.absorbed ≡ true → of_thread pass.new.seen n ≡ of_thread pass.old.seen n }
        ensures once { has other.number pass.old.absorbed ≡ false }
    {
        let shared = &self.table.shared;
        let Pass { number: _, seat } = other;
        shared.join_seat::<JoinPass>(&mut pass.seat, seat);
        shared.load::<LearnAfter>(&mut pass.seat, HOLDER);
    }

    /// A pass takes in what another has seen, which stays as it is. It has then seen the longer of both
    /// lists, which begins with both.
    pub fn meet(&self, pass: &mut Pass<V>, other: &mut Pass<V>)
        requires of { IsPassOf self.now pass.old }
        requires of_other { IsPassOf self.now other.old }
        requires idle { pass.old.holds ≡ false }
        requires idle_other { other.old.holds ≡ false }
        ensures seen { pass.new ≡ record pass.old { seen = longer pass.old.seen other.old.seen } }
        ensures begins { StartsWith pass.new.seen pass.old.seen }
        ensures begins_other { StartsWith pass.new.seen other.old.seen }
        ensures mine { mine pass.new ≡ mine pass.old }
        ensures other { other.new ≡ other.old }
    {
        let shared = &self.table.shared;
        let note = shared.split_seat::<SplitNote>(&mut other.seat);
        shared.join_seat::<JoinNote>(&mut pass.seat, note);
        shared.load::<LearnAfter>(&mut pass.seat, HOLDER);
    }

    /// Ends the turn once pass 0 has absorbed every number that it gave, and hands the value back. Its list
    /// is what pass 0 has seen, and each of its events is pass 0's own or of a number that was absorbed.
    pub fn close(self, pass: Pass<V>) -> V
        requires of { IsPassOf self pass }
        requires idle { pass.holds ≡ false }
        requires root { pass.number ≡ 0 }
        requires back { (n : ℕ) → has n pass.given ≡ true → has n pass.absorbed ≡ true }
        ensures list { V.entries result ≡ pass.seen }
        ensures label { V.label result ≡ self.label }
        ensures numbers { AreOf pass.absorbed (V.entries result) }
    {
        let Turn { table } = self;
        let Pass { number: _, seat } = pass;
        let mut closed = table.close_with(seat);
        let value = closed.take(VALUE);
        closed.free();
        value.unwrap()
    }
}
