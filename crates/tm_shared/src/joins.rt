ghost use Rattle.std.specs.Prelude.{◌≡◌, ℕ, ◌<◌, ◌∷◌, [], false, true};
ghost use Rattle.tm_base.specs.Orders.{of_thread};
ghost use Rattle.tm_book.specs.Books.{label_of};
ghost use Rattle.tm_turn.specs.Prefixes.{AreOf, StartsWith, has, longer};
ghost use Rattle.tm_turn.specs.Passes.{IsPassOf, mine};

use crate::objects::{Pass, Shared};
use tm_book::Book;

impl Shared {
    /// Pass 0 gives the number to a new pass, which has seen what pass 0 has. None of it is its own.
    pub fn split(&self, pass: &mut Pass, number: u32) -> Pass
        requires of { IsPassOf self.now pass.old }
        requires idle { pass.old.holds ≡ false }
        requires root { pass.old.number ≡ 0 }
        requires number { 0 < number }
        requires unused { has number pass.old.given ≡ false }
        ensures given { pass.new ≡ record pass.old { given = number ∷ pass.old.given } }
        ensures new { result ≡ record pass.old { seat = result.seat; number = number; given = []; absorbed = []; turns = 0; misses = 0; missed = 0 } }
        ensures mine { mine result ≡ [] }
    {
        self.turn.split(pass, number)
    }

    /// Pass 0 takes in what another pass has seen, and absorbs its number. It has then seen the longer of
    /// both histories, which begins with both, with all events of that pass.
    pub fn absorb(&self, pass: &mut Pass, other: Pass)
        requires of { IsPassOf self.now pass.old }
        requires of_other { IsPassOf self.now other }
        requires idle { pass.old.holds ≡ false }
        requires idle_other { other.holds ≡ false }
        requires root { pass.old.number ≡ 0 }
        ensures seen { pass.new ≡ record pass.old { seen = longer pass.old.seen other.seen; absorbed = other.number ∷ pass.old.absorbed } }
        ensures begins { StartsWith pass.new.seen pass.old.seen }
        ensures begins_other { StartsWith pass.new.seen other.seen }
        ensures mine { mine pass.new ≡ mine pass.old }
        ensures theirs { of_thread pass.new.seen other.number ≡ mine other }
        ensures before { (n : ℕ) → has n pass.old.absorbed ≡ true → of_thread pass.new.seen n ≡ of_thread pass.old.seen n }
        ensures once { has other.number pass.old.absorbed ≡ false }
    {
        self.turn.absorb(pass, other);
    }

    /// A pass takes in what another has seen, which stays as it is. It has then seen the longer of both
    /// histories, which begins with both: the calls of both stand in one history.
    pub fn meet(&self, pass: &mut Pass, other: &mut Pass)
        requires of { IsPassOf self.now pass.old }
        requires of_other { IsPassOf self.now other.old }
        requires idle { pass.old.holds ≡ false }
        requires idle_other { other.old.holds ≡ false }
        ensures seen { pass.new ≡ record pass.old { seen = longer pass.old.seen other.old.seen } }
        ensures begins { StartsWith pass.new.seen pass.old.seen }
        ensures begins_other { StartsWith pass.new.seen other.old.seen }
        ensures mine { mine pass.new ≡ mine pass.old }
        ensures other { other.new ≡ other.old }
    {
        self.turn.meet(pass, other);
    }

    /// Ends the sharing once pass 0 has absorbed every number that it gave, and hands the book back. Its
    /// events are what pass 0 has seen, and each is pass 0's own or of a number that was absorbed.
    pub fn close(self, pass: Pass) -> Book
        requires of { IsPassOf self pass }
        requires idle { pass.holds ≡ false }
        requires root { pass.number ≡ 0 }
        requires back { (n : ℕ) → has n pass.given ≡ true → has n pass.absorbed ≡ true }
        ensures list { result.entries ≡ pass.seen }
        ensures label { label_of result ≡ self.label }
        ensures numbers { AreOf pass.absorbed result.entries }
    {
        let Shared { turn, .. } = self;
        turn.close(pass)
    }
}
