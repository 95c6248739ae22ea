ghost use Rattle.std.specs.Prelude.{◌≡◌, false, true};
ghost use Rattle.tm_base.specs.Bodies.{IsAskedAmong, goes_on_after, is_over};

use crate::asks::Ask;
use crate::replies::Reply;

/// What a thread runs: a program that asks calls on numbered objects, each by the final reply to the one
/// before. What it asks depends on the replies alone.
pub trait Body {
    ghost use Rattle.std.specs.Prelude.{Bool, List};
    ghost use Rattle.tm_base.specs.declared.asks.Ask.{Ask as Asked};
    ghost use Rattle.tm_base.specs.declared.kinds.Kind.{Kind};
    ghost use Rattle.tm_base.specs.declared.replies.Reply.{Reply as Answer};

    /// What it asks after this reply.
    ghost asked: { Self → Answer → Asked };

    /// What is left of it after this reply.
    ghost rest: { Self → Answer → Self };

    /// Each call that it may ask is one of objects of these kinds.
    ghost is_for: { List Kind → Self → Type 0 };

    /// Whether it was asked anything yet.
    ghost begun: { Self → Bool };

    /// Whether it answered that it is over.
    ghost over: { Self → Bool };

    /// What the program asks after the reply to the call that it asked last; the first time after that of
    /// its thread's `Begin`. It takes no memory.
    fn next(&mut self, last: Reply) -> Ask
        requires reply { goes_on_after last ≡ true }
        requires asks { over self.old ≡ false }
        ensures asked { result ≡ asked self.old last }
        ensures rest { self.new ≡ rest self.old last }
        ensures begun { begun self.new ≡ true }
        ensures over { over self.new ≡ is_over result }
        ensures fits { (kinds : List Kind) → is_for kinds self.old → IsAskedAmong kinds result }
        ensures stays { (kinds : List Kind) → is_for kinds self.old → is_for kinds self.new };
}
