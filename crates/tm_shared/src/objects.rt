ghost use Rattle.std.specs.Prelude.{◌≡◌, [], false, IfOk};
ghost use Rattle.tm_book.specs.Books.{label_of};
ghost use Rattle.tm_turn.specs.Passes.{IsPassOf};

use std::alloc::Global;
use std::marker::Model;
use tm_base::{Kind, Machine, NoMemory, Sequence};
use tm_book::Book;
use tm_turn::Turn;

/// What one thread has seen of a shared object's history.
pub type Pass = tm_turn::Pass<Book>;

/// A list of passes.
pub type Passes = Sequence<Pass>;

/// An object that threads share: the turn of its book. Each thread has a pass of its own. Contracts see which
/// object it is, and its label, which stay for good.
#[derive(Drop)]
pub struct Shared {
    pub(crate) turn: Turn<Book>,
    object: u32,
    kind: Kind,
}

impl Model for Shared {
    ghost use Rattle.std.specs.Prelude.{◌≡◌};
    ghost use Rattle.tm_turn.specs.Passes.{TurnView};

    ghost Value = { TurnView };

    ghost view = { λ s. s.turn };

    ghost invariant = { λ s. (s.turn.label.object ≡ s.object) × (s.turn.label.kind ≡ s.kind) };
}

impl Shared {
    /// The shared object of a book without events, and pass 0, which has seen nothing. Running out of memory
    /// refuses it, and drops the book.
    pub fn make(alloc: Global, book: Book) -> Result<(Shared, Pass), NoMemory>
        requires { book.entries ≡ [] }
        ensures label { IfOk result (λ made. made.0.label ≡ label_of book) }
        ensures of { IfOk result (λ made. IsPassOf made.0 made.1) }
        ensures number { IfOk result (λ made. made.1.number ≡ 0) }
        ensures seen { IfOk result (λ made. made.1.seen ≡ []) }
        ensures given { IfOk result (λ made. made.1.given ≡ []) }
        ensures absorbed { IfOk result (λ made. made.1.absorbed ≡ []) }
        ensures idle { IfOk result (λ made. made.1.holds ≡ false) }
    {
        let object = book.object();
        let kind = book.machine().kind();
        let (turn, pass) = Turn::make(alloc, book)?;
        Ok((Shared { turn, object, kind }, pass))
    }

    /// The object's number.
    pub fn object(&self) -> u32
        ensures { result ≡ self.now.label.object }
    {
        self.object
    }

    /// The object's kind.
    pub fn kind(&self) -> Kind
        ensures { result ≡ self.now.label.kind }
    {
        self.kind
    }
}
