ghost use Rattle.tm_book.specs.Books.{label_of};

use crate::books::Book;
use tm_base::Kept;

impl Kept for Book {
    ghost entries = { λ book. book.entries };

    ghost label = { label_of };

    fn length(&self) -> u64 {
        self.entries().len() as u64
    }
}
