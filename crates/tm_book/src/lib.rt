//! Any of the objects of textbooks, and the books that keep their histories.
#![tactic(auto)]

mod any_machines;
mod books;
mod kept;

pub use any_machines::AnyMachine;
pub use books::Book;

#[cfg(test)]
mod tests {
    use super::*;
    use std::test::Fail;
    use tm_base::Kind;

    #[test]
    fn a_book_makes_room_for_a_call(rt: HostRuntime) -> Result<(), Fail> {
        let mut book = Book::make(rt.alloc(), 7, Kind::Mutex, 2)?;
        book.make_room()?;
        assert!(rt; book.spare() >= 2);
        assert_eq!(rt; book.object(), 7);
        Ok(())
    }
}
