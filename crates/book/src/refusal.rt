//! Why a row is not copied out of a book.
ghost use Rattle.book.specs.Refusals.{number_of, place_of};

use process::Numbered;

/// The refusals of a book.
#[derive(Clone, Copy, PartialEq, Eq, Debug)]
pub enum RowRefusal {
    /// The buffer has not the width of the book.
    WrongLength,
    /// The book has no row of this number.
    NoSuchRow,
}

impl Numbered for RowRefusal {
    ghost number_of = { number_of };

    ghost place_of = { place_of };

    /// 20 or 23.
    fn number(&self) -> u16 {
        match self {
            RowRefusal::WrongLength => 20,
            RowRefusal::NoSuchRow => 23,
        }
    }

    /// These refusals have no place.
    fn place(&self) -> usize {
        match self {
            RowRefusal::WrongLength | RowRefusal::NoSuchRow => 0,
        }
    }
}
