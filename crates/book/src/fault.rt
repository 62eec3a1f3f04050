//! What is wrong with a listing.
ghost use Rattle.std.specs.Prelude.{Some};
ghost use Rattle.book.specs.Faults.{number_of, place_of, words_of};

use process::Numbered;
use std::error::Error;
use std::fmt;

/// The one fault of a listing, whatever is wrong of the three: they share the number and the place.
#[derive(Clone, Copy, PartialEq, Eq, Debug)]
pub enum ListingFault {
    /// The width is not 1 to 512, the last row is only a part, or there are more than 65,535 rows.
    Shape,
}

impl Numbered for ListingFault {
    ghost number_of = { number_of };

    ghost place_of = { place_of };

    /// 11.
    fn number(&self) -> u16 {
        match self {
            ListingFault::Shape => 11,
        }
    }

    /// The whole listing, told as 0.
    fn place(&self) -> usize {
        match self {
            ListingFault::Shape => 0,
        }
    }
}

impl fmt::Display for ListingFault {
    ghost output = { λ f. Some (words_of f) };

    fn fmt<W: fmt::Write>(&self, f: &mut fmt::Formatter<W>) -> fmt::Result {
        f.write_str(match self {
            ListingFault::Shape => {
                "a listing has 1 to 512 cells a row, whole rows, and at most 65535 of them"
            }
        })
    }
}

impl Error for ListingFault {}
