//! What can be wrong with a table.
ghost use Rattle.std.specs.Prelude.{Some};
ghost use Rattle.table.specs.Faults.{number_of, place_of, words_of};

use process::Numbered;
use std::error::Error;
use std::fmt;

/// The first fault that an examination finds.
#[derive(Clone, Copy, PartialEq, Eq, Debug)]
pub enum TableFault {
    /// There are no rows, more than 4,096 rows or more than 16,384 arcs.
    Size,
    /// The choice of this arc is above 4,095.
    Choice { arc: usize },
    /// One of the ends of this arc is no row.
    End { arc: usize },
}

impl Numbered for TableFault {
    ghost number_of = { number_of };

    ghost place_of = { place_of };

    /// 1, 2 or 4.
    fn number(&self) -> u16 {
        match self {
            TableFault::Size => 1,
            TableFault::Choice { .. } => 2,
            TableFault::End { .. } => 4,
        }
    }

    /// The index of the arc, 0 for the size.
    fn place(&self) -> usize {
        match self {
            TableFault::Size => 0,
            TableFault::Choice { arc } | TableFault::End { arc } => *arc,
        }
    }
}

impl fmt::Display for TableFault {
    ghost output = { λ f. Some (words_of f) };

    fn fmt<W: fmt::Write>(&self, f: &mut fmt::Formatter<W>) -> fmt::Result {
        match self {
            TableFault::Size => write!(f, "a table has 1 to 4096 rows and at most 16384 arcs"),
            TableFault::Choice { arc } => write!(f, "the choice of arc {arc} is above 4095"),
            TableFault::End { arc } => write!(
                f,
                "arc {arc} leads from or to a row that the table does not have"
            ),
        }
    }
}

impl Error for TableFault {}
