//! Why a call on a process or a run is refused.
ghost use Rattle.process.specs.Refusals.{number_of, place_of};

use crate::numbered::Numbered;

/// The operator's refusals.
#[derive(Clone, Copy, PartialEq, Eq, Debug)]
pub enum Refusal {
    /// The row or the buffer has not the width of the process. What takes only a buffer asks this by itself: it is one `if`.
    WrongLength,
    /// The process has no choice of this number.
    NoSuchChoice,
    /// The choice is not allowed at this row.
    NotAllowed,
}

impl Numbered for Refusal {
    ghost number_of = { number_of };

    ghost place_of = { place_of };

    /// 20, 21 or 22.
    fn number(&self) -> u16 {
        match self {
            Refusal::WrongLength => 20,
            Refusal::NoSuchChoice => 21,
            Refusal::NotAllowed => 22,
        }
    }

    /// These refusals have no place.
    fn place(&self) -> usize {
        match self {
            Refusal::WrongLength | Refusal::NoSuchChoice | Refusal::NotAllowed => 0,
        }
    }
}
