//! The modes of timers.
ghost use Rattle.std.specs.Prelude.{◌≡◌};
ghost use Rattle.token_tables.specs.Kinds.{mode_numbered};

/// By what a node is timed. A table may have any number in this place; those that no mode has are `Other`.
#[derive(Clone, Copy, PartialEq, Eq, Debug)]
pub enum Mode {
    /// 0: not at all.
    Untimed,
    /// 1: at a date, which is the amount.
    At,
    /// 2: after a length, which is the amount.
    After,
    /// A number that no mode has.
    Other(u16),
}

impl From<u16> for Mode {
    ghost from_gives = { λ number mode. mode ≡ mode_numbered number };

    /// The mode of this number.
    fn from(number: u16) -> Mode {
        match number {
            0 => Mode::Untimed,
            1 => Mode::At,
            2 => Mode::After,
            _ => Mode::Other(number),
        }
    }
}
