//! The widest row and the most choices of a kind of process.

/// What callers size their buffers by, before they have a process of the kind.
#[derive(Clone, Copy, PartialEq, Eq, Debug)]
pub struct Limits {
    pub widest: usize,
    pub most_choices: usize,
}
