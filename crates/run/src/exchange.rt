//! Calls on a run, as records.
use process::Refusal;

/// What can be asked of an open run. What is done is chosen by a `match`: there are just these calls.
#[derive(Clone, Copy, PartialEq, Eq, Debug)]
pub enum Call {
    Press { choice: usize },
    Look,
    Openings,
}

/// What a call that is not refused answers.
#[derive(Clone, Copy, PartialEq, Eq, Debug)]
pub enum Reply {
    /// The press moved the run.
    Moved,
    /// The row is in the buffer.
    Shown,
    /// So many choices are allowed at the row, which is in the buffer.
    Counted { count: usize },
}

/// A call with a buffer of its own, of any length, and the reply to it once the call was made.
#[derive(Drop)]
pub struct Exchange {
    pub call: Call,
    pub buffer: Vec<u16>,
    pub reply: Option<Result<Reply, Refusal>>,
}
