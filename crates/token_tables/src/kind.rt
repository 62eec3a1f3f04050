//! The kinds of nodes.
ghost use Rattle.std.specs.Prelude.{◌≡◌};
ghost use Rattle.token_tables.specs.Kinds.{kind_numbered, is_begin, is_boundary};

/// What a node is. A table may have any number in this place; those that no kind has are `Other`.
#[derive(Clone, Copy, PartialEq, Eq, Debug)]
pub enum Kind {
    /// 0: marked at the start of a run.
    Start,
    /// 1: marked at the start of a run, completed at its date.
    TimedStart,
    /// 2: something that is done, and completed when it is confirmed.
    Task,
    /// 3: passes a mark on from one of its edges to one of its edges.
    Exclusive,
    /// 4: takes a mark from each edge into it and gives one to each edge out of it.
    Parallel,
    /// 5: waits for its date or for its length.
    Wait,
    /// 6: a time limit on a task, which stops the task.
    Stopping,
    /// 7: a time limit on a task, which leaves the task as it is.
    Side,
    /// 8: one thread of the procedure ends here.
    End,
    /// 9: the whole procedure ends here.
    Terminate,
    /// A number that no kind has.
    Other(u16),
}

impl From<u16> for Kind {
    ghost from_gives = { λ number kind. kind ≡ kind_numbered number };

    /// The kind of this number.
    fn from(number: u16) -> Kind {
        match number {
            0 => Kind::Start,
            1 => Kind::TimedStart,
            2 => Kind::Task,
            3 => Kind::Exclusive,
            4 => Kind::Parallel,
            5 => Kind::Wait,
            6 => Kind::Stopping,
            7 => Kind::Side,
            8 => Kind::End,
            9 => Kind::Terminate,
            _ => Kind::Other(number),
        }
    }
}

impl Kind {
    /// Whether nodes of this kind are marked at the start.
    pub fn is_begin(self) -> bool
        ensures { result ≡ is_begin self }
    {
        matches!(self, Kind::Start | Kind::TimedStart)
    }

    /// Whether nodes of this kind are time limits on a task.
    pub fn is_boundary(self) -> bool
        ensures { result ≡ is_boundary self }
    {
        matches!(self, Kind::Stopping | Kind::Side)
    }
}
