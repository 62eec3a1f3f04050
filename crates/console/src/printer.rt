//! Prints the answers to the lines of a script.
use crate::say::{Cells, OpenWords, Why};
use crate::telling::{Facts, Telling};
use inspect::Fault;
use process::{Numbered, Process};
use run::{Call, ClosedRun, Exchange, Reply};
use std::alloc::{AllocError, Global};
use std::{fmt, io};

/// Prints the answers to one line of a script.
#[derive(Clone, Copy)]
pub(crate) struct Printer<'a> {
    pub rt: &'a HostRuntime,
    pub line: usize,
}

impl<'a> Printer<'a> {
    pub(crate) fn heap(self) -> Global {
        self.rt.alloc()
    }

    /// For the answers to another line.
    pub(crate) fn at(self, line: usize) -> Printer<'a> {
        Printer { rt: self.rt, line }
    }

    pub(crate) fn say(self, answer: impl fmt::Display + Drop) -> io::Result<()> {
        println!(self.rt; "{}: {answer}", self.line)
    }

    pub(crate) fn bad(self, why: impl fmt::Display + Drop) -> io::Result<()> {
        self.say(format_args!("bad; {why}"))
    }

    pub(crate) fn refused(
        self,
        refusal: &impl Numbered,
        why: impl fmt::Display + Drop,
    ) -> io::Result<()> {
        let number = refusal.number();
        let place = refusal.place();
        self.say(format_args!("refused {number} place {place}; {why}"))
    }

    /// That a table or a drawing is good.
    pub(crate) fn good(
        self,
        process: &impl Process,
        what: impl fmt::Display + Drop,
    ) -> io::Result<()> {
        let width = process.width();
        let choices = process.choices();
        self.say(format_args!("good width {width} choices {choices}; {what}"))
    }

    pub(crate) fn verdict(self, verdict: Result<usize, Fault>) -> io::Result<()> {
        match verdict {
            Ok(moves) => self.say(format_args!(
                "accepted moves {moves}; the book holds every row that a run can come to, and each is safe"
            )),
            Err(fault) => self.say(format_args!(
                "faulty {} row {} choice {}; {fault}",
                fault.number(),
                fault.place(),
                fault.choice()
            )),
        }
    }

    /// The reply to a call that was made.
    pub(crate) fn exchange(self, exchange: &Exchange, facts: &Facts) -> io::Result<()> {
        let cells: &[u16] = &exchange.buffer;
        let length = cells.len();
        match exchange.reply {
            Some(Ok(reply)) => self.reply(exchange.call, reply, cells, &facts.telling),
            Some(Err(refusal)) => self.refusal(
                exchange.call,
                Why {
                    refusal,
                    length,
                    facts,
                },
            ),
            None => Ok(()),
        }
    }

    fn reply(self, call: Call, reply: Reply, cells: &[u16], telling: &Telling) -> io::Result<()> {
        let row = telling.row(cells);
        let cells = Cells(cells);
        match (reply, call) {
            (Reply::Moved, Call::Press { choice }) => {
                let choice = telling.choice(choice);
                self.say(format_args!("moved {cells}; {choice}: {row}"))
            }
            (Reply::Moved, _) => Ok(()),
            (Reply::Shown, _) => {
                let open = OpenWords {
                    telling,
                    open: open_choices(self.heap(), telling, cells.0)?,
                };
                self.say(format_args!("shown {cells}; {row}{open}"))
            }
            (Reply::Counted { count }, _) => {
                self.say(format_args!("openings {count} {cells}; {row}"))
            }
        }
    }

    fn refusal(self, call: Call, why: Why<'_>) -> io::Result<()> {
        match call {
            Call::Press { choice } => {
                let choice = why.facts.telling.choice(choice);
                self.refused(&why.refusal, format_args!("{choice}: {why}"))
            }
            Call::Look => self.refused(&why.refusal, format_args!("looking: {why}")),
            Call::Openings => {
                self.refused(&why.refusal, format_args!("asking for openings: {why}"))
            }
        }
    }

    pub(crate) fn closed<P: Process>(
        self,
        run: &ClosedRun<P>,
        telling: &Telling,
    ) -> io::Result<()> {
        let row = telling.row(run.row());
        let cells = Cells(run.row());
        let moved = run.moved();
        let refused = run.refused();
        self.say(format_args!("closed {cells} moved {moved} refused {refused}; {row}"))
    }
}

// The choices of a drawing that are allowed at this row; none for a table.
fn open_choices(
    heap: Global,
    telling: &Telling,
    cells: &[u16],
) -> Result<Option<Vec<usize>>, AllocError> {
    let Some(drawing) = telling.drawing() else {
        return Ok(None);
    };
    let mut next = vec![in heap; 0u16; cells.len()]?;
    let open = (0..drawing.choices())
        .filter(|&choice| drawing.next(cells, choice, &mut next).is_ok())
        .collect(heap)?;
    Ok(Some(open))
}
