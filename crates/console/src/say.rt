//! Answers in words.
use crate::telling::{Facts, Sheet, Telling};
use process::Refusal;
use std::fmt;
use token::{Act, Place};

/// A row, by its cells.
#[derive(Clone, Copy)]
pub(crate) struct Cells<'a>(pub &'a [u16]);

impl fmt::Display for Cells<'_> {
    fn fmt<W: fmt::Write>(&self, f: &mut fmt::Formatter<W>) -> fmt::Result {
        write!(f, "row")?;
        for cell in self.0 {
            write!(f, " {cell}")?;
        }
        Ok(())
    }
}

/// A node, by its number and its name, if it has one.
#[derive(Clone, Copy)]
pub(crate) struct NodeName<'a> {
    pub node: usize,
    pub name: Option<&'a str>,
}

impl fmt::Display for NodeName<'_> {
    fn fmt<W: fmt::Write>(&self, f: &mut fmt::Formatter<W>) -> fmt::Result {
        let node = self.node;
        match self.name {
            Some(name) => write!(f, "{node} {name}"),
            None => write!(f, "node {node}"),
        }
    }
}

/// The node to which an edge leads, if the drawing has the edge.
#[derive(Clone, Copy)]
pub(crate) struct Target<'a>(pub Option<NodeName<'a>>);

impl fmt::Display for Target<'_> {
    fn fmt<W: fmt::Write>(&self, f: &mut fmt::Formatter<W>) -> fmt::Result {
        match self.0 {
            Some(name) => write!(f, "{name}"),
            None => write!(f, "no node"),
        }
    }
}

/// Until when a node waits, or how long.
#[derive(Clone, Copy)]
pub(crate) enum Timer {
    Until { day: u16 },
    Units { clock: u16, length: u16 },
}

/// How long a marked node is yet to wait.
#[derive(Clone, Copy)]
pub(crate) struct Waiting {
    pub timer: Timer,
    pub due: bool,
}

impl fmt::Display for Waiting {
    fn fmt<W: fmt::Write>(&self, f: &mut fmt::Formatter<W>) -> fmt::Result {
        let due = if self.due { ", due" } else { "" };
        match self.timer {
            Timer::Until { day } => write!(f, "until day {day}{due}"),
            Timer::Units { clock, length } => write!(f, "{clock} of {length} units{due}"),
        }
    }
}

/// What a cell of a row of a drawing says.
#[derive(Clone, Copy)]
enum Part<'a> {
    Mark {
        name: NodeName<'a>,
        twice: bool,
        waiting: Option<Waiting>,
    },
    Flow {
        edge: usize,
        target: Target<'a>,
    },
    Day(u16),
}

impl<'a> Part<'a> {
    // What is told of a cell, if anything is.
    fn of(sheet: &'a Sheet, cells: &[u16], cell: usize, value: u16) -> Option<Part<'a>> {
        if value == 0 {
            return None;
        }
        match sheet.drawing.place(cell)? {
            Place::Mark { node } => Some(Part::Mark {
                name: sheet.node(node),
                twice: value > 1,
                waiting: sheet.waiting(node, cells),
            }),
            // A clock is told with its node.
            Place::Clock { .. } => None,
            Place::Flow { edge } => Some(Part::Flow {
                edge,
                target: sheet.target(edge),
            }),
            Place::Day => Some(Part::Day(value)),
        }
    }
}

impl fmt::Display for Part<'_> {
    fn fmt<W: fmt::Write>(&self, f: &mut fmt::Formatter<W>) -> fmt::Result {
        match self {
            Part::Mark {
                name,
                twice,
                waiting,
            } => {
                let marks = if *twice { "twice at" } else { "at" };
                write!(f, "{marks} {name}")?;
                match waiting {
                    Some(waiting) => write!(f, " ({waiting})"),
                    None => Ok(()),
                }
            }
            Part::Flow { edge, target } => write!(f, "on edge {edge} to {target}"),
            Part::Day(day) => write!(f, "day {day}"),
        }
    }
}

// What stands at the row of a drawing.
fn write_parts<W: fmt::Write>(
    f: &mut fmt::Formatter<W>,
    sheet: &Sheet,
    cells: &[u16],
) -> fmt::Result {
    let mut parts = cells
        .iter()
        .enumerate()
        .filter_map(|(cell, &value)| Part::of(sheet, cells, cell, value));
    let Some(first) = parts.next() else {
        return write!(f, "nothing is marked");
    };
    write!(f, "{first}")?;
    for part in parts {
        write!(f, ", {part}")?;
    }
    Ok(())
}

/// Where a procedure stands.
#[derive(Clone, Copy)]
pub(crate) struct RowWords<'a> {
    pub telling: &'a Telling,
    pub cells: &'a [u16],
}

impl fmt::Display for RowWords<'_> {
    fn fmt<W: fmt::Write>(&self, f: &mut fmt::Formatter<W>) -> fmt::Result {
        match self.telling {
            Telling::Written(names) => {
                f.write_str(names.row(self.cells).unwrap_or("a row without a name"))
            }
            Telling::Drawn(sheet) => write_parts(f, sheet, self.cells),
        }
    }
}

/// An act in a drawing.
#[derive(Clone, Copy)]
struct ActWords<'a> {
    sheet: &'a Sheet,
    act: Act,
}

impl fmt::Display for ActWords<'_> {
    fn fmt<W: fmt::Write>(&self, f: &mut fmt::Formatter<W>) -> fmt::Result {
        let sheet = self.sheet;
        match self.act {
            Act::Pass => write!(f, "a unit passes"),
            Act::Complete { node } => write!(f, "complete {}", sheet.node(node)),
            Act::Enter { edge } => write!(f, "over edge {edge} into {}", sheet.target(edge)),
            Act::Choose { edge } => write!(f, "choose edge {edge} to {}", sheet.target(edge)),
        }
    }
}

/// A choice, in words if there are any.
#[derive(Clone, Copy)]
pub(crate) struct ChoiceWords<'a> {
    pub telling: &'a Telling,
    pub choice: usize,
}

impl fmt::Display for ChoiceWords<'_> {
    fn fmt<W: fmt::Write>(&self, f: &mut fmt::Formatter<W>) -> fmt::Result {
        let choice = self.choice;
        match self.telling {
            Telling::Written(names) => match names.choice(choice) {
                Some(name) => write!(f, "{name}"),
                None => write!(f, "choice {choice}"),
            },
            Telling::Drawn(sheet) => match sheet.drawing.act(choice) {
                Some(act) => write!(f, "{}", ActWords { sheet, act }),
                None => write!(f, "choice {choice}"),
            },
        }
    }
}

/// The choices that are open, each with its words; nothing for a table.
#[derive(Drop)]
pub(crate) struct OpenWords<'a> {
    pub telling: &'a Telling,
    pub open: Option<Vec<usize>>,
}

impl fmt::Display for OpenWords<'_> {
    fn fmt<W: fmt::Write>(&self, f: &mut fmt::Formatter<W>) -> fmt::Result {
        let Some(open) = &self.open else {
            return Ok(());
        };
        write!(f, "; open:")?;
        for &choice in open.iter() {
            write!(f, " [{choice}] {}", self.telling.choice(choice))?;
        }
        if open.is_empty() {
            write!(f, " nothing")?;
        }
        Ok(())
    }
}

/// Why a call is refused.
#[derive(Clone, Copy)]
pub(crate) struct Why<'a> {
    pub refusal: Refusal,
    pub length: usize,
    pub facts: &'a Facts,
}

impl fmt::Display for Why<'_> {
    fn fmt<W: fmt::Write>(&self, f: &mut fmt::Formatter<W>) -> fmt::Result {
        let length = self.length;
        let width = self.facts.width;
        let last = self.facts.choices.saturating_sub(1);
        match self.refusal {
            Refusal::WrongLength => write!(
                f,
                "the buffer has {length} cells, and a row has {width}"
            ),
            Refusal::NoSuchChoice => write!(f, "there is no such choice; the last one is {last}"),
            Refusal::NotAllowed => write!(f, "not allowed at this row"),
        }
    }
}
