//! Lines of a script, and what they ask for.
use run::Call;
use std::alloc::{AllocError, Global};
use std::fmt;
use table::Arc;
use token::Act;
use token_tables::{Edge, Kind, Mode, Node};

/// What a line asks for. What is done is chosen by a `match`: there are just these commands, each with what it needs.
#[derive(Drop)]
pub(crate) enum Command<'a> {
    /// The line is blank or a comment.
    Nothing,
    /// A new table begins.
    Table,
    /// The table gets a row.
    Row {
        safe: bool,
        name: Option<&'a str>,
    },
    /// A choice gets a name.
    Choice {
        choice: usize,
        name: Option<&'a str>,
    },
    /// The table gets an arc.
    Arc(Arc),
    /// A new drawing begins.
    Drawing,
    /// The drawing gets a node.
    Node {
        node: Node,
        name: Option<&'a str>,
    },
    /// The drawing gets an edge.
    Edge(Edge),
    /// A new book begins.
    Book {
        width: usize,
    },
    /// The book gets these cells.
    Cells(Vec<u16>),
    /// Whether the table is good.
    ExamineTable,
    /// Whether the drawing is good.
    ExamineDrawing,
    /// Whether the listing is good.
    ExamineBook,
    /// The row of this number is to be copied out of the book.
    Copy {
        index: usize,
        length: Option<usize>,
    },
    /// Whether the book holds this row.
    Holds(Vec<u16>),
    Inspect,
    Open,
    /// A call on the open run, or in a rehearsal, with a buffer of this length, or of the width where none is given.
    Make {
        call: Call,
        length: Option<usize>,
    },
    /// A press by what is done in a drawing.
    PressAct {
        act: Act,
        length: Option<usize>,
    },
    Close,
    /// The calls that follow are a rehearsal.
    Rehearse,
    /// The rehearsal is to be held.
    End,
}

/// Why a line is not understood.
#[derive(Drop)]
pub(crate) enum Misread<'a> {
    NoSuchCommand { word: &'a str },
    Missing { what: &'static str },
    NotANumber { word: &'a str, most: usize },
    NeitherSafeNorUnsafe { word: &'a str },
    TooMuch { rest: &'a str },
    OutOfMemory(AllocError),
}

impl From<AllocError> for Misread<'_> {
    fn from(error: AllocError) -> Self {
        Misread::OutOfMemory(error)
    }
}

impl fmt::Display for Misread<'_> {
    fn fmt<W: fmt::Write>(&self, f: &mut fmt::Formatter<W>) -> fmt::Result {
        match self {
            Misread::NoSuchCommand { word } => write!(
                f,
                "there is no command '{word}'; see docs/console.md"
            ),
            Misread::Missing { what } => write!(f, "{what} is missing at the end of the line"),
            Misread::NotANumber { word, most } => write!(
                f,
                "'{word}' is no number from 0 to {most}"
            ),
            Misread::NeitherSafeNorUnsafe { word } => write!(
                f,
                "a row is safe or unsafe, and not '{word}'"
            ),
            Misread::TooMuch { rest } => write!(f, "'{rest}' is too much on this line"),
            Misread::OutOfMemory(error) => write!(f, "{error}"),
        }
    }
}

type Reading<'a, T> = Result<T, Misread<'a>>;

fn cell(word: &str) -> Reading<'_, u16> {
    word.parse::<u16>()
        .map_err(|_| Misread::NotANumber { word, most: 65535 })
}

/// What is left to read of a line.
#[derive(Clone, Copy)]
struct Words<'a> {
    left: &'a str,
}

impl<'a> Words<'a> {
    fn of(line: &'a str) -> Words<'a> {
        Words { left: line.trim() }
    }

    // All that is left, if anything is.
    fn rest(self) -> Option<&'a str> {
        Some(self.left).filter(|rest| !rest.is_empty())
    }

    fn next_word(&mut self) -> Option<&'a str> {
        let rest = self.rest()?;
        let (word, left) = rest.split_once(' ').unwrap_or((rest, ""));
        self.left = left.trim();
        Some(word)
    }

    fn word(&mut self, what: &'static str) -> Reading<'a, &'a str> {
        self.next_word().ok_or(Misread::Missing { what })
    }

    // A number of at most so much.
    fn number(&mut self, most: usize, what: &'static str) -> Reading<'a, usize> {
        let word = self.word(what)?;
        let number = word.parse::<usize>().ok().filter(|n| *n <= most);
        number.ok_or(Misread::NotANumber { word, most })
    }

    fn cell(&mut self, what: &'static str) -> Reading<'a, u16> {
        cell(self.word(what)?)
    }

    // The cells that are left.
    fn cells(self, heap: Global) -> Reading<'a, Vec<u16>> {
        self.left.split_whitespace().map(cell).try_collect(heap)
    }

    // The number of a node or an edge.
    fn place(&mut self) -> Reading<'a, usize> {
        self.number(usize::MAX, "the number of the node or the edge")
    }

    fn end(self) -> Reading<'a, ()> {
        match self.rest() {
            Some(rest) => Err(Misread::TooMuch { rest }),
            None => Ok(()),
        }
    }

    // The command, if nothing is left.
    fn alone(self, command: Command<'a>) -> Reading<'a, Command<'a>> {
        self.end()?;
        Ok(command)
    }

    // What is left of a call: nothing, or `with` and the buffer's length.
    fn length(mut self) -> Reading<'a, Option<usize>> {
        let Some(rest) = self.rest() else {
            return Ok(None);
        };
        if self.next_word() != Some("with") {
            return Err(Misread::TooMuch { rest });
        }
        let length = self.number(65535, "the buffer's length")?;
        self.end()?;
        Ok(Some(length))
    }
}

fn row(mut words: Words<'_>) -> Reading<'_, Command<'_>> {
    let safe = match words.word("safe or unsafe")? {
        "safe" => true,
        "unsafe" => false,
        word => return Err(Misread::NeitherSafeNorUnsafe { word }),
    };
    Ok(Command::Row {
        safe,
        name: words.rest(),
    })
}

fn choice(mut words: Words<'_>) -> Reading<'_, Command<'_>> {
    Ok(Command::Choice {
        choice: words.number(4095, "the choice")?,
        name: words.rest(),
    })
}

fn arc(mut words: Words<'_>) -> Reading<'_, Command<'_>> {
    let arc = Arc {
        from: words.cell("the row from which the arc leads")?,
        choice: words.cell("the arc's choice")?,
        to: words.cell("the row to which the arc leads")?,
    };
    words.alone(Command::Arc(arc))
}

fn node(mut words: Words<'_>) -> Reading<'_, Command<'_>> {
    let node = Node {
        kind: Kind::from(words.cell("the node's kind")?),
        host: words.cell("the node's host")?,
        mode: Mode::from(words.cell("the node's mode")?),
        amount: words.cell("the node's amount")?,
    };
    Ok(Command::Node {
        node,
        name: words.rest(),
    })
}

fn edge(mut words: Words<'_>) -> Reading<'_, Command<'_>> {
    let edge = Edge {
        source: words.cell("the node from which the edge leads")?,
        target: words.cell("the node to which the edge leads")?,
    };
    words.alone(Command::Edge(edge))
}

fn book(mut words: Words<'_>) -> Reading<'_, Command<'_>> {
    let width = words.number(usize::MAX, "the width")?;
    words.alone(Command::Book { width })
}

fn examine(words: Words<'_>) -> Reading<'_, Command<'_>> {
    match words.left {
        "table" => Ok(Command::ExamineTable),
        "nodes" => Ok(Command::ExamineDrawing),
        "book" => Ok(Command::ExamineBook),
        "" => Err(Misread::Missing {
            what: "table, nodes or book",
        }),
        rest => Err(Misread::TooMuch { rest }),
    }
}

fn copy(mut words: Words<'_>) -> Reading<'_, Command<'_>> {
    Ok(Command::Copy {
        index: words.number(usize::MAX, "the row's number")?,
        length: words.length()?,
    })
}

fn make<'a>(call: Call, words: Words<'a>) -> Reading<'a, Command<'a>> {
    Ok(Command::Make {
        call,
        length: words.length()?,
    })
}

fn press_choice(mut words: Words<'_>) -> Reading<'_, Command<'_>> {
    let choice = words.number(usize::MAX, "the choice")?;
    make(Call::Press { choice }, words)
}

// A press by a word for what is done, or by the number of a choice.
fn press(words: Words<'_>) -> Reading<'_, Command<'_>> {
    let mut after = words;
    let act = match after.next_word() {
        Some("pass") => Act::Pass,
        Some("complete") => Act::Complete {
            node: after.place()?,
        },
        Some("enter") => Act::Enter {
            edge: after.place()?,
        },
        Some("choose") => Act::Choose {
            edge: after.place()?,
        },
        _ => return press_choice(words),
    };
    Ok(Command::PressAct {
        act,
        length: after.length()?,
    })
}

/// What a line asks for.
pub(crate) fn read(heap: Global, line: &str) -> Reading<'_, Command<'_>> {
    let mut words = Words::of(line);
    let Some(word) = words.next_word() else {
        return Ok(Command::Nothing);
    };
    if word.starts_with('#') {
        return Ok(Command::Nothing);
    }
    match word {
        "table" => words.alone(Command::Table),
        "row" => row(words),
        "choice" => choice(words),
        "arc" => arc(words),
        "drawing" => words.alone(Command::Drawing),
        "node" => node(words),
        "edge" => edge(words),
        "book" => book(words),
        "cells" => Ok(Command::Cells(words.cells(heap)?)),
        "examine" => examine(words),
        "copy" => copy(words),
        "holds" => Ok(Command::Holds(words.cells(heap)?)),
        "inspect" => words.alone(Command::Inspect),
        "open" => words.alone(Command::Open),
        "press" => press(words),
        "look" => make(Call::Look, words),
        "openings" => make(Call::Openings, words),
        "close" => words.alone(Command::Close),
        "rehearse" => words.alone(Command::Rehearse),
        "end" => words.alone(Command::End),
        _ => Err(Misread::NoSuchCommand { word }),
    }
}
