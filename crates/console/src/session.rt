//! Performs the commands of a script.
use crate::command::{Command, Misread, read};
use crate::draft::Draft;
use crate::printer::Printer;
use crate::procedure::Procedure;
use crate::say::Cells;
use crate::telling::Facts;
use book::Book;
use engine::rehearse;
use inspect::inspect;
use process::Process;
use run::{Call, Exchange, Run, make};
use std::alloc::{AllocError, Global};
use std::io;
use token::Act;

const NO_RUN: &str = "no run is open, so open one first";

/// A run, with what is known of its process.
#[derive(Drop)]
struct OpenRun {
    run: Run<Procedure>,
    facts: Facts,
}

/// A call that is noted for a rehearsal, with its line.
type Noted = (usize, Exchange);

// A buffer of this length, filled with the largest cell, which seldom stands in a row.
fn buffer(heap: Global, length: usize) -> Result<Vec<u16>, AllocError> {
    vec![in heap; u16::MAX; length]
}

fn exchange(heap: Global, call: Call, length: usize) -> Result<Exchange, AllocError> {
    Ok(Exchange {
        call,
        buffer: buffer(heap, length)?,
        reply: None,
    })
}

// Inspects the book, and plays the calls in a run that is opened for them.
fn hold(printer: Printer<'_>, draft: &Draft, calls: Vec<Noted>) -> io::Result<()> {
    let heap = printer.heap();
    // Two lists, since `rehearse` takes a slice of exchanges.
    let (lines, mut exchanges): (Vec<usize>, Vec<Exchange>) = calls.into_iter().unzip(heap)?;
    let process = draft.procedure(heap)?;
    let facts = draft.facts(heap, &process)?;
    let done = rehearse(process, &draft.listing.book(), &mut exchanges);
    printer.verdict(done.verdict)?;
    for (&line, exchange) in lines.iter().zip(&exchanges) {
        printer.at(line).exchange(exchange, &facts)?;
    }
    printer.closed(&done.run, &facts.telling)
}

/// What a script has stated and opened so far.
#[derive(Drop)]
pub(crate) struct Session {
    draft: Draft,
    run: Option<OpenRun>,
    rehearsal: Option<Vec<Noted>>,
}

impl Session {
    pub(crate) fn new(heap: Global) -> Result<Session, AllocError> {
        Ok(Session {
            draft: Draft::new(heap)?,
            run: None,
            rehearsal: None,
        })
    }

    fn open(&mut self, printer: Printer<'_>) -> io::Result<()> {
        if self.run.is_some() {
            return printer.bad("a run is open, so close it first");
        }
        let heap = printer.heap();
        let process = self.draft.procedure(heap)?;
        let facts = self.draft.facts(heap, &process)?;
        let run = Run::open(process);
        let mut row = buffer(heap, facts.width)?;
        let _ = run.look(&mut row);
        printer.say(format_args!("opened {}; {}", Cells(&row), facts.telling.row(&row)))?;
        self.run = Some(OpenRun { run, facts });
        Ok(())
    }

    // Makes the call on the open run, or notes it for the rehearsal.
    fn make(&mut self, printer: Printer<'_>, call: Call, length: Option<usize>) -> io::Result<()> {
        let heap = printer.heap();
        if let Some(calls) = &mut self.rehearsal {
            let length = match length {
                Some(length) => length,
                None => self.draft.procedure(heap)?.width(),
            };
            calls.push((printer.line, exchange(heap, call, length)?))?;
            return Ok(());
        }
        let Some(OpenRun { run, facts }) = &mut self.run else {
            return printer.bad(NO_RUN);
        };
        let mut exchange = exchange(heap, call, length.unwrap_or(facts.width))?;
        make(run, &mut exchange);
        printer.exchange(&exchange, facts)
    }

    fn close(&mut self, printer: Printer<'_>) -> io::Result<()> {
        match self.run.take() {
            Some(OpenRun { run, facts }) => printer.closed(&run.close(), &facts.telling),
            None => printer.bad(NO_RUN),
        }
    }

    // The choice that stands for the act, in the run that is pressed.
    fn choice_of(&self, act: Act) -> Option<usize> {
        match &self.run {
            Some(open) if self.rehearsal.is_none() => open.facts.telling.drawing()?.choice(act),
            _ => self.draft.choice(act),
        }
    }

    // A press by what is done.
    fn press_act(
        &mut self,
        printer: Printer<'_>,
        act: Act,
        length: Option<usize>,
    ) -> io::Result<()> {
        match self.choice_of(act) {
            Some(choice) => self.make(printer, Call::Press { choice }, length),
            None => printer.bad("there is no such node or edge in a drawing here"),
        }
    }

    fn inspect(&self, printer: Printer<'_>) -> io::Result<()> {
        let process = self.draft.procedure(printer.heap())?;
        printer.verdict(inspect(&process, &self.draft.listing.book()))
    }

    // Holds the rehearsal whose calls were noted.
    fn end(&mut self, printer: Printer<'_>) -> io::Result<()> {
        match self.rehearsal.take() {
            Some(calls) => hold(printer, &self.draft, calls),
            None => printer.bad("no rehearsal has begun"),
        }
    }

    // Not one with `examine_drawing`: their lists and their words differ.
    fn examine_table(&self, printer: Printer<'_>) -> io::Result<()> {
        let table = &self.draft.table;
        let rows = table.safe.len();
        let arcs = table.arcs.len();
        match table.examine() {
            Ok(()) => printer.good(
                &table.table(printer.heap())?,
                format_args!("a table of {rows} rows and {arcs} arcs"),
            ),
            Err(fault) => printer.refused(&fault, fault),
        }
    }

    fn examine_drawing(&self, printer: Printer<'_>) -> io::Result<()> {
        let drawing = &self.draft.drawing;
        let nodes = drawing.nodes.len();
        let edges = drawing.edges.len();
        match drawing.examine() {
            Ok(()) => printer.good(
                &drawing.drawing(),
                format_args!("a drawing of {nodes} nodes and {edges} edges"),
            ),
            Err(fault) => printer.refused(&fault, fault),
        }
    }

    fn examine_book(&self, printer: Printer<'_>) -> io::Result<()> {
        let width = self.draft.listing.width;
        let cells = self.draft.listing.cells.len();
        match self.draft.listing.examine() {
            Ok(count) => printer.say(format_args!(
                "good width {width} rows {count}; a listing of {cells} cells"
            )),
            Err(fault) => printer.refused(
                &fault,
                format_args!("{cells} cells at width {width}: {fault}"),
            ),
        }
    }

    fn copy(&self, printer: Printer<'_>, index: usize, length: Option<usize>) -> io::Result<()> {
        let book = self.draft.listing.book();
        let width = book.width();
        let count = book.count();
        let mut row = buffer(printer.heap(), length.unwrap_or(width))?;
        match book.copy_row(index, &mut row) {
            Ok(()) => printer.say(format_args!("copied {}; row {index} of the book", Cells(&row))),
            Err(why) => printer.refused(
                &why,
                format_args!("the book has {count} rows of {width} cells"),
            ),
        }
    }

    fn holds(&self, printer: Printer<'_>, row: &[u16]) -> io::Result<()> {
        let answer = if self.draft.listing.book().holds(row) {
            "yes"
        } else {
            "no"
        };
        printer.say(format_args!(
            "holds {answer} {}; whether the book holds this row",
            Cells(row)
        ))
    }

    // Performs what a line asks for.
    fn perform(&mut self, printer: Printer<'_>, command: Command<'_>) -> io::Result<()> {
        let heap = printer.heap();
        match command {
            Command::Nothing => {}
            Command::Table => self.draft.begin_table(heap)?,
            Command::Row { safe, name } => self.draft.table.add_row(heap, safe, name)?,
            Command::Choice { choice, name } => self.draft.table.name_choice(heap, choice, name)?,
            Command::Arc(arc) => self.draft.table.arcs.push(arc)?,
            Command::Drawing => self.draft.begin_drawing(heap),
            Command::Node { node, name } => self.draft.drawing.add_node(heap, node, name)?,
            Command::Edge(edge) => self.draft.drawing.edges.push(edge)?,
            Command::Book { width } => self.draft.begin_book(heap, width),
            Command::Cells(cells) => self.draft.listing.cells.extend_from_slice(&cells)?,
            Command::ExamineTable => self.examine_table(printer)?,
            Command::ExamineDrawing => self.examine_drawing(printer)?,
            Command::ExamineBook => self.examine_book(printer)?,
            Command::Copy { index, length } => self.copy(printer, index, length)?,
            Command::Holds(row) => self.holds(printer, &row)?,
            Command::Inspect => self.inspect(printer)?,
            Command::Open => self.open(printer)?,
            Command::Make { call, length } => self.make(printer, call, length)?,
            Command::PressAct { act, length } => self.press_act(printer, act, length)?,
            Command::Close => self.close(printer)?,
            Command::Rehearse => self.rehearsal = Some(Vec::new(heap)),
            Command::End => self.end(printer)?,
        }
        Ok(())
    }

    /// Performs a line of the script.
    pub(crate) fn step(&mut self, printer: Printer<'_>, text: &str) -> io::Result<()> {
        match read(printer.heap(), text) {
            Ok(command) => self.perform(printer, command),
            Err(Misread::OutOfMemory(error)) => Err(error.into()),
            Err(why) => printer.bad(why),
        }
    }

    /// Says what is left open where the script ends.
    pub(crate) fn finish(&self, printer: Printer<'_>) -> io::Result<()> {
        if self.rehearsal.is_some() {
            printer.bad("the script ends within a rehearsal, which is not held")?;
        }
        if self.run.is_some() {
            printer.bad("the script ends while a run is open, which is not closed")?;
        }
        Ok(())
    }
}
