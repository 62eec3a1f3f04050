//! What a person is told of a procedure.
use crate::draft::DrawingDraft;
use crate::say::{ChoiceWords, NodeName, RowWords, Target, Timer, Waiting};
use std::alloc::{AllocError, Global};
use std::collections::BTreeMap;
use std::rc::Rc;
use token::TokenDrawing;
use token_tables::{Mode, Node};

/// Names of the rows and choices of a table.
#[derive(Clone, Drop)]
pub(crate) struct Names {
    pub rows: Vec<Option<String>>,
    pub choices: BTreeMap<usize, Option<String>>,
}

impl Names {
    /// No names yet, to be shared.
    pub(crate) fn none(heap: Global) -> Result<Rc<Names>, AllocError> {
        let names = Names {
            rows: Vec::new(heap),
            choices: BTreeMap::new(heap),
        };
        Ok(Rc::new(heap, names)?)
    }

    /// Names a choice, unless an earlier line did.
    pub(crate) fn name_choice(
        &mut self,
        choice: usize,
        name: Option<String>,
    ) -> Result<(), AllocError> {
        self.choices.entry(choice)?.or_insert(name);
        Ok(())
    }

    pub(crate) fn row(&self, cells: &[u16]) -> Option<&str> {
        let [cell] = cells else { return None };
        self.rows.get(usize::from(*cell))?.as_deref()
    }

    pub(crate) fn choice(&self, choice: usize) -> Option<&str> {
        self.choices.get(&choice)?.as_deref()
    }
}

/// A drawing with what is written of it.
#[derive(Drop)]
pub(crate) struct Sheet {
    pub drawing: TokenDrawing,
    pub written: DrawingDraft,
}

impl Sheet {
    fn name(&self, node: usize) -> Option<&str> {
        self.written.names.get(node)?.as_deref()
    }

    pub(crate) fn node(&self, node: usize) -> NodeName<'_> {
        NodeName {
            node,
            name: self.name(node),
        }
    }

    /// The node to which the edge leads.
    pub(crate) fn target(&self, edge: usize) -> Target<'_> {
        let edge = self.written.edges.get(edge);
        Target(edge.map(|edge| self.node(usize::from(edge.target))))
    }

    // What the clock of the node shows at this row.
    fn clock(&self, node: usize, cells: &[u16]) -> Option<u16> {
        let cell = self.written.nodes.len().checked_add(node)?;
        cells.get(cell).copied()
    }

    /// How long the marked node is yet to wait, if it is timed.
    pub(crate) fn waiting(&self, node: usize, cells: &[u16]) -> Option<Waiting> {
        let Node { mode, amount, .. } = *self.written.nodes.get(node)?;
        let timer = match mode {
            Mode::At => Timer::Until { day: amount },
            Mode::After => Timer::Units {
                clock: self.clock(node, cells)?,
                length: amount,
            },
            Mode::Untimed | Mode::Other(_) => return None,
        };
        Some(Waiting {
            timer,
            due: self.drawing.is_due(cells, node),
        })
    }
}

/// The words for rows and choices: those of a table, or those of a drawing.
#[derive(Drop)]
pub(crate) enum Telling {
    Written(Rc<Names>),
    Drawn(Sheet),
}

impl Telling {
    /// The drawing, if it is of one.
    pub(crate) fn drawing(&self) -> Option<&TokenDrawing> {
        match self {
            Telling::Written(_) => None,
            Telling::Drawn(sheet) => Some(&sheet.drawing),
        }
    }

    pub(crate) fn row<'a>(&'a self, cells: &'a [u16]) -> RowWords<'a> {
        RowWords {
            telling: self,
            cells,
        }
    }

    pub(crate) fn choice(&self, choice: usize) -> ChoiceWords<'_> {
        ChoiceWords {
            telling: self,
            choice,
        }
    }
}

/// What is known of a process.
#[derive(Drop)]
pub(crate) struct Facts {
    pub width: usize,
    pub choices: usize,
    pub telling: Telling,
}
