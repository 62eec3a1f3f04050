//! What a script has stated so far: a table or a drawing, a listing, and names for a person.
use crate::procedure::Procedure;
use crate::telling::{Facts, Names, Sheet, Telling};
use book::{ListedBook, ListingFault};
use process::Process;
use std::alloc::{AllocError, Global};
use std::rc::Rc;
use table::{Arc, Table, TableFault};
use token::{Act, TokenDrawing};
use token_rules::draw;
use token_tables::{DrawingFault, Edge, Node};

// The name as a value of its own.
fn owned(heap: Global, name: Option<&str>) -> Result<Option<String>, AllocError> {
    name.map(|name| String::from_str(heap, name)).transpose()
}

/// A table, as far as it is written.
#[derive(Drop)]
pub(crate) struct TableDraft {
    /// Whether each row is safe. A list of its own, since `Table::new` takes it; the rows' names are in `names`.
    pub safe: Vec<bool>,
    pub arcs: Vec<Arc>,
    /// Shared with the runs that are open or played, and copied only where more names are written meanwhile.
    pub names: Rc<Names>,
}

impl TableDraft {
    fn new(heap: Global) -> Result<TableDraft, AllocError> {
        Ok(TableDraft {
            safe: Vec::new(heap),
            arcs: Vec::new(heap),
            names: Names::none(heap)?,
        })
    }

    pub(crate) fn add_row(
        &mut self,
        heap: Global,
        safe: bool,
        name: Option<&str>,
    ) -> Result<(), AllocError> {
        Rc::make_mut(&mut self.names)?
            .rows
            .push(owned(heap, name)?)?;
        self.safe.push(safe)?;
        Ok(())
    }

    pub(crate) fn name_choice(
        &mut self,
        heap: Global,
        choice: usize,
        name: Option<&str>,
    ) -> Result<(), AllocError> {
        Rc::make_mut(&mut self.names)?.name_choice(choice, owned(heap, name)?)
    }

    pub(crate) fn examine(&self) -> Result<(), TableFault> {
        table::examine(&self.safe, &self.arcs)
    }

    /// The table as it is written, or the blank one. Its lists are copied whole, as `clone` does not.
    pub(crate) fn table(&self, heap: Global) -> Result<Table, AllocError> {
        Ok(Table::new(
            Vec::from_slice(heap, &self.safe)?,
            Vec::from_slice(heap, &self.arcs)?,
        ))
    }

    // The names as they are written. The blank table, which stands for a faulty one, has none.
    fn table_names(&self, heap: Global) -> Result<Rc<Names>, AllocError> {
        match self.examine() {
            Ok(()) => self.names.clone(),
            Err(_) => Names::none(heap),
        }
    }
}

/// A drawing, as far as it is written.
#[derive(Clone, Drop)]
pub(crate) struct DrawingDraft {
    pub nodes: Vec<Node>,
    pub edges: Vec<Edge>,
    /// The name of each node. A list of its own, since `draw` takes a slice of nodes.
    pub names: Vec<Option<String>>,
}

impl DrawingDraft {
    fn new(heap: Global) -> DrawingDraft {
        DrawingDraft {
            nodes: Vec::new(heap),
            edges: Vec::new(heap),
            names: Vec::new(heap),
        }
    }

    pub(crate) fn add_node(
        &mut self,
        heap: Global,
        node: Node,
        name: Option<&str>,
    ) -> Result<(), AllocError> {
        self.names.push(owned(heap, name)?)?;
        self.nodes.push(node)?;
        Ok(())
    }

    pub(crate) fn examine(&self) -> Result<(), DrawingFault> {
        token_tables::examine(&self.nodes, &self.edges)
    }

    /// The drawing as it is written, or the blank one.
    pub(crate) fn drawing(&self) -> TokenDrawing {
        draw(&self.nodes, &self.edges)
    }

    // The drawing with what is written of it. The blank drawing, which stands for a faulty one, has nothing written.
    fn sheet(&self, heap: Global) -> Result<Sheet, AllocError> {
        let written = match self.examine() {
            Ok(()) => self.clone()?,
            Err(_) => DrawingDraft::new(heap),
        };
        Ok(Sheet {
            drawing: self.drawing(),
            written,
        })
    }
}

/// A listing, as far as it is written.
#[derive(Drop)]
pub(crate) struct Listing {
    pub width: usize,
    pub cells: Vec<u16>,
}

impl Listing {
    fn new(heap: Global, width: usize) -> Listing {
        Listing {
            width,
            cells: Vec::new(heap),
        }
    }

    pub(crate) fn examine(&self) -> Result<usize, ListingFault> {
        book::examine(&self.cells, self.width)
    }

    /// The book as it is written, or the blank one.
    pub(crate) fn book(&self) -> ListedBook<'_> {
        ListedBook::new(&self.cells, self.width)
    }
}

/// Which of the two was begun last, and is run. Both are kept, since each can be examined.
#[derive(Clone, Copy)]
enum Stated {
    Table,
    Drawing,
}

/// A table, a drawing and a listing, as far as they are written.
#[derive(Drop)]
pub(crate) struct Draft {
    stated: Stated,
    pub table: TableDraft,
    pub drawing: DrawingDraft,
    pub listing: Listing,
}

impl Draft {
    pub(crate) fn new(heap: Global) -> Result<Draft, AllocError> {
        Ok(Draft {
            stated: Stated::Table,
            table: TableDraft::new(heap)?,
            drawing: DrawingDraft::new(heap),
            listing: Listing::new(heap, 0),
        })
    }

    pub(crate) fn begin_table(&mut self, heap: Global) -> Result<(), AllocError> {
        self.stated = Stated::Table;
        self.table = TableDraft::new(heap)?;
        Ok(())
    }

    pub(crate) fn begin_drawing(&mut self, heap: Global) {
        self.stated = Stated::Drawing;
        self.drawing = DrawingDraft::new(heap);
    }

    pub(crate) fn begin_book(&mut self, heap: Global, width: usize) {
        self.listing = Listing::new(heap, width);
    }

    // The words for the procedure's rows and choices.
    fn telling(&self, heap: Global) -> Result<Telling, AllocError> {
        match self.stated {
            Stated::Table => Ok(Telling::Written(self.table.table_names(heap)?)),
            Stated::Drawing => Ok(Telling::Drawn(self.drawing.sheet(heap)?)),
        }
    }

    /// The table or the drawing, whichever was begun last.
    pub(crate) fn procedure(&self, heap: Global) -> Result<Procedure, AllocError> {
        match self.stated {
            Stated::Table => self.table.table(heap).map(Procedure::Written),
            Stated::Drawing => Ok(Procedure::Drawn(self.drawing.drawing())),
        }
    }

    /// What is known of the procedure.
    pub(crate) fn facts(&self, heap: Global, process: &Procedure) -> Result<Facts, AllocError> {
        Ok(Facts {
            width: process.width(),
            choices: process.choices(),
            telling: self.telling(heap)?,
        })
    }

    /// The choice that stands for the act, if a drawing was begun last and has the act.
    pub(crate) fn choice(&self, act: Act) -> Option<usize> {
        match self.stated {
            Stated::Table => None,
            Stated::Drawing => self.drawing.drawing().choice(act),
        }
    }
}
