//! What is due at a row, and what is allowed.
ghost use Rattle.std.specs.Prelude.{◌≡◌, ◌+◌, ◌<◌, slice_index};
ghost use Rattle.token_tables.specs.Tables.{n_of, e_of};
ghost use Rattle.token.specs.Rows.{f_of, day_of};
ghost use Rattle.token.specs.Rules.{Of, any_due, is_due, ready, is_enterable, may_complete, may_enter, may_choose, may_free, may_urgent, may};
ghost use Rattle.token.specs.Marked.{drawing_in, row_in};

use crate::act::Act;
use crate::marking::Marking;
use crate::rows::{any_is_due, is_ready, node_is_due};
use token_tables::{Kind, count_leaving};

// Whether a mark may go into a node of this kind, with so many edges out of it.
fn is_enterable(kind: Kind, leaving: usize) -> bool
    ensures { result ≡ is_enterable kind leaving }
{
    match kind {
        Kind::Task | Kind::Wait | Kind::End | Kind::Terminate => true,
        Kind::Exclusive => leaving == 1,
        _ => false,
    }
}

// That a node, an edge or an act is one of the drawing is asked of its number alone: a type for such a number would be made
// and opened again at each call.
impl Marking<'_> {
    fn mark(&self, n: usize) -> u16
        requires { n < n_of (drawing_in self.now) }
        ensures { result ≡ slice_index (row_in self.now) n }
    {
        self.row[n]
    }

    fn clock(&self, n: usize) -> u16
        requires { n < n_of (drawing_in self.now) }
        ensures { result ≡ slice_index (row_in self.now) (n_of (drawing_in self.now) + n) }
    {
        self.row[self.drawing.node_list().len() + n]
    }

    fn flow(&self, e: usize) -> u16
        requires { e < e_of (drawing_in self.now) }
        ensures { result ≡ slice_index (row_in self.now) (f_of (drawing_in self.now) + e) }
    {
        self.row[self.drawing.first_flow() + e]
    }

    fn day(&self) -> u16
        ensures { result ≡ slice_index (row_in self.now) (day_of (drawing_in self.now)) }
    {
        self.row[self.drawing.day_cell()]
    }

    // Whether some node is due.
    fn some_is_due(&self) -> bool
        ensures { result ≡ any_due (drawing_in self.now) (row_in self.now) }
    {
        any_is_due(self.drawing.node_list(), self.day(), self.row)
    }

    // Whether this node is due.
    pub(crate) fn is_due(&self, n: usize) -> bool
        requires { n < n_of (drawing_in self.now) }
        ensures { result ≡ is_due (drawing_in self.now) (row_in self.now) n }
    {
        let node = self.drawing.node_list()[n];
        node_is_due(node, self.mark(n), self.clock(n), self.day())
    }

    // Whether each edge into the node has a mark.
    fn is_ready(&self, n: usize) -> bool
        ensures { result ≡ ready (drawing_in self.now) n (row_in self.now) }
    {
        let first = self.drawing.first_flow();
        is_ready(self.drawing.edge_list(), first, n, self.row)
    }

    fn may_complete(&self, n: usize) -> bool
        requires { n < n_of (drawing_in self.now) }
        ensures { result ≡ may_complete (drawing_in self.now) (row_in self.now) n }
    {
        match self.drawing.node_list()[n].kind {
            Kind::Start | Kind::Task => self.mark(n) > 0,
            Kind::Parallel => self.is_ready(n),
            _ => false,
        }
    }

    fn may_enter(&self, e: usize) -> bool
        requires { e < e_of (drawing_in self.now) }
        ensures { result ≡ may_enter (drawing_in self.now) (row_in self.now) e }
    {
        let edges = self.drawing.edge_list();
        let target = edges[e].target as usize;
        self.flow(e) > 0
            && is_enterable(
                self.drawing.node_list()[target].kind,
                count_leaving(edges, target),
            )
    }

    fn may_choose(&self, e: usize) -> bool
        requires { e < e_of (drawing_in self.now) }
        ensures { result ≡ may_choose (drawing_in self.now) (row_in self.now) e }
    {
        let edges = self.drawing.edge_list();
        let source = edges[e].source as usize;
        self.drawing.node_list()[source].kind == Kind::Exclusive
            && count_leaving(edges, source) > 1
            && self.is_ready(source)
    }

    // Whether the act is allowed while no node is due.
    fn may_free(&self, act: Act) -> bool
        requires { Of (drawing_in self.now) act }
        ensures { result ≡ may_free (drawing_in self.now) (row_in self.now) act }
    {
        match act {
            Act::Pass => true,
            Act::Complete { node } => self.may_complete(node),
            Act::Enter { edge } => self.may_enter(edge),
            Act::Choose { edge } => self.may_choose(edge),
        }
    }

    // Whether the act is allowed while some node is due.
    fn may_urgent(&self, act: Act) -> bool
        requires { Of (drawing_in self.now) act }
        ensures { result ≡ may_urgent (drawing_in self.now) (row_in self.now) act }
    {
        match act {
            Act::Complete { node } => self.is_due(node),
            Act::Pass | Act::Enter { .. } | Act::Choose { .. } => false,
        }
    }

    // Whether the act is allowed. Most acts are allowed neither way, and then nobody asks what is due.
    pub(crate) fn may(&self, act: Act) -> bool
        requires { Of (drawing_in self.now) act }
        ensures { result ≡ may (drawing_in self.now) (row_in self.now) act }
    {
        let urgent = self.may_urgent(act);
        let free = self.may_free(act);
        if urgent == free {
            return free;
        }
        if self.some_is_due() { urgent } else { free }
    }
}
