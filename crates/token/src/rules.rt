//! What each act does.
ghost use Rattle.std.specs.Prelude.{◌≡◌, ◌<◌, length};
ghost use Rattle.token_tables.specs.Tables.{n_of, e_of, node_at};
ghost use Rattle.token.specs.Rows.{f_of, day_of, width_of, safe};
ghost use Rattle.token.specs.Rules.{choices_of, act_of, Of, wiped, start_row, given, taken, disarmed, armed, passed, ceded, completed, entered, after_enter, after_choose, made};
ghost use Rattle.token.specs.Known.{AtMost, RaisesNone, LowRow};
ghost use Rattle.token.specs.Drawn.{drawing_of};

use crate::act::Act;
use crate::changes::{
    Arm, Disarm, Give, Start, Take, clear_node, lower, pass_clocks, raise, sweep,
};
use crate::rows::{edges_fit, nodes_fit};
use crate::token_drawing::TokenDrawing;
use token_tables::{Edge, Kind, Node};

impl TokenDrawing {
    pub(crate) fn node_list(&self) -> &[Node]
        ensures { result.now ≡ (drawing_of self.now).nodes }
    {
        self.nodes.as_slice()
    }

    pub(crate) fn edge_list(&self) -> &[Edge]
        ensures { result.now ≡ (drawing_of self.now).edges }
    {
        self.edges.as_slice()
    }

    // The cell with the marks of the first edge.
    pub(crate) fn first_flow(&self) -> usize
        ensures { result ≡ f_of (drawing_of self.now) }
    {
        2 * self.node_list().len()
    }

    // The cell of the day clock, which is the last.
    pub(crate) fn day_cell(&self) -> usize
        ensures { result ≡ day_of (drawing_of self.now) }
    {
        self.first_flow() + self.edge_list().len()
    }

    pub(crate) fn row_width(&self) -> usize
        ensures { result ≡ width_of (drawing_of self.now) }
    {
        self.day_cell() + 1
    }

    pub(crate) fn choice_count(&self) -> usize
        ensures { result ≡ choices_of (drawing_of self.now) }
    {
        1 + self.node_list().len() + 2 * self.edge_list().len()
    }

    // The act that the choice stands for.
    pub(crate) fn act_of(&self, choice: usize) -> Act
        requires { choice < choices_of (drawing_of self.now) }
        ensures same { result ≡ act_of (drawing_of self.now) choice }
        ensures at { Of (drawing_of self.now) result }
    {
        let n = self.node_list().len();
        let e = self.edge_list().len();
        if choice == 0 {
            Act::Pass
        } else if choice < 1 + n {
            Act::Complete { node: choice - 1 }
        } else if choice < 1 + n + e {
            Act::Enter {
                edge: choice - (1 + n),
            }
        } else {
            Act::Choose {
                edge: choice - (1 + n + e),
            }
        }
    }

    pub(crate) fn row_is_safe(&self, row: &[u16]) -> bool
        ensures { result ≡ safe (drawing_of self.now) row.now }
    {
        let nodes = self.node_list();
        let edges = self.edge_list();
        let day = self.day_cell();
        nodes.len() > 0
            && row.len() == self.row_width()
            && nodes_fit(nodes, row)
            && edges_fit(edges, self.first_flow(), row)
            && row[day] <= self.cap
    }

    // Writes the start row.
    pub(crate) fn begin(&self, out: &mut [u16])
        requires { length out.old ≡ width_of (drawing_of self.now) }
        ensures { out.new ≡ start_row (drawing_of self.now) }
    {
        out.fill(0);
        sweep(self.node_list(), Start, out);
    }

    // The row is lent and written, so its width and its bound are one fact that each change asks for (`LowRow`): a struct round
    // the row would have to be proved low again after each write. That a node or an edge is one of the drawing is asked of its
    // number alone, as in `allowing.rt`.

    // One unit passes.
    fn pass(&self, out: &mut [u16])
        requires { LowRow (drawing_of self.now) 10000 out.old }
        ensures { out.new ≡ passed (drawing_of self.now) out.old }
    {
        pass_clocks(self.node_list(), out);
        let day = self.day_cell();
        if out[day] < self.cap {
            out[day] += 1;
        }
    }

    // Each edge out of the node gains a mark.
    fn give(&self, n: usize, out: &mut [u16])
        requires { LowRow (drawing_of self.now) 20000 out.old }
        ensures { out.new ≡ given (drawing_of self.now) n out.old }
    {
        let first = self.first_flow();
        sweep(self.edge_list(), Give { first, from: n }, out);
    }

    // Each edge into the node loses a mark.
    fn take(&self, n: usize, out: &mut [u16])
        requires { LowRow (drawing_of self.now) 20000 out.old }
        ensures same { out.new ≡ taken (drawing_of self.now) n out.old }
        ensures low { RaisesNone out.old out.new }
    {
        let first = self.first_flow();
        sweep(self.edge_list(), Take { first, into: n }, out);
    }

    // Each boundary of the task gains a mark, and its clock becomes 0.
    fn arm(&self, task: usize, out: &mut [u16])
        requires { LowRow (drawing_of self.now) 20000 out.old }
        ensures { out.new ≡ armed (drawing_of self.now) task out.old }
    {
        let nodes = self.node_list();
        let first = nodes.len();
        sweep(nodes, Arm { first, task }, out);
    }

    // Each boundary of the task loses its marks, and its clock becomes 0.
    fn disarm(&self, task: usize, out: &mut [u16])
        requires { LowRow (drawing_of self.now) 20000 out.old }
        ensures same { out.new ≡ disarmed (drawing_of self.now) task out.old }
        ensures low { RaisesNone out.old out.new }
    {
        let nodes = self.node_list();
        let first = nodes.len();
        sweep(nodes, Disarm { first, task }, out);
    }

    // What goes when the node completes.
    fn cede(&self, n: usize, out: &mut [u16])
        requires node { n < n_of (drawing_of self.now) }
        requires row { LowRow (drawing_of self.now) 10000 out.old }
        ensures same { out.new ≡ ceded (node_at (drawing_of self.now) n).kind (drawing_of self.now) n out.old }
        ensures low { AtMost 10000 out.new }
    {
        let nodes = self.node_list();
        match nodes[n].kind {
            Kind::Task => {
                clear_node(nodes.len(), n, out);
                self.disarm(n, out);
            }
            Kind::Parallel => self.take(n, out),
            Kind::Stopping => {
                let host = nodes[n].host as usize;
                clear_node(nodes.len(), n, out);
                out[host] = 0;
                self.disarm(host, out);
            }
            _ => clear_node(nodes.len(), n, out),
        }
    }

    // The node completes: first it takes, then it gives.
    fn complete(&self, n: usize, out: &mut [u16])
        requires node { n < n_of (drawing_of self.now) }
        requires row { LowRow (drawing_of self.now) 10000 out.old }
        ensures { out.new ≡ completed (drawing_of self.now) n out.old }
    {
        self.cede(n, out);
        self.give(n, out);
    }

    // All marks and clocks of nodes, and all marks of edges, become 0.
    fn wipe(&self, out: &mut [u16])
        requires { length out.old ≡ width_of (drawing_of self.now) }
        ensures { out.new ≡ wiped (day_of (drawing_of self.now)) out.old }
    {
        let day = self.day_cell();
        out[0..day].fill(0);
    }

    // What comes when a mark goes into the node.
    fn receive(&self, n: usize, out: &mut [u16])
        requires node { n < n_of (drawing_of self.now) }
        requires row { LowRow (drawing_of self.now) 10000 out.old }
        ensures { out.new ≡ entered (node_at (drawing_of self.now) n).kind (drawing_of self.now) n out.old }
    {
        let nodes = self.node_list();
        match nodes[n].kind {
            Kind::Task => {
                raise(n, out);
                self.arm(n, out);
            }
            Kind::Exclusive => self.give(n, out),
            Kind::Wait => {
                raise(n, out);
                out[nodes.len() + n] = 0;
            }
            Kind::End => raise(n, out),
            Kind::Terminate => {
                self.wipe(out);
                out[n] = 1;
            }
            _ => {}
        }
    }

    // A mark goes over the edge into its target.
    fn enter(&self, e: usize, out: &mut [u16])
        requires edge { e < e_of (drawing_of self.now) }
        requires row { LowRow (drawing_of self.now) 10000 out.old }
        ensures { out.new ≡ after_enter (drawing_of self.now) e out.old }
    {
        let edges = self.edge_list();
        lower(self.first_flow() + e, out);
        self.receive(edges[e].target as usize, out);
    }

    // The gateway chooses the edge.
    fn choose(&self, e: usize, out: &mut [u16])
        requires edge { e < e_of (drawing_of self.now) }
        requires row { LowRow (drawing_of self.now) 10000 out.old }
        ensures { out.new ≡ after_choose (drawing_of self.now) e out.old }
    {
        self.take(self.edge_list()[e].source as usize, out);
        raise(self.first_flow() + e, out);
    }

    // Does what the act does.
    pub(crate) fn make(&self, act: Act, out: &mut [u16])
        requires at { Of (drawing_of self.now) act }
        requires row { LowRow (drawing_of self.now) 10000 out.old }
        ensures { out.new ≡ made (drawing_of self.now) act out.old }
    {
        match act {
            Act::Pass => self.pass(out),
            Act::Complete { node } => self.complete(node, out),
            Act::Enter { edge } => self.enter(edge, out),
            Act::Choose { edge } => self.choose(edge, out),
        }
    }
}
