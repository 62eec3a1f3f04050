//! Changes of a row: of single cells, and sweeps over all nodes or all edges.
ghost use Rattle.std.specs.Prelude.{◌≡◌, ℕ, ◌+◌, ◌*◌, ◌<◌, ◌≤◌, length, slice_index};
ghost use Rattle.process.specs.Meaning.{Row};
ghost use Rattle.token.specs.Known.{AtMost};
ghost use Rattle.token.specs.Rules.{up, down, clear, sweep, start_one, pass_one, give_one, take_one, disarm_one, arm_one};
ghost use Rattle.token.specs.Tame.{Tame};
ghost use Rattle.token.specs.Steps.{tame_by_one, start_tame, give_tame, take_tame, disarm_tame, arm_tame};

use crate::rows::{is_after, is_boundary_of};
use token_tables::{Edge, Node};

// The cell gains one.
pub(crate) fn raise(k: usize, out: &mut [u16])
    requires long { k < length out.old }
    requires low { slice_index out.old k < 65535 }
    ensures { out.new ≡ up out.old k }
{
    out[k] += 1;
}

// The cell loses one.
pub(crate) fn lower(k: usize, out: &mut [u16])
    requires { k < length out.old }
    ensures { out.new ≡ down out.old k }
{
    out[k] = out[k].saturating_sub(1);
}

// Of n nodes, the i-th loses its marks, and its clock becomes 0.
pub(crate) fn clear_node(n: usize, i: usize, out: &mut [u16])
    requires { n + i < length out.old }
    ensures { out.new ≡ clear n out.old i }
{
    out[i] = 0;
    out[n + i] = 0;
}

// A change that each node or each edge makes to a row.
pub(crate) trait Change<T> {
    // The highest cell that item 0 may change; item i changes none above `first + i`.
    ghost first: { Self → ℕ };

    // The row that the i-th makes of a row.
    ghost makes: { Self → ℕ → T → Row → Row };

    fn make(&self, i: usize, item: T, out: &mut [u16])
        requires long { first self.now + i < length out.old }
        requires low { AtMost 65534 out.old }
        ensures { out.new ≡ makes self.now i item out.old };

    // The row keeps its length, and no cell rises by more than one.
    ghost tame: { (change : Self) (width i : ℕ) (item : T) → Tame width 1 (makes change i item) };
}

// Each of the list in turn changes the row. A loop, since after a closure that writes into
// the row the proof knows nothing of the row.
pub(crate) fn sweep<T: Copy, C: Change<T> + Copy>(items: &[T], change: C, out: &mut [u16])
    requires long { C.first change + length items.now ≤ length out.old }
    requires few { length items.now ≤ 128 }
    requires low { AtMost 20000 out.old }
    ensures { out.new ≡ sweep (C.makes change) 0 items.now out.old }
{
    for (i, item) in items.iter().enumerate() {
        change.make(i, *item, out);
    }
}

// Each start gains a mark.
#[derive(Clone, Copy)]
pub(crate) struct Start;

impl Change<Node> for Start {
    ghost first = { λ _. 0 };

    ghost makes = { λ _. start_one };

    fn make(&self, i: usize, node: Node, out: &mut [u16]) {
        if node.kind.is_begin() {
            raise(i, out);
        }
    }

    ghost tame = { λ _ width. start_tame width };
}

// Each edge out of a node gains a mark; the first edge has its marks in cell `first`.
#[derive(Clone, Copy)]
pub(crate) struct Give {
    pub(crate) first: usize,
    pub(crate) from: usize,
}

impl Change<Edge> for Give {
    ghost first = { λ change. change.first };

    ghost makes = { λ change. give_one change.first change.from };

    fn make(&self, i: usize, edge: Edge, out: &mut [u16]) {
        if edge.source as usize == self.from {
            raise(self.first + i, out);
        }
    }

    ghost tame = { λ change width. give_tame width change.first change.from };
}

// Each edge into a node loses a mark; the first edge has its marks in cell `first`.
#[derive(Clone, Copy)]
pub(crate) struct Take {
    pub(crate) first: usize,
    pub(crate) into: usize,
}

impl Change<Edge> for Take {
    ghost first = { λ change. change.first };

    ghost makes = { λ change. take_one change.first change.into };

    fn make(&self, i: usize, edge: Edge, out: &mut [u16]) {
        if edge.target as usize == self.into {
            lower(self.first + i, out);
        }
    }

    ghost tame = { λ change width i edge. tame_by_one width _ (take_tame width change.first change.into i edge) };
}

// Each boundary of a task loses its marks, and its clock becomes 0; the first node has its clock in cell `first`.
#[derive(Clone, Copy)]
pub(crate) struct Disarm {
    pub(crate) first: usize,
    pub(crate) task: usize,
}

impl Change<Node> for Disarm {
    ghost first = { λ change. change.first };

    ghost makes = { λ change. disarm_one change.first change.task };

    fn make(&self, i: usize, node: Node, out: &mut [u16]) {
        if is_boundary_of(self.task, node) {
            clear_node(self.first, i, out);
        }
    }

    ghost tame = { λ change width i node. tame_by_one width _ (disarm_tame width change.first change.task i node) };
}

// Each boundary of a task gains a mark, and its clock becomes 0; the first node has its clock in cell `first`.
#[derive(Clone, Copy)]
pub(crate) struct Arm {
    pub(crate) first: usize,
    pub(crate) task: usize,
}

impl Change<Node> for Arm {
    ghost first = { λ change. change.first };

    ghost makes = { λ change. arm_one change.first change.task };

    fn make(&self, i: usize, node: Node, out: &mut [u16]) {
        if is_boundary_of(self.task, node) {
            raise(i, out);
            out[self.first + i] = 0;
        }
    }

    ghost tame = { λ change width. arm_tame width change.first change.task };
}

fn pass_one(n: usize, i: usize, node: Node, out: &mut [u16])
    requires long { n + i < length out.old }
    requires low { slice_index out.old (n + i) < 65535 }
    ensures { out.new ≡ pass_one n i node out.old }
{
    if out[i] > 0 && is_after(node) {
        out[n + i] += 1;
    }
}

// The clock of each marked node that waits for its length rises by one. A function of its own, since this project wants the
// passing unit written as a loop over the nodes with an index.
pub(crate) fn pass_clocks(nodes: &[Node], out: &mut [u16])
    requires long { 2 * length nodes.now ≤ length out.old }
    requires few { length nodes.now ≤ 64 }
    requires low { AtMost 20000 out.old }
    ensures { out.new ≡ sweep (pass_one (length nodes.now)) 0 nodes.now out.old }
{
    for (i, node) in nodes.iter().enumerate() {
        pass_one(nodes.len(), i, *node, out);
    }
}
