ghost use Rattle.std.specs.Prelude.{◌≡◌, ◌<◌, ℕ, List, false, ◌==◌, if◌then◌else◌, length, slice_index_or};
ghost use Rattle.std.specs.List.{All, list_any};
ghost use Rattle.ris_graph.specs.GraphView.{row_at};
ghost use Rattle.ris_graph.specs.Putting.{ArePut, CanPut, IsPutOnce, HasPutRoom, HasRows, count_to, source_of, target_of};
ghost use Rattle.ris_graph.specs.Tables.{row_of, HasRow};

use crate::graphs::Graph;
use crate::nets::{Net, NetTriple, NetTriples};
use crate::outs::OutRows;
use crate::tables::RowTable;
use ris_base::Vertices;

impl<M> Graph<M> {
    ghost use Rattle.ris_base.specs.Requests.{entered};
    ghost use Rattle.ris_base.specs.declared.graphs.PlainGraph.{PlainGraph};
    ghost use Rattle.ris_base.specs.declared.updates.Update.{Update};
    ghost use Rattle.ris_graph.specs.GraphView.{IsOf};
    ghost use Rattle.ris_graph.specs.Nets.{IsNet, IsNetOf, HasRoomFor, IsCommitted};

    /// Does what a net of this graph says, for which room was made. The graph is then that of the net's request. It costs
    /// two binary searches for each triple whose copies change, takes no memory and gives none back.
    pub fn commit(&mut self, net: &Net)
        requires of { IsNetOf self.old net.now }
        requires room { HasRoomFor self.old net.now }
        ensures graph { (p : PlainGraph) (parts : List Update) → IsOf self.old p → IsNet p parts net.now → IsOf self.new (entered p parts) }
        ensures back { IsCommitted self.new net.now }
    {
        put_all(&mut self.outs, &mut self.ins, &net.triples, true);
        mark(&mut self.present, &net.dropped, false);
        mark(&mut self.present, &net.added, true);
    }

    /// Takes back the net that was committed last. The graph is then that before. It costs what the commit did.
    pub fn undo(&mut self, net: &Net)
        requires { IsCommitted self.old net.now }
        ensures graph { (p : PlainGraph) (parts : List Update) → IsOf self.old (entered p parts) → IsNet p parts net.now → IsOf self.new p }
    {
        put_all(&mut self.outs, &mut self.ins, &net.triples, false);
        mark(&mut self.present, &net.added, false);
        mark(&mut self.present, &net.dropped, true);
    }
}

/// Sets the copies of the triples whose copies a net changes, in both rows: to those after it where it is gone through
/// forwards, and else to those before.
fn put_all<M>(outs: &mut OutRows<M>, ins: &mut RowTable<M>, triples: &NetTriples, forward: bool)
    requires rows { All (HasRows outs.old ins.old) triples.now }
    requires outs { CanPut source_of target_of forward (row_of outs.old) triples.now }
    requires ins { CanPut target_of source_of forward (row_at ins.old) triples.now }
    ensures outs { ArePut source_of target_of forward (row_of outs.old) (row_of outs.new) triples.now }
    ensures ins { ArePut target_of source_of forward (row_at ins.old) (row_at ins.new) triples.now }
    ensures stripes { length outs.new ≡ length outs.old }
    ensures has_rows { (u : ℕ) → HasRow outs.old u → HasRow outs.new u }
    ensures places { length ins.new ≡ length ins.old }
{
    for k in 0..triples.len() {
        put(outs, ins, triples.at(k), forward);
    }
}

/// Sets the copies of one triple in both rows, where the net changes them.
fn put<M>(outs: &mut OutRows<M>, ins: &mut RowTable<M>, net: &NetTriple, forward: bool)
    requires rows { HasRows outs.old ins.old net.now }
    requires outs { HasPutRoom source_of target_of forward (row_of outs.old) net.now }
    requires ins { HasPutRoom target_of source_of forward (row_at ins.old) net.now }
    ensures outs { IsPutOnce source_of target_of forward (row_of outs.old) (row_of outs.new) net.now }
    ensures ins { IsPutOnce target_of source_of forward (row_at ins.old) (row_at ins.new) net.now }
    ensures stripes { length outs.new ≡ length outs.old }
    ensures has_rows { (u : ℕ) → HasRow outs.old u → HasRow outs.new u }
    ensures places { length ins.new ≡ length ins.old }
{
    if net.before != net.after {
        let t = net.triple;
        let copies = copies_to(net, forward);
        outs.put(t.source, t.target, t.weight, copies);
        ins.put(t.target as usize, t.source, t.weight, copies);
    }
}

/// The copies after a net where it is gone through forwards, and else those before.
fn copies_to(net: &NetTriple, forward: bool) -> u64
    ensures { result ≡ count_to forward net.now }
{
    if forward { net.after } else { net.before }
}

/// Notes of vertices whether they are present.
fn mark(present: &mut Vec<bool>, vertices: &Vertices, there: bool)
    requires { All (λ x. x < length present.old.items) vertices.now }
    ensures places { length present.new.items ≡ length present.old.items }
    ensures marked { (x : ℕ) → slice_index_or present.new.items x false
        ≡ (if list_any (λ y. y == x) vertices.now then there else slice_index_or present.old.items x false) }
{
    for k in 0..vertices.len() {
        let x = *vertices.at(k);
        present[x as usize] = there;
    }
}
