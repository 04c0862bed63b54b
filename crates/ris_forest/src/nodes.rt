ghost use Rattle.std.specs.Prelude.{◌≡◌, ◌-◌, ◌<◌, ◌≤◌, ◌^◌, ◌++◌, All, length, replicate, slice_set, vec_len, IfOk, OnOk, OnErr};
ghost use Rattle.ris_forest.specs.Cells.{forest_of, AreBelow, IsSmall};
ghost use Rattle.ris_forest.specs.Commits.{cell_of, committed, IsRowBelow};
ghost use Rattle.ris_forest.specs.Growing.{GoesOn, GrowsBelow, GrowsByMissing, IsClosed};
ghost use Rattle.ris_forest.specs.Packing.{unpacked};
ghost use Rattle.ris_forest.specs.Linking.{absent_node, node_at, with_first, with_next, with_previous, with_packed, unlinked, linked, cells_of, above_of, without_above, AreLinked, GrowsByChildren, IsKept};

use crate::packing::Packed;
use crate::{Delta, DeltaRow, Subtrees};
use ris_base::{NoMemory, Parent, Value};
use std::alloc::Global;
use std::mem::size_of;

/// The number that ends a list of links. No vertex of a table has it.
const NO_VERTEX: u32 = u32::MAX;

/// The links of a vertex: its first child, and the next and the previous one among the children of its parent.
#[derive(Clone, Copy)]
pub struct Links {
    pub first: u32,
    pub next: u32,
    pub previous: u32,
}

/// What a forest holds of one vertex number, in 48 bytes.
#[derive(Clone, Copy)]
pub struct Node {
    pub packed: Packed,
    pub links: Links,
}

const _: () = prove!(size_of::<Node>() == 48);

impl Node {
    /// The node of an absent vertex without children.
    pub fn absent() -> Node
        ensures { result ≡ absent_node }
    {
        Node {
            packed: Packed {
                value: u64::MAX,
                weight: 0,
                vertex: 0,
                source: 0,
                target: 0,
                has_parent: false,
            },
            links: Links {
                first: NO_VERTEX,
                next: NO_VERTEX,
                previous: NO_VERTEX,
            },
        }
    }
}

/// Sets the first child of a vertex. Past the end of the table nothing happens.
fn set_first(nodes: &mut [Node], vertex: u32, to: u32)
    ensures { nodes.new ≡ with_first nodes.old vertex to }
{
    if (vertex as usize) < nodes.len() {
        nodes[vertex as usize].links.first = to;
    }
}

/// Sets the next sibling of a vertex. Past the end of the table nothing happens.
fn set_next(nodes: &mut [Node], vertex: u32, to: u32)
    ensures { nodes.new ≡ with_next nodes.old vertex to }
{
    if (vertex as usize) < nodes.len() {
        nodes[vertex as usize].links.next = to;
    }
}

/// Sets the previous sibling of a vertex. Past the end of the table nothing happens.
fn set_previous(nodes: &mut [Node], vertex: u32, to: u32)
    ensures { nodes.new ≡ with_previous nodes.old vertex to }
{
    if (vertex as usize) < nodes.len() {
        nodes[vertex as usize].links.previous = to;
    }
}

/// Sets the value and the parent of a vertex. Past the end of the table nothing happens.
fn set_packed(nodes: &mut [Node], vertex: u32, packed: Packed)
    ensures { nodes.new ≡ with_packed nodes.old vertex packed }
{
    if (vertex as usize) < nodes.len() {
        nodes[vertex as usize].packed = packed;
    }
}

/// The links of a vertex: none past the end of the table.
fn links_of(nodes: &[Node], vertex: u32) -> Links
    ensures { result ≡ (node_at nodes.now vertex).links }
{
    match nodes.get(vertex as usize) {
        Some(node) => node.links,
        None => Node::absent().links,
    }
}

/// The parent of a vertex number: none past the end of the table.
pub fn parent_of(nodes: &[Node], x: u64) -> Parent
    ensures { result ≡ (unpacked (node_at nodes.now x).packed).parent }
{
    match nodes.get(x as usize) {
        Some(node) => node.packed.parent(),
        None => Parent::None,
    }
}

/// The value of a vertex number: absent past the end of the table.
pub fn value_of(nodes: &[Node], x: u64) -> Value
    ensures { result ≡ (unpacked (node_at nodes.now x).packed).value }
{
    match nodes.get(x as usize) {
        Some(node) => node.packed.value(),
        None => Value::Absent,
    }
}

/// Takes a child out of the children of its parent.
fn unlink(nodes: &mut [Node], parent: u32, child: u32)
    ensures { nodes.new ≡ unlinked nodes.old parent child }
{
    let links = links_of(nodes, child);
    if links.previous == NO_VERTEX {
        set_first(nodes, parent, links.next);
    } else {
        set_next(nodes, links.previous, links.next);
    }
    set_previous(nodes, links.next, links.previous);
}

/// Puts a vertex before the children of a parent.
fn link(nodes: &mut [Node], parent: u32, child: u32)
    ensures { nodes.new ≡ linked nodes.old parent child }
{
    let head = links_of(nodes, parent).first;
    set_next(nodes, child, head);
    set_previous(nodes, child, NO_VERTEX);
    set_previous(nodes, head, child);
    set_first(nodes, parent, child);
}

/// Takes a vertex out of the children of its parent, if it has one.
fn detach(nodes: &mut [Node], vertex: u32)
    requires few { length nodes.old < 2 ^ 32 }
    requires linked { AreLinked nodes.old (above_of nodes.old) }
    ensures cells { cells_of nodes.new ≡ cells_of nodes.old }
    ensures linked { AreLinked nodes.new (without_above (above_of nodes.old) vertex) }
{
    match parent_of(nodes, vertex as u64) {
        Parent::From { vertex: parent, .. } => unlink(nodes, parent, vertex),
        Parent::None => {}
    }
}

/// Gives a vertex another value and parent, and puts it before the children of the parent.
fn place(nodes: &mut [Node], row: &DeltaRow)
    requires few { length nodes.old < 2 ^ 32 }
    requires row { IsRowBelow (length nodes.old) row.now }
    requires small { IsSmall row.now.value }
    requires linked { AreLinked nodes.old (above_of nodes.old) }
    ensures cells { cells_of nodes.new ≡ slice_set (cells_of nodes.old) row.now.vertex (cell_of row.now) }
    ensures linked { AreLinked nodes.new (above_of nodes.new) }
{
    detach(nodes, row.vertex);
    set_packed(nodes, row.vertex, Packed::new(row.value, row.parent));
    match row.parent {
        Parent::From { vertex, .. } => link(nodes, vertex, row.vertex),
        Parent::None => {}
    }
}

/// Gives the vertex of each row the value and the parent of the row.
pub fn overwrite(nodes: &mut [Node], delta: &Delta)
    requires few { length nodes.old < 2 ^ 32 }
    requires room { All (IsRowBelow (length nodes.old)) delta.now }
    requires small { All (λ row. IsSmall row.value) delta.now }
    requires linked { AreLinked nodes.old (above_of nodes.old) }
    ensures cells { cells_of nodes.new ≡ committed (cells_of nodes.old) delta.now }
    ensures linked { AreLinked nodes.new (above_of nodes.new) }
{
    for k in 0..delta.len() {
        place(nodes, delta.at(k));
    }
}

/// Makes the table longer, by nodes of absent vertices. It takes no more memory than that. After `NoMemory` the table is
/// as before.
pub fn extend(nodes: &mut Vec<Node>, size: usize) -> Result<(), NoMemory>
    requires { vec_len nodes.old ≤ size }
    ensures nodes { nodes.new.items ≡ nodes.old.items ++ replicate (length nodes.new.items - length nodes.old.items) absent_node }
    ensures ok { OnOk result (length nodes.new.items ≡ size) }
    ensures err { OnErr result (length nodes.new.items ≡ length nodes.old.items) }
    ensures bound { length nodes.new.items ≤ size }
{
    nodes.reserve_exact(size - nodes.len())?;
    nodes.resize(size, Node::absent())?;
    Ok(())
}

/// Appends the children of a vertex to a list.
fn push_children(nodes: &[Node], vertex: u32, found: &mut Vec<u32>) -> Result<(), NoMemory>
    requires few { length nodes.now < 2 ^ 32 }
    requires linked { AreLinked nodes.now (above_of nodes.now) }
    ensures { OnOk result (GrowsByChildren nodes.now vertex found.old.items found.new.items) }
{
    let mut child = links_of(nodes, vertex).first;
    while child != NO_VERTEX {
        found.push(child)?;
        child = links_of(nodes, child).next;
    }
    Ok(())
}

/// The vertex `x` and all that hang below it: the list is a queue, to whose end the children of each vertex go.
pub fn below(alloc: Global, nodes: &[Node], x: u32) -> Result<Vec<u32>, NoMemory>
    requires { IsKept nodes.now }
    ensures { IfOk result (λ found. AreBelow (forest_of (cells_of nodes.now)) x found.items) }
{
    let mut found = Vec::new(alloc);
    found.push(x)?;
    let mut at = 0;
    while at < found.len() {
        let vertex = found[at];
        push_children(nodes, vertex, &mut found)?;
        at += 1;
    }
    Ok(found)
}

/// Adds the children of a vertex that aren't there.
fn add_children(nodes: &[Node], vertex: u32, found: &mut Subtrees) -> Result<(), NoMemory>
    requires few { length nodes.now < 2 ^ 32 }
    requires linked { AreLinked nodes.now (above_of nodes.now) }
    ensures ok { OnOk result (GrowsByMissing (above_of nodes.now) vertex found.old found.new) }
    ensures on { GoesOn found.old found.new }
{
    let mut child = links_of(nodes, vertex).first;
    while child != NO_VERTEX {
        found.insert(child)?;
        let links = links_of(nodes, child);
        child = links.next;
    }
    Ok(())
}

/// Adds the vertex `x` and all that hang below it, where they aren't there: what is added is a queue, to whose end the
/// children of each vertex go.
pub fn add_below(nodes: &[Node], x: u32, found: &mut Subtrees) -> Result<(), NoMemory>
    requires { IsKept nodes.now }
    ensures ok { OnOk result (IsClosed (forest_of (cells_of nodes.now)) found.old
        → GrowsBelow (forest_of (cells_of nodes.now)) x found.old found.new) }
    ensures on { GoesOn found.old found.new }
{
    let mut at = found.len();
    found.insert(x)?;
    while at < found.len() {
        let vertex = found.at(at);
        add_children(nodes, vertex, found)?;
        at += 1;
    }
    Ok(())
}
