// Questions to other graphs than the small one.
use crate::asking::{Case, ask, ask_all};
use crate::shorthand::{the, triple, unmeasured, v, weights};
use graph::editable_graph::EditableGraph;
use graph::graph::Graph;
use graph::overlay::Overlay;
use graph::stored_graph::StoredGraph;
use graph::triple_list::TripleList;
use graph::union_graph::UnionGraph;
use query::table::Entry;
use rdf::triple::NO_TRIPLE;
use std::io;

fn no_triple(rt: &impl Print) -> io::Result<()> {
    let entries = [NO_TRIPLE; 2];
    ask_all(
        rt,
        &TripleList::new(&entries),
        "A graph of no triple",
        &[
            Case::new("nothing to read", &[Entry::Initial], 1).reading(0),
            Case::new("nothing matches", &[weights()], 1),
            Case::new("nothing to read, no row place", &[Entry::Initial], 0).reading(0),
        ],
    )
}

fn variable_twice(rt: &impl Print) -> io::Result<()> {
    let identifiers = [triple(5, 1, 5), triple(1, 1, 5)];
    let blank_nodes = [triple(2, 5, 6), triple(10, 5, 10)];
    ask_all(
        rt,
        &TripleList::new(&identifiers),
        "A variable at two positions",
        &[Case::new("identifiers", &[Entry::Triple(v(0), the(1), v(0))], 1)],
    )?;
    ask(
        rt,
        &TripleList::new(&blank_nodes),
        &Case::new("blank nodes", &[Entry::Triple(v(0), the(5), v(0))], 1),
    )
}

// Marks a triple of the union and one that is not in it, so that the small graph comes out.
fn over_union<L: Graph + Drop, R: Graph + Drop>(
    rt: &impl Print,
    left: L,
    right: R,
) -> io::Result<()> {
    let mut overlay = Overlay::new(UnionGraph::new(left, right));
    let _removed = overlay.remove(triple(6, 5, 9));
    let _added = overlay.add(triple(21, 1, 6));
    ask_all(
        rt,
        &overlay,
        "An overlay over a union of a list and a stored graph",
        &[
            Case::new("reels without a partner", &unmeasured(), 14),
            Case::new("graph too large", &unmeasured(), 14).reading(2),
        ],
    )
}

fn layers(rt: &impl Print) -> io::Result<()> {
    let entries = [triple(17, 1, 2), triple(4, 5, 9), triple(2, 5, 9)];
    let mut places = [NO_TRIPLE; 2];
    let mut stored = StoredGraph::new(&mut places);
    let _first = stored.add(triple(6, 5, 9));
    let _second = stored.add(triple(17, 1, 2));
    over_union(rt, TripleList::new(&entries), stored)
}

pub(crate) fn graphs(rt: &impl Print) -> io::Result<()> {
    no_triple(rt)?;
    variable_twice(rt)?;
    layers(rt)
}
