// Graphs of every kind laid over one another. Each step prints what the call answers: nothing, or the number of the refusal.
#![tactic(auto)]

mod histories;
mod printing;
mod single;

use graph::editable_graph::EditableGraph;
use graph::graph::Graph;
use graph::overlay::Overlay;
use graph::reading::read_all;
use graph::sealed::Sealed;
use graph::stored_graph::StoredGraph;
use graph::triple_list::TripleList;
use graph::union_graph::UnionGraph;
use histories::read_pair;
use printing::{Numbers, Outcome, Refused};
use rdf::refusal::Refusal;
use rdf::term::Term;
use rdf::triple::{NO_TRIPLE, Triple};
use single::Single;
use std::io;

fn triple(subject: u32, predicate: u32, object: u32) -> Triple {
    Triple {
        subject: Term(subject),
        predicate: Term(predicate),
        object: Term(object),
    }
}

// The triple of which the object is the n-th identifier.
fn numbered(n: u32) -> Triple {
    triple(17, 1, n.saturating_mul(4).saturating_add(1))
}

// Prints a change and what came of it.
fn print_change(
    rt: &impl Print,
    name: &str,
    t: Triple,
    answer: Result<(), Refusal>,
) -> io::Result<()> {
    println!(rt; "  {name} {}: {}", Numbers(t), Outcome(answer))
}

fn add<G: EditableGraph>(rt: &impl Print, graph: &mut G, t: Triple) -> io::Result<()> {
    let answer = graph.add(t);
    print_change(rt, "add", t, answer)
}

fn remove<G: EditableGraph>(rt: &impl Print, graph: &mut G, t: Triple) -> io::Result<()> {
    let answer = graph.remove(t);
    print_change(rt, "remove", t, answer)
}

fn print_free<G: EditableGraph>(rt: &impl Print, graph: &G) -> io::Result<()> {
    let free = graph.free();
    println!(rt; "  free: {free}")
}

fn print_memory(
    rt: &impl Print,
    count: Result<usize, Refusal>,
    memory: &[Triple],
) -> io::Result<()> {
    match count {
        Ok(count) => println!(rt; "  {count} triples")?,
        Err(refusal) => println!(rt; "  {}", Refused(refusal))?,
    }
    for place in memory {
        if place.is_triple() {
            println!(rt; "    {}", Numbers(*place))?;
        }
    }
    Ok(())
}

// Reads the graph into 40 places and prints the triples.
fn print_all<G: Graph>(rt: &impl Print, graph: &G) -> io::Result<()> {
    let mut memory = [NO_TRIPLE; 40];
    let count = read_all(graph, &mut memory);
    print_memory(rt, count, &memory)
}

fn mark_many(rt: &impl Print) -> io::Result<()> {
    println!(rt; "An overlay has places for 32 marks:")?;
    let entries = [numbered(3)];
    let mut overlay = Overlay::new(TripleList::new(&entries));
    for n in 10..42 {
        let _accepted = overlay.add(numbered(n));
    }
    print_free(rt, &overlay)?;
    add(rt, &mut overlay, numbered(42))?;
    add(rt, &mut overlay, numbered(3))?;
    add(rt, &mut overlay, numbered(10))?;
    remove(rt, &mut overlay, numbered(3))?;
    remove(rt, &mut overlay, numbered(11))?;
    print_free(rt, &overlay)?;
    add(rt, &mut overlay, numbered(42))?;
    print_free(rt, &overlay)?;
    print_all(rt, &overlay)
}

// Marks a triple beneath and one that is not, on any graph.
fn mark_both<G: Graph + Drop>(rt: &impl Print, base: G) -> io::Result<()> {
    let mut overlay = Overlay::new(base);
    remove(rt, &mut overlay, triple(2, 5, 9))?;
    add(rt, &mut overlay, triple(21, 1, 6))?;
    print_free(rt, &overlay)?;
    print_all(rt, &overlay)?;
    mark_again(rt, overlay)
}

// The same triples the other way round, on an overlay over it.
fn mark_again<G: Graph + Drop>(rt: &impl Print, base: G) -> io::Result<()> {
    let mut overlay = Overlay::new(base);
    add(rt, &mut overlay, triple(2, 5, 9))?;
    remove(rt, &mut overlay, triple(21, 1, 6))?;
    print_all(rt, &overlay)
}

fn layers(rt: &impl Print) -> io::Result<()> {
    println!(rt; "Overlay over overlay over a list with repeats and what is no triple:")?;
    let entries = [
        triple(17, 1, 2),
        triple(2, 5, 9),
        triple(4, 5, 9),
        triple(17, 1, 2),
        triple(2, 6, 9),
        triple(2, 5, 8),
    ];
    mark_both(rt, TripleList::new(&entries))
}

fn print_union<L: Graph + Drop, R: Graph + Drop>(
    rt: &impl Print,
    left: L,
    right: R,
) -> io::Result<()> {
    let mut sealed = Sealed::new(UnionGraph::new(left, right));
    print_all(rt, &sealed)?;
    print_free(rt, &sealed)?;
    add(rt, &mut sealed, triple(2, 5, 9))?;
    add(rt, &mut sealed, triple(2, 5, 13))?;
    remove(rt, &mut sealed, triple(2, 5, 9))
}

fn print_overlay_union<L: Graph + Drop, R: Graph + Drop>(
    rt: &impl Print,
    left: L,
    right: R,
) -> io::Result<()> {
    let mut overlay = Overlay::new(left);
    add(rt, &mut overlay, triple(2, 5, 9))?;
    add(rt, &mut overlay, triple(17, 1, 2))?;
    print_union(rt, overlay, right)
}

fn union(rt: &impl Print) -> io::Result<()> {
    println!(rt; "Union of an overlay and a stored graph, sealed:")?;
    let mut places = [NO_TRIPLE; 2];
    let mut stored = StoredGraph::new(&mut places);
    add(rt, &mut stored, triple(21, 1, 6))?;
    add(rt, &mut stored, triple(17, 1, 2))?;
    add(rt, &mut stored, triple(17, 1, 2))?;
    add(rt, &mut stored, triple(2, 5, 9))?;
    print_free(rt, &stored)?;
    let single = Single {
        triple: triple(6, 5, 9),
    };
    print_overlay_union(rt, single, stored)
}

fn no_places(rt: &impl Print) -> io::Result<()> {
    println!(rt; "A stored graph of no places:")?;
    let mut places = [NO_TRIPLE; 0];
    let mut stored = StoredGraph::new(&mut places);
    add(rt, &mut stored, triple(17, 1, 2))?;
    remove(rt, &mut stored, triple(17, 1, 2))?;
    add(rt, &mut stored, triple(17, 2, 1))?;
    print_free(rt, &stored)?;
    print_all(rt, &stored)
}

fn one_triple(rt: &impl Print) -> io::Result<()> {
    println!(rt; "A graph of one triple, and overlays over it:")?;
    let single = Single {
        triple: triple(2, 5, 9),
    };
    print_all(rt, &single)?;
    mark_both(rt, single)
}

fn joined(rt: &impl Print) -> io::Result<()> {
    println!(rt; "An overlay over a stored graph and a list, joined, with a triple added:")?;
    let entries = [triple(17, 1, 2), triple(2, 5, 9)];
    let mut places = [numbered(7); 2];
    let mut memory = [NO_TRIPLE; 3];
    let read = read_pair(&mut places, &entries, triple(6, 5, 9), &mut memory);
    print_change(rt, "add", triple(6, 5, 9), read.change)?;
    print_memory(rt, read.count, &memory)
}

fn main(rt: HostRuntime) -> io::Result<()> {
    mark_many(&rt)?;
    layers(&rt)?;
    union(&rt)?;
    no_places(&rt)?;
    one_triple(&rt)?;
    joined(&rt)
}
