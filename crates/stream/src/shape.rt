// The shapes of graphs, each built from the inside out.
use crate::case::{Desk, ask, calls};
use crate::fault::{Cause, Fault};
use crate::kinds::{GraphKind, Shape};
use crate::numbers::Numbers;
use crate::record::list;
use graph::graph::Graph;
use graph::overlay::Overlay;
use graph::stored_graph::StoredGraph;
use graph::triple_list::TripleList;
use graph::union_graph::UnionGraph;
use rdf::triple::{NO_TRIPLE, Triple};
use std::alloc::Global;
use std::io::Write;

// Takes the number of the kind that is due.
// Kept: a number that is no kind and a kind that is not due are one fault, so a `TryFrom` would tell them apart for nothing.
fn due<W: Write>(desk: &mut Desk<W>, kind: GraphKind) -> Result<(), Cause> {
    if desk.numbers.next()? == kind as u32 {
        Ok(())
    } else {
        Err(Cause::Misfit)
    }
}

// What is done with a graph once it is read.
trait Next {
    fn go_on<G: Graph + Drop, W: Write>(self, desk: &mut Desk<W>, graph: G) -> Result<(), Cause>;
}

// The graph is asked.
#[derive(Clone, Copy)]
struct Asked;

impl Next for Asked {
    fn go_on<G: Graph + Drop, W: Write>(self, desk: &mut Desk<W>, graph: G) -> Result<(), Cause> {
        ask(desk, &graph)
    }
}

// An overlay is laid over the graph, and changed by the calls that follow.
#[derive(Clone, Copy)]
struct Overlaid<N>(N);

impl<N: Next + Drop> Next for Overlaid<N> {
    fn go_on<G: Graph + Drop, W: Write>(self, desk: &mut Desk<W>, graph: G) -> Result<(), Cause> {
        let mut overlay = Overlay::new(graph);
        calls(desk, &mut overlay)?;
        self.0.go_on(desk, overlay)
    }
}

// The graph is joined with the list that follows.
#[derive(Clone, Copy)]
struct JoinedWithList<N>(N);

impl<N: Next + Drop> Next for JoinedWithList<N> {
    fn go_on<G: Graph + Drop, W: Write>(self, desk: &mut Desk<W>, graph: G) -> Result<(), Cause> {
        let entries = entries(desk)?;
        self.0
            .go_on(desk, UnionGraph::new(graph, TripleList::new(&entries)))
    }
}

// The graph is joined with the stored graph that follows.
#[derive(Clone, Copy)]
struct JoinedWithStored<N>(N);

impl<N: Next + Drop> Next for JoinedWithStored<N> {
    fn go_on<G: Graph + Drop, W: Write>(self, desk: &mut Desk<W>, graph: G) -> Result<(), Cause> {
        let mut places = places(desk)?;
        let mut stored = StoredGraph::new(&mut places);
        calls(desk, &mut stored)?;
        self.0.go_on(desk, UnionGraph::new(graph, stored))
    }
}

// The entries of the list that is due.
fn entries<W: Write>(desk: &mut Desk<W>) -> Result<Vec<Triple>, Cause> {
    due(desk, GraphKind::List)?;
    list(&mut desk.numbers, desk.heap)
}

// The places of the stored graph that is due.
fn places<W: Write>(desk: &mut Desk<W>) -> Result<Vec<Triple>, Cause> {
    due(desk, GraphKind::Stored)?;
    let count = desk.numbers.count()?;
    let places = vec![in desk.heap; NO_TRIPLE; count]?;
    Ok(places)
}

// Goes on with the list that is due.
fn of_list<W: Write, N: Next + Drop>(desk: &mut Desk<W>, next: N) -> Result<(), Cause> {
    let entries = entries(desk)?;
    next.go_on(desk, TripleList::new(&entries))
}

// Goes on with the stored graph that is due, after its calls.
fn of_stored<W: Write, N: Next + Drop>(desk: &mut Desk<W>, next: N) -> Result<(), Cause> {
    let mut places = places(desk)?;
    let mut stored = StoredGraph::new(&mut places);
    calls(desk, &mut stored)?;
    next.go_on(desk, stored)
}

// The kinds that a shape has outside its innermost graph.
fn layers(shape: Shape) -> &'static [GraphKind] {
    match shape {
        Shape::List | Shape::Stored => &[],
        Shape::OverlayOfList | Shape::OverlayOfStored => &[GraphKind::Overlay],
        Shape::UnionOfListAndStored => &[GraphKind::Union],
        Shape::OverlayOfUnion => &[GraphKind::Overlay, GraphKind::Union],
        Shape::OverlayOfOverlay => &[GraphKind::Overlay, GraphKind::Overlay],
        Shape::UnionOfOverlayAndList => &[GraphKind::Union, GraphKind::Overlay],
    }
}

// A case of the shape that the next number chooses.
fn case<W: Write>(desk: &mut Desk<W>) -> Result<(), Cause> {
    let shape = desk.numbers.choice()?;
    for layer in layers(shape) {
        due(desk, *layer)?;
    }
    match shape {
        Shape::List => of_list(desk, Asked),
        Shape::Stored => of_stored(desk, Asked),
        Shape::OverlayOfList => of_list(desk, Overlaid(Asked)),
        Shape::OverlayOfStored => of_stored(desk, Overlaid(Asked)),
        Shape::UnionOfListAndStored => of_list(desk, JoinedWithStored(Asked)),
        Shape::OverlayOfUnion => of_list(desk, JoinedWithList(Overlaid(Asked))),
        Shape::OverlayOfOverlay => of_list(desk, Overlaid(Overlaid(Asked))),
        Shape::UnionOfOverlayAndList => of_stored(desk, Overlaid(JoinedWithList(Asked))),
    }
}

// All cases, to the end of the text.
fn cases<W: Write>(desk: &mut Desk<W>) -> Result<(), Cause> {
    let count = desk.numbers.count()?;
    for _ in 0..count {
        case(desk)?;
    }
    desk.numbers.finish()?;
    desk.out.flush()?;
    Ok(())
}

// Answers a whole stream; a fault says where it ends early.
pub(crate) fn answer<W: Write + Drop>(heap: Global, text: &[u8], out: W) -> Result<(), Fault> {
    let mut desk = Desk {
        numbers: Numbers::new(text),
        out,
        heap,
    };
    cases(&mut desk).map_err(|cause| Fault {
        place: desk.numbers.place(),
        cause,
    })
}
