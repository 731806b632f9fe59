// Recipes for graphs: how a graph and its parts are opened, and which calls of a log are made on which of them.
ghost use Rattle.std.specs.Prelude.{◌≡◌, ℕ, List, [], map, length, take, drop, replicate};
ghost use Rattle.rdf.specs.Triples.{no_triple};
ghost use Rattle.graph.specs.Histories.{make_of};
ghost use Rattle.history.specs.declared.step.Step.{Step};
ghost use Rattle.history.specs.Courses.{Course, account_of, emptied, history_of, joined, laid_over, listed, opened, sealed, since};
ghost use Rattle.history.specs.Memories.{SamePlaces};
ghost use Rattle.history.specs.Replies.{Leaves, reading_since, rows_since};
ghost use Rattle.history.specs.Runs.{Ran};

use crate::memory::Memory;
use crate::run::run;
use crate::step::Step;
use graph::editable_graph::EditableGraph;
use graph::graph::Graph;
use graph::overlay::Overlay;
use graph::sealed::Sealed;
use graph::stored_graph::StoredGraph;
use graph::triple_list::TripleList;
use graph::union_graph::UnionGraph;
use rdf::triple::Triple;

// A recipe for a graph. One log has the calls for all parts: the parts come before the whole, the left part before the right.
pub trait Opening {
    type Made: Graph + Drop;

    // How the graph and its parts were opened, and the calls on them with the answers that the log has.
    ghost course: { Self → List Step → Course };

    // Steps of the log that are for parts which take no calls are not carried out, and stay as they were.
    ghost idle: { Self → List Step → List Step → Type 0 };

    // The states that the graph and its parts went through, from how they were opened, call by call, to this graph.
    ghost runs: { Self → ℕ → ℕ → List Step → Self.Made → Type 0 };

    // Opens the graph, carries out the calls on its parts and on it, and writes each answer beside its call.
    fn open(self, log: &mut [Step], memory: &mut Memory) -> Self::Made
        ensures calls { map (λ x. x.call) log.new ≡ map (λ x. x.call) log.old }
        ensures idle { idle self log.old log.new }
        ensures same { SamePlaces memory.old memory.new }
        ensures runs { runs self (length memory.old.reading.now) (length memory.old.rows.now) log.new result }
        ensures account { Self.Made.Graph.triples result ≡ account_of (course self log.new) }
        ensures make { Self.Made.Graph.make result ≡ make_of (history_of (course self log.new)) }
        ensures answers { Leaves (length memory.old.reading.now) (length memory.old.rows.now) (course self log.new) (Self.Made.Graph.room result) (Self.Made.Graph.full result) }
        ensures reading { memory.new.reading.now ≡ reading_since (length memory.old.reading.now) (length memory.old.rows.now) (course self log.new) memory.old.reading.now }
        ensures rows { memory.new.rows.now ≡ rows_since (length memory.old.reading.now) (length memory.old.rows.now) (course self log.new) memory.old.rows.now };
}

// A list of entries. It takes no calls.
#[derive(Drop)]
pub struct Listed<'a> {
    pub entries: &'a [Triple],
}

impl<'a> Opening for Listed<'a> {
    type Made = TripleList<'a>;

    ghost course = { λ o l. listed o.entries.now };

    ghost idle = { λ o k l. l ≡ k };

    ghost runs = { λ o i j l g. g.entries.now ≡ o.entries.now };

    fn open(self, log: &mut [Step], memory: &mut Memory) -> TripleList<'a> {
        TripleList::new(self.entries)
    }
}

// A stored graph in lent places, which are emptied.
#[derive(Drop)]
pub struct Stored<'a> {
    pub places: &'a mut [Triple],
}

impl<'a> Opening for Stored<'a> {
    type Made = StoredGraph<'a>;

    ghost course = { λ o l. emptied (length o.places.now) };

    ghost idle = { λ o k l. l ≡ k };

    ghost runs = { λ o i j l g. (g.list.places.ghost_name ≡ o.places.ghost_name) × (g.list.places.now ≡ replicate (length o.places.now) no_triple) };

    fn open(self, log: &mut [Step], memory: &mut Memory) -> StoredGraph<'a> {
        let places = self.places;
        StoredGraph::new(places)
    }
}

// A graph of any make, as it is.
#[derive(Drop)]
pub struct Ready<G> {
    pub graph: G,
}

impl<G: Graph + Drop> Opening for Ready<G> {
    type Made = G;

    ghost course = { λ o l. opened (G.Graph.make o.graph) (G.Graph.triples o.graph) (G.Graph.room o.graph) (G.Graph.full o.graph) };

    ghost idle = { λ o k l. l ≡ k };

    ghost runs = { λ o i j l g. g ≡ o.graph };

    fn open(self, log: &mut [Step], memory: &mut Memory) -> G {
        self.graph
    }
}

// A graph that takes the calls of an editable one, and has no place for a change. All steps of the log are for what is sealed.
#[derive(Drop)]
pub struct Shut<O> {
    pub opening: O,
}

impl<O: Opening> Opening for Shut<O> {
    type Made = Sealed<O::Made>;

    ghost course = { λ o l. sealed (O.Opening.course o.opening l) };

    ghost idle = { λ o k l. O.Opening.idle o.opening k l };

    ghost runs = { λ o i j l g. O.Opening.runs o.opening i j l g.graph };

    fn open(self, log: &mut [Step], memory: &mut Memory) -> Sealed<O::Made> {
        Sealed::new(self.opening.open(log, memory))
    }
}

// An overlay over a graph. All steps of the log are for the graph beneath, before it is covered.
#[derive(Drop)]
pub struct LaidOver<O> {
    pub beneath: O,
}

impl<O: Opening> Opening for LaidOver<O> {
    type Made = Overlay<O::Made>;

    ghost course = { λ o l. laid_over (O.Opening.course o.beneath l) };

    ghost idle = { λ o k l. O.Opening.idle o.beneath k l };

    ghost runs = { λ o i j l g. O.Opening.runs o.beneath i j l g.base × (g.marks ≡ []) };

    fn open(self, log: &mut [Step], memory: &mut Memory) -> Overlay<O::Made> {
        Overlay::new(self.beneath.open(log, memory))
    }
}

// Two graphs joined. The first `split` steps of the log are for the left one, the others for the right one.
#[derive(Drop)]
pub struct Joined<A, B> {
    pub left: A,
    pub right: B,
    pub split: usize,
}

impl<A: Opening, B: Opening> Opening for Joined<A, B> {
    type Made = UnionGraph<A::Made, B::Made>;

    ghost course = { λ o l. joined (A.Opening.course o.left (take o.split l)) (B.Opening.course o.right (drop o.split l)) };

    ghost idle = { λ o k l. A.Opening.idle o.left (take o.split k) (take o.split l) × B.Opening.idle o.right (drop o.split k) (drop o.split l) };

    ghost runs = { λ o i j l g. A.Opening.runs o.left i j (take o.split l) g.left × B.Opening.runs o.right i j (drop o.split l) g.right };

    fn open(self, log: &mut [Step], memory: &mut Memory) -> UnionGraph<A::Made, B::Made> {
        let split = self.split.min(log.len());
        // Kept: tried `split_at_mut`: of the whole log at the end only the length is then known.
        let left = self.left.open(&mut log[..split], memory);
        let right = self.right.open(&mut log[split..], memory);
        UnionGraph::new(left, right)
    }
}

// A graph on which calls are made. The first `split` steps of the log are for its opening; the others are calls on it after that.
#[derive(Drop)]
pub struct Called<O> {
    pub opening: O,
    pub split: usize,
}

impl<O: Opening> Opening for Called<O>
where
    O::Made: EditableGraph,
{
    type Made = O::Made;

    ghost course = { λ o l. since (O.Opening.course o.opening (take o.split l)) (drop o.split l) };

    ghost idle = { λ o k l. O.Opening.idle o.opening (take o.split k) (take o.split l) };

    ghost runs = { λ o i j l g. (k : O.Made) × O.Opening.runs o.opening i j (take o.split l) k × Ran O.Made.make O.Made.triples O.Made.room O.Made.full O.Made.frame O.Made.unaltered i j k (drop o.split l) g };

    fn open(self, log: &mut [Step], memory: &mut Memory) -> O::Made {
        let split = self.split.min(log.len());
        // Kept: tried `split_at_mut`, with the same outcome as in `Joined`.
        let mut graph = self.opening.open(&mut log[..split], memory);
        run(&mut graph, &mut log[split..], memory);
        graph
    }
}
