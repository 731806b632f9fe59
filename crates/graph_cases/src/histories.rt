// A graph built of every kind, read whole: the answer is told by how its parts were opened and changed, and by nothing else.
ghost use Rattle.std.specs.Prelude.{◌≡◌, length};
ghost use Rattle.graph.specs.Changes.{accepted, adding};
ghost use Rattle.graph.specs.Histories.{History, account, change_called, emptied, joined, laid_over, listed, then_called};
ghost use Rattle.graph.specs.Reading.{read_count, read_places};

use graph::editable_graph::EditableGraph;
use graph::graph::Graph;
use graph::overlay::Overlay;
use graph::reading::read_all;
use graph::stored_graph::StoredGraph;
use graph::triple_list::TripleList;
use graph::union_graph::UnionGraph;
use rdf::refusal::Refusal;
use rdf::triple::Triple;

// What came of the change, and of the reading.
#[derive(Clone, Copy)]
pub struct Read {
    pub change: Result<(), Refusal>,
    pub count: Result<usize, Refusal>,
}

// Joins two graphs, lays an overlay over both, adds a triple to it and reads it.
pub fn read_over<L: Graph + Drop, R: Graph + Drop>(
    left: L,
    right: R,
    triple: Triple,
    memory: &mut [Triple],
) -> Read
    ensures count { (h k : History) → account h ≡ L.Graph.triples left → account k ≡ R.Graph.triples right → result.count ≡ read_count (account (then_called (laid_over (joined h k)) (change_called (adding triple) (accepted result.change)))) (length memory.old) }
    ensures memory { (h k : History) → account h ≡ L.Graph.triples left → account k ≡ R.Graph.triples right → memory.new ≡ read_places (account (then_called (laid_over (joined h k)) (change_called (adding triple) (accepted result.change)))) (length memory.old) }
{
    let mut overlay = Overlay::new(UnionGraph::new(left, right));
    let change = overlay.add(triple);
    let count = read_all(&overlay, memory);
    Read { change, count }
}

// The same over a stored graph, whose places are emptied, and a list.
pub fn read_pair(
    places: &mut [Triple],
    entries: &[Triple],
    triple: Triple,
    memory: &mut [Triple],
) -> Read
    ensures count { result.count ≡ read_count (account (then_called (laid_over (joined (emptied (length places.old)) (listed entries.now))) (change_called (adding triple) (accepted result.change)))) (length memory.old) }
    ensures memory { memory.new ≡ read_places (account (then_called (laid_over (joined (emptied (length places.old)) (listed entries.now))) (change_called (adding triple) (accepted result.change)))) (length memory.old) }
{
    let stored = StoredGraph::new(places);
    let list = TripleList::new(entries);
    read_over(stored, list, triple, memory)
}
