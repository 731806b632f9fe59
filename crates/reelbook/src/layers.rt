// Graphs laid over one another.
ghost use Rattle.std.specs.Prelude.{◌≡◌, [], length};
ghost use Rattle.order.specs.Sets.{insert_all, symmetric_difference};
ghost use Rattle.rdf.specs.Triples.{compare_triples};
ghost use Rattle.graph.specs.Histories.{History, account, laid_over};
ghost use Rattle.graph.specs.Makes.{overlaid};
ghost use Rattle.graph.specs.Reading.{read_count, read_places};
ghost use Rattle.reelbook.specs.Requests.{Course, requests, since};

use crate::request::{Step, carry_out};
use graph::graph::Graph;
use graph::overlay::Overlay;
use graph::reading::read_all;
use graph::union_graph::UnionGraph;
use rdf::refusal::Refusal;
use rdf::triple::Triple;

// Lays an overlay over a graph, and carries the steps out on it.
pub fn correct<B: Graph>(base: B, steps: &mut [Step]) -> Overlay<B>
    ensures requests { requests steps.new ≡ requests steps.old }
    ensures course { Course (overlaid (B.Graph.triples base)) (B.Graph.triples base) steps.new }
    ensures history { (h : History) → account h ≡ B.Graph.triples base → account (since (laid_over h) steps.new) ≡ symmetric_difference compare_triples result.marks (B.Graph.triples result.base) }
    ensures base { result.base ≡ base }
{
    let mut overlay = Overlay::new(base);
    carry_out(&mut overlay, steps);
    overlay
}

// Reads the union of two graphs into lent memory.
pub fn read_union<L: Graph + Drop, R: Graph + Drop>(
    left: L,
    right: R,
    memory: &mut [Triple],
) -> Result<usize, Refusal>
    ensures count { result ≡ read_count (insert_all compare_triples (L.Graph.triples left) (R.Graph.triples right)) (length memory.old) }
    ensures memory { memory.new ≡ read_places (insert_all compare_triples (L.Graph.triples left) (R.Graph.triples right)) (length memory.old) }
{
    let union = UnionGraph::new(left, right);
    read_all(&union, memory)
}
