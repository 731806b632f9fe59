// Two graphs read as one.
ghost use Rattle.std.specs.Prelude.{◌≡◌, true, refl};
ghost use Rattle.order.specs.Sets.{insert_all};
ghost use Rattle.rdf.specs.Triples.{compare_triples};
ghost use Rattle.graph.specs.Histories.{History, account, joined, make_of};
ghost use Rattle.graph.specs.Makes.{read_only};
ghost use Rattle.graph.specs.GraphLaws.{union_lawful};

use crate::graph::{Graph, lesser_of};
use rdf::triple::Triple;

// Holds two graphs and means the union of their sets, for reading only.
#[derive(Drop)]
pub struct UnionGraph<L, R> {
    left: L,
    right: R,
}

impl<L: Graph, R: Graph> UnionGraph<L, R> {
    pub fn new(left: L, right: R) -> Self
        ensures kept { (result.left ≡ left) × (result.right ≡ right) }
        ensures history { (h k : History) → account h ≡ L.Graph.triples left → account k ≡ R.Graph.triples right → account (joined h k) ≡ ⟦<UnionGraph<L, R> as Graph>⟧.triples result }
        ensures make { (h k : History) → make_of (joined h k) ≡ ⟦<UnionGraph<L, R> as Graph>⟧.make result }
    {
        UnionGraph { left, right }
    }
}

impl<L: Graph, R: Graph> Graph for UnionGraph<L, R> {
    ghost triples = { λ g. insert_all compare_triples (L.Graph.triples g.left) (R.Graph.triples g.right) };

    ghost lawful = { λ g. union_lawful (L.Graph.triples g.left) (R.Graph.triples g.right) (L.Graph.lawful g.left) (R.Graph.lawful g.right) };

    ghost make = { λ g. read_only };

    ghost room = { λ g. 0 };

    ghost full = { λ g c. true };

    ghost ruled = { λ g. (refl, λ c. refl) };

    fn next(&self, after: Triple) -> Option<Triple> {
        lesser_of(self.left.next(after), self.right.next(after))
    }
}
