// A graph of any kind as one that takes calls and has no place for a change.
ghost use Rattle.std.specs.Prelude.{◌≡◌, true, refl};
ghost use Rattle.std.proofs.Common.{◌∙◌};
ghost use Rattle.graph.specs.Calls.{Applied};
ghost use Rattle.graph.specs.Histories.{History, account, make_of, sealed};
ghost use Rattle.graph.specs.Makes.{read_only};

use crate::change::Change;
use crate::editable_graph::EditableGraph;
use crate::graph::Graph;
use rdf::refusal::Refusal;
use rdf::triple::Triple;

// How many places a sealed graph has for changes.
const NO_PLACES: usize = 0;

// Means the set of the graph that it holds. A change without effect is accepted, and every other is refused.
#[derive(Drop)]
pub struct Sealed<G> {
    graph: G,
}

impl<G: Graph> Sealed<G> {
    pub fn new(graph: G) -> Self
        ensures kept { result.graph ≡ graph }
        ensures history { (h : History) → account h ≡ G.Graph.triples graph → account (sealed h) ≡ ⟦<Sealed<G> as Graph>⟧.triples result }
        ensures make { (h : History) → make_of (sealed h) ≡ ⟦<Sealed<G> as Graph>⟧.make result }
    {
        Sealed { graph }
    }

    // What comes of a change: it is accepted only where it has no effect.
    fn answer(&self, change: Change) -> Result<(), Refusal>
        ensures { Applied change true (G.Graph.triples self.now.graph) (G.Graph.triples self.now.graph) 0 0 result }
    {
        if change.has_effect(&self.graph)? {
            return Err(Refusal::NoPlace);
        }
        Ok(())
    }
}

impl<G: Graph> Graph for Sealed<G> {
    ghost triples = { λ s. G.Graph.triples s.graph };

    ghost lawful = { λ s. G.Graph.lawful s.graph };

    ghost make = { λ s. read_only };

    ghost room = { λ s. 0 };

    ghost full = { λ s c. true };

    ghost ruled = { λ s. (refl, λ c. refl) };

    fn next(&self, after: Triple) -> Option<Triple> {
        self.graph.next(after)
    }
}

impl<G: Graph> EditableGraph for Sealed<G> {
    // No call alters anything.
    ghost frame = { λ s k. k ≡ s };

    ghost still = { λ s. refl };

    ghost onward = { λ s k j e f. f ∙ e };

    ghost unaltered = { λ s k. k ≡ s };

    fn add(&mut self, triple: Triple) -> Result<(), Refusal> {
        self.answer(Change::Add(triple))
    }

    fn remove(&mut self, triple: Triple) -> Result<(), Refusal> {
        self.answer(Change::Remove(triple))
    }

    fn free(&self) -> usize {
        NO_PLACES
    }
}
