// Changes of a graph by one triple.
ghost use Rattle.std.specs.Prelude.{◌≡◌, List, if◌then◌else◌, Ok, Err};
ghost use Rattle.order.specs.Sets.{holds};
ghost use Rattle.rdf.specs.Triples.{compare_triples, is_triple};
ghost use Rattle.rdf.specs.declared.triple.Triple.{Triple as Three};
ghost use Rattle.rdf.specs.declared.refusal.Refusal.TheVariants.{NotATriple};
ghost use Rattle.graph.specs.Changes.{has_effect, triple_of};

use crate::graph::{Graph, contains};
use rdf::refusal::Refusal;
use rdf::triple::Triple;

// A call that is to change a graph's set: to put a triple in, or to take it out.
#[derive(Clone, Copy)]
pub enum Change {
    Add(Triple),
    Remove(Triple),
}

impl Change {
    // The triple that is to be put in or taken out.
    pub(crate) fn triple(self) -> Triple
        ensures { result ≡ triple_of self }
    {
        match self {
            Change::Add(triple) | Change::Remove(triple) => triple,
        }
    }

    // The triple, where its three numbers are one.
    pub(crate) fn checked(self) -> Result<Triple, Refusal>
        ensures { result ≡ (if is_triple (triple_of self) then Ok (triple_of self) else Err NotATriple) }
    {
        let triple = self.triple();
        if triple.is_triple() {
            Ok(triple)
        } else {
            Err(Refusal::NotATriple)
        }
    }

    // Whether the change makes a set another one, by whether the set holds its triple.
    pub(crate) fn alters(self, held: bool) -> bool
        ensures { (s : List Three) → held ≡ holds compare_triples (triple_of self) s → result ≡ has_effect self s }
    {
        match self {
            Change::Add(_) => !held,
            Change::Remove(_) => held,
        }
    }

    // Whether the change makes the graph's set another one. It is refused where its three numbers are no triple.
    pub(crate) fn has_effect<G: Graph>(self, graph: &G) -> Result<bool, Refusal>
        ensures { result ≡ (if is_triple (triple_of self) then Ok (has_effect self (G.Graph.triples graph.now)) else Err NotATriple) }
    {
        let triple = self.checked()?;
        Ok(self.alters(contains(graph, triple)))
    }
}
