// A graph of a make that the library does not know: one triple in a struct.
ghost use Rattle.std.specs.Prelude.{true, [], ◌∷◌, refl};
ghost use Rattle.graph.specs.GraphLaws.{set_of_lawful};
ghost use Rattle.graph.specs.Histories.{set_of};
ghost use Rattle.graph.specs.Makes.{other};

use graph::graph::Graph;
use order::total::TotalOrder;
use rdf::triple::Triple;

// Means the set of its triple, and the empty set where the three numbers are none.
#[derive(Drop)]
pub struct Single {
    pub triple: Triple,
}

impl Graph for Single {
    ghost triples = { λ g. set_of (g.triple ∷ []) };

    ghost lawful = { λ g. set_of_lawful (g.triple ∷ []) };

    ghost make = { λ g. other };

    ghost room = { λ g. 0 };

    ghost full = { λ g c. true };

    ghost ruled = { λ g c h. refl };

    fn next(&self, after: Triple) -> Option<Triple> {
        if self.triple.is_triple() && after.order(&self.triple).is_lt() {
            Some(self.triple)
        } else {
            None
        }
    }
}
