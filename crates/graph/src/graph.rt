// What every kind of graph means.
ghost use Rattle.std.specs.Prelude.{◌≡◌, ℕ, Bool};
ghost use Rattle.order.specs.Sets.{above, holds, lesser};
ghost use Rattle.rdf.specs.Triples.{TripleSet, compare_triples};
ghost use Rattle.graph.specs.Changes.{Change, Triples};
ghost use Rattle.graph.specs.Makes.{Make, Ruled};

use order::total::TotalOrder;
use rdf::term::Term;
use rdf::triple::Triple;

// A finite set of triples that can be read in order. What reads it takes it by `&`, so that the whole graph is what it was before.
pub trait Graph {
    // The set, ascending.
    ghost triples: { Self → Triples };

    // It is strictly ascending and has triples only.
    ghost lawful: { (g : Self) → TripleSet (triples g) };

    // What rules its free places.
    ghost make: { Self → Make };

    // How many places are free for changes.
    ghost room: { Self → ℕ };

    // Whether a change, if it has an effect, finds no place.
    ghost full: { Self → Change → Bool };

    // The free places are as its make says.
    ghost ruled: { (g : Self) → Ruled (make g) (triples g) (room g) (full g) };

    // The least triple of the set above any three numbers.
    fn next(&self, after: Triple) -> Option<Triple>
        ensures { result ≡ above compare_triples after (triples self.now) };
}

// The lesser of two triples, or the one that there is.
pub fn lesser_of(left: Option<Triple>, right: Option<Triple>) -> Option<Triple>
    ensures { result ≡ lesser compare_triples left right }
{
    match (left, right) {
        (Some(a), Some(b)) if b.order(&a).is_lt() => right,
        (None, _) => right,
        _ => left,
    }
}

// Whether the triple is in the set: it is the next one above the three numbers just before it.
pub fn contains<G: Graph>(graph: &G, triple: Triple) -> bool
    ensures { result ≡ holds compare_triples triple (G.triples graph.now) }
{
    let Some(before) = triple.object.0.checked_sub(1) else {
        return false;
    };
    let just_before = Triple {
        object: Term(before),
        ..triple
    };
    graph.next(just_before) == Some(triple)
}
