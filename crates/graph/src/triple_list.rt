// A graph that is lent as a list, for reading only.
ghost use Rattle.std.specs.Prelude.{◌≡◌, true, ◌&&◌, if◌then◌else◌, Some, None, fold, not, drop, refl};
ghost use Rattle.std.specs.List.{prefix_len};
ghost use Rattle.std.specs.Ordering.{is_lt};
ghost use Rattle.order.specs.Sets.{lesser};
ghost use Rattle.rdf.specs.Triples.{compare_triples, is_triple};
ghost use Rattle.graph.specs.Histories.{account, listed, make_of, set_of};
ghost use Rattle.graph.specs.Makes.{read_only};
ghost use Rattle.graph.specs.GraphLaws.{set_of_lawful};

use crate::graph::Graph;
use order::total::TotalOrder;
use rdf::triple::Triple;

// The entries in any order, with repeats; those that are no triples do not count.
#[derive(Clone, Copy)]
pub struct TripleList<'a> {
    entries: &'a [Triple],
}

// The better of the best so far and a candidate, which counts if it is a triple above `after`.
// The comparisons stand first, since most candidates fail one of them.
fn nearer(after: Triple, best: Option<Triple>, candidate: Triple) -> Option<Triple>
    ensures { result ≡ (if is_triple candidate && is_lt (compare_triples after candidate) then lesser compare_triples best (Some candidate) else best) }
{
    if best.is_none_or(|least| candidate.order(&least).is_lt())
        && after.order(&candidate).is_lt()
        && candidate.is_triple()
    {
        Some(candidate)
    } else {
        best
    }
}

impl<'a> TripleList<'a> {
    pub fn new(entries: &'a [Triple]) -> Self
        ensures kept { result.entries.now ≡ entries.now }
        ensures history { account (listed entries.now) ≡ ⟦<TripleList<'a> as Graph>⟧.triples result }
        ensures make { make_of (listed entries.now) ≡ ⟦<TripleList<'a> as Graph>⟧.make result }
    {
        TripleList { entries }
    }

    // The least of the entries that are triples above `after`. Those before the first of them are passed over.
    fn least_above(&self, after: Triple) -> Option<Triple>
        ensures { result ≡ fold (λ best entry. if is_triple entry && is_lt (compare_triples after entry) then lesser compare_triples best (Some entry) else best) None (drop (prefix_len (λ entry. not (is_triple entry && is_lt (compare_triples after entry))) self.now.entries.now) self.now.entries.now) }
    {
        self.entries
            .iter()
            .copied()
            .skip_while(|entry| !(entry.is_triple() && after.order(entry).is_lt()))
            .fold(None, |best, entry| nearer(after, best, entry))
    }
}

impl<'a> Graph for TripleList<'a> {
    ghost triples = { λ g. set_of g.entries.now };

    ghost lawful = { λ g. set_of_lawful g.entries.now };

    ghost make = { λ g. read_only };

    ghost room = { λ g. 0 };

    ghost full = { λ g c. true };

    ghost ruled = { λ g. (refl, λ c. refl) };

    fn next(&self, after: Triple) -> Option<Triple> {
        self.least_above(after)
    }
}
