// The marked triples of an overlay.
ghost use Rattle.std.specs.Prelude.{◌≡◌, ◌<◌, ◌≤◌, length, true, false, [], if◌then◌else◌, Ok, Err};
ghost use Rattle.order.specs.Sets.{holds, insert, without};
ghost use Rattle.rdf.specs.Triples.{TripleSet, compare_triples, is_triple};
ghost use Rattle.rdf.specs.declared.refusal.Refusal.TheVariants.{NoPlace};
ghost use Rattle.graph.specs.Changes.{accepted};
ghost use Rattle.graph.specs.Makes.{no_mark, turned, unused};

use order::list::OrderedList;
use rdf::refusal::Refusal;
use rdf::triple::{NO_TRIPLE, Triple};
use std::marker::Model;

// Up to 32 triples, ascending. None can be marked twice, and nothing that is no triple.
// Kept: no heap outside the programs, so an overlay owns an array and how many of its places are marks.
#[derive(Drop)]
pub(crate) struct Marks {
    places: [Triple; 32],
    count: usize,
}

impl Model for Marks {
    ghost use Rattle.std.specs.Prelude.{◌≡◌, ◌≤◌, List, length, take};
    ghost use Rattle.rdf.specs.Triples.{TripleSet};
    ghost use Rattle.rdf.specs.declared.triple.Triple.{Triple as Three};

    ghost Value = { List Three };

    ghost view = { λ m. take m.count m.places };

    ghost invariant = { λ m. (length m.places ≡ 32) × (m.count ≤ 32) × TripleSet (take m.count m.places) };
}

impl Marks {
    pub(crate) fn new() -> Self
        ensures { result ≡ [] }
    {
        Marks {
            places: [NO_TRIPLE; 32],
            count: 0,
        }
    }

    // The marked triples, ascending. A caller sees these alone, so `lawful` states what is true of them.
    pub(crate) fn as_slice(&self) -> &[Triple]
        ensures marked { result.now ≡ self.now }
        ensures lawful { TripleSet self.now }
        ensures few { length self.now ≤ 32 }
    {
        &self.places[..self.count]
    }

    pub(crate) fn contains(&self, triple: &Triple) -> bool
        ensures lawful { TripleSet self.now }
        ensures few { length self.now ≤ 32 }
        ensures marked { result ≡ holds compare_triples triple.now self.now }
    {
        self.as_slice().contains(triple)
    }

    // How many more triples can be marked.
    pub(crate) fn free(&self) -> usize
        ensures { result ≡ unused self.now }
    {
        32 - self.count
    }

    // Marks a triple that is not marked.
    fn insert(&mut self, triple: Triple)
        requires fits { 0 < unused self.old }
        requires valid { is_triple triple ≡ true }
        requires unmarked { holds compare_triples triple self.old ≡ false }
        ensures marks { self.new ≡ insert compare_triples triple self.old }
        ensures lawful { TripleSet self.new }
        ensures few { length self.new ≤ 32 }
    {
        let count = self.count;
        let mut list = OrderedList::of_first(&mut self.places, count);
        let _made = list.put(triple);
        self.count = list.len();
    }

    // Takes the mark off a marked triple.
    fn remove(&mut self, triple: Triple)
        requires { holds compare_triples triple self.old ≡ true }
        ensures marks { self.new ≡ without compare_triples triple self.old }
        ensures lawful { TripleSet self.new }
        ensures few { length self.new ≤ 32 }
    {
        let count = self.count;
        let mut list = OrderedList::of_first(&mut self.places, count);
        let _taken = list.take_out(&triple, NO_TRIPLE);
        self.count = list.len();
    }

    // Turns the mark of a triple: off where it is on, on where it is off and there is a place for it.
    #[tactic(auto, using(crate::proofs::MarkLaws::put_on, crate::proofs::MarkLaws::taken_off))]
    pub(crate) fn turn(&mut self, triple: Triple) -> Result<(), Refusal>
        requires { is_triple triple ≡ true }
        ensures answer { result ≡ (if no_mark self.old triple then Err NoPlace else Ok tt) }
        ensures marks { self.new ≡ (if accepted result then turned self.old triple else self.old) }
        ensures lawful { TripleSet self.new }
        ensures few { length self.new ≤ 32 }
    {
        if self.contains(&triple) {
            self.remove(triple);
            return Ok(());
        }
        if self.free() == 0 {
            return Err(Refusal::NoPlace);
        }
        self.insert(triple);
        Ok(())
    }
}
