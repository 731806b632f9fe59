// A graph that is kept in lent places.
ghost use Rattle.std.specs.Prelude.{◌≡◌, ◌-◌, true, false, length, replicate, refl, if◌then◌else◌, Ok, Err};
ghost use Rattle.std.proofs.Common.{◌∙◌};
ghost use Rattle.order.specs.Lists.{every};
ghost use Rattle.order.specs.OrderedLists.{Ordered, elements, spare};
ghost use Rattle.order.specs.Sets.{above};
ghost use Rattle.rdf.specs.Triples.{compare_triples, is_triple, no_triple};
ghost use Rattle.rdf.specs.declared.refusal.Refusal.TheVariants.{NotATriple};
ghost use Rattle.graph.specs.Changes.{adding, after as leaves, alters, has_effect, removing, triple_of};
ghost use Rattle.graph.specs.Calls.{Applied};
ghost use Rattle.graph.specs.Histories.{account, emptied, make_of};
ghost use Rattle.graph.specs.Makes.{no_room, stored};
ghost use Rattle.graph.specs.Reading.{then_empty};

use crate::change::Change;
use crate::editable_graph::EditableGraph;
use crate::graph::Graph;
use order::list::OrderedList;
use rdf::refusal::Refusal;
use rdf::triple::{NO_TRIPLE, Triple};

// The places hold the set, ascending, and empty places after it. No stored graph can exist that holds anything else.
#[derive(Drop)]
pub struct StoredGraph<'a> {
    list: OrderedList<'a, Triple>,
    ghost ordered: { Ordered compare_triples list },
    ghost members: { every is_triple (elements list) ≡ true },
    ghost zeros: { spare list ≡ replicate (length (spare list)) no_triple },
}

impl<'a> StoredGraph<'a> {
    // Opens a stored graph: every place is emptied.
    pub fn new(places: &'a mut [Triple]) -> Self
        ensures same { result.list.places.ghost_name ≡ places.entry.ghost_name }
        ensures empty { result.list.places.now ≡ replicate (length places.old) no_triple }
        ensures history { account (emptied (length places.old)) ≡ ⟦<StoredGraph<'a> as Graph>⟧.triples result }
        ensures make { make_of (emptied (length places.old)) ≡ ⟦<StoredGraph<'a> as Graph>⟧.make result }
    {
        StoredGraph {
            list: OrderedList::cleared(places, NO_TRIPLE),
        }
    }

    // Gives the places back: the set, ascending, and empty places after it.
    pub fn into_places(self) -> &'a mut [Triple]
        ensures same { result.ghost_name ≡ self.entry.list.places.ghost_name }
        ensures places { result.now ≡ then_empty (⟦<StoredGraph<'a> as Graph>⟧.triples self.entry) (length self.entry.list.places.now) }
    {
        let StoredGraph { list } = self;
        list.into_places()
    }

    // Whether the change makes the set another one. The list looks at its last triple first, so what is added in order costs no search.
    fn has_effect(&self, change: Change) -> Result<bool, Refusal>
        ensures { result ≡ (if is_triple (triple_of change) then Ok (has_effect change (elements self.now.list)) else Err NotATriple) }
    {
        let triple = change.checked()?;
        Ok(change.alters(self.list.contains(&triple)))
    }

    // Makes a change, and empties the place that a removal leaves.
    fn change(&mut self, change: Change) -> Result<(), Refusal>
        ensures applied { Applied change (no_room (length self.old.list.places.now - length (elements self.old.list)) change) (elements self.old.list) (elements self.new.list) (length self.old.list.places.now - length (elements self.old.list)) (length self.new.list.places.now - length (elements self.new.list)) result }
        ensures size { length self.new.list.places.now ≡ length self.old.list.places.now }
        ensures kept { alters change result (elements self.old.list) ≡ false → self.new ≡ self.old }
        ensures same { self.new.list.places.ghost_name ≡ self.old.list.places.ghost_name }
        ensures places { self.new.list.places.now ≡ then_empty (leaves change result (elements self.old.list)) (length self.old.list.places.now) }
    {
        if !self.has_effect(change)? {
            return Ok(());
        }
        match change {
            Change::Add(triple) => {
                if self.free() == 0 {
                    return Err(Refusal::NoPlace);
                }
                let _made = self.list.put(triple);
            }
            Change::Remove(triple) => {
                let _taken = self.list.take_out(&triple, NO_TRIPLE);
            }
        }
        Ok(())
    }
}

impl<'a> Graph for StoredGraph<'a> {
    ghost triples = { λ g. elements g.list };

    ghost lawful = { λ g. record { ascending = g.ordered; members = g.members } };

    ghost make = { λ g. stored (length g.list.places.now) };

    ghost room = { λ g. length g.list.places.now - length (elements g.list) };

    ghost full = { λ g. no_room (length g.list.places.now - length (elements g.list)) };

    ghost ruled = { λ g. (refl, λ c. refl) };

    fn next(&self, after: Triple) -> Option<Triple> {
        self.list.above(&after)
    }
}

impl<'a> EditableGraph for StoredGraph<'a> {
    // The lent places are the same ones, and as many.
    ghost frame = { λ g k. (k.list.places.ghost_name ≡ g.list.places.ghost_name) × (length k.list.places.now ≡ length g.list.places.now) };

    ghost still = { λ g. (refl, refl) };

    ghost onward = { λ g k j e f. (f.0 ∙ e.0, f.1 ∙ e.1) };

    ghost unaltered = { λ g k. k ≡ g };

    fn add(&mut self, triple: Triple) -> Result<(), Refusal>
        ensures applied { Applied (adding triple) (no_room (length self.old.list.places.now - length (elements self.old.list)) (adding triple)) (elements self.old.list) (elements self.new.list) (length self.old.list.places.now - length (elements self.old.list)) (length self.new.list.places.now - length (elements self.new.list)) result }
        ensures make { stored (length self.new.list.places.now) ≡ stored (length self.old.list.places.now) }
        ensures framed { (self.new.list.places.ghost_name ≡ self.old.list.places.ghost_name) × (length self.new.list.places.now ≡ length self.old.list.places.now) }
        ensures kept { alters (adding triple) result (elements self.old.list) ≡ false → self.new ≡ self.old }
        ensures same { self.new.list.places.ghost_name ≡ self.old.list.places.ghost_name }
        ensures places { self.new.list.places.now ≡ then_empty (leaves (adding triple) result (elements self.old.list)) (length self.old.list.places.now) }
    {
        self.change(Change::Add(triple))
    }

    fn remove(&mut self, triple: Triple) -> Result<(), Refusal>
        ensures applied { Applied (removing triple) (no_room (length self.old.list.places.now - length (elements self.old.list)) (removing triple)) (elements self.old.list) (elements self.new.list) (length self.old.list.places.now - length (elements self.old.list)) (length self.new.list.places.now - length (elements self.new.list)) result }
        ensures make { stored (length self.new.list.places.now) ≡ stored (length self.old.list.places.now) }
        ensures framed { (self.new.list.places.ghost_name ≡ self.old.list.places.ghost_name) × (length self.new.list.places.now ≡ length self.old.list.places.now) }
        ensures kept { alters (removing triple) result (elements self.old.list) ≡ false → self.new ≡ self.old }
        ensures same { self.new.list.places.ghost_name ≡ self.old.list.places.ghost_name }
        ensures places { self.new.list.places.now ≡ then_empty (leaves (removing triple) result (elements self.old.list)) (length self.old.list.places.now) }
    {
        self.change(Change::Remove(triple))
    }

    fn free(&self) -> usize {
        self.list.free()
    }
}
