// A graph laid over another one, with the changes kept beside it.
ghost use Rattle.std.specs.Prelude.{◌≡◌, ◌≤◌, length, false, not, ◌&&◌, [], find, if◌then◌else◌, refl};
ghost use Rattle.std.proofs.Common.{◌∙◌};
ghost use Rattle.std.specs.Ordering.{is_lt};
ghost use Rattle.order.specs.Sets.{above, difference, holds, symmetric_difference};
ghost use Rattle.rdf.specs.Triples.{TripleSet, compare_triples};
ghost use Rattle.graph.specs.Changes.{adding, alters, removing, triple_of};
ghost use Rattle.graph.specs.Calls.{Applied};
ghost use Rattle.graph.specs.Histories.{History, account, laid_over, make_of};
ghost use Rattle.graph.specs.Makes.{no_mark, overlaid, turned, unused};
ghost use Rattle.graph.specs.GraphLaws.{overlay_lawful, overlay_ruled};

use crate::change::Change;
use crate::editable_graph::EditableGraph;
use crate::graph::{Graph, contains, lesser_of};
use crate::marks::Marks;
use order::total::TotalOrder;
use rdf::refusal::Refusal;
use rdf::triple::Triple;

// Holds a graph that it never alters, and up to 32 marked triples. A triple is in its set exactly if it is marked or in the graph
// beneath, but not both. No overlay can exist with marks out of order, repeated, or on what is no triple.
#[derive(Drop)]
pub struct Overlay<G> {
    base: G,
    marks: Marks,
    ghost lawful: { TripleSet marks },
    ghost few: { length marks ≤ 32 },
}

impl<G: Graph> Overlay<G> {
    // Lays an overlay without marks over a graph.
    pub fn new(base: G) -> Self
        ensures kept { result.base ≡ base }
        ensures bare { result.marks ≡ [] }
        ensures history { (h : History) → account h ≡ G.Graph.triples base → account (laid_over h) ≡ ⟦<Overlay<G> as Graph>⟧.triples result }
        ensures make { (h : History) → account h ≡ G.Graph.triples base → make_of (laid_over h) ≡ ⟦<Overlay<G> as Graph>⟧.make result }
    {
        Overlay {
            base,
            marks: Marks::new(),
        }
    }

    // The least unmarked triple of the graph beneath.
    fn next_kept(&self, after: Triple) -> Option<Triple>
        ensures { result ≡ above compare_triples after (difference compare_triples (G.Graph.triples self.now.base) self.now.marks) }
    {
        // Kept: as a chain over an iterator of the graph, tried, it needs that iterator's type, members and laws, which are longer.
        let mut at = after;
        while let Some(found) = self.base.next(at) {
            if !self.marks.contains(&found) {
                return Some(found);
            }
            at = found;
        }
        None
    }

    // The least marked triple that is not in the graph beneath.
    fn next_new(&self, after: Triple) -> Option<Triple>
        ensures { result ≡ find (λ m. is_lt (compare_triples after m) && not (holds compare_triples m (G.Graph.triples self.now.base))) self.now.marks }
    {
        self.marks.as_slice().iter().copied().find(|mark| after.order(mark).is_lt()
            && !contains(&self.base, *mark))
    }

    // Makes a change: one with an effect turns the mark of its triple.
    fn change(&mut self, change: Change) -> Result<(), Refusal>
        ensures applied { Applied change (no_mark self.old.marks (triple_of change)) (symmetric_difference compare_triples self.old.marks (G.Graph.triples self.old.base)) (symmetric_difference compare_triples self.new.marks (G.Graph.triples self.new.base)) (unused self.old.marks) (unused self.new.marks) result }
        ensures framed { self.new.base ≡ self.old.base }
        ensures kept { alters change result (symmetric_difference compare_triples self.old.marks (G.Graph.triples self.old.base)) ≡ false → self.new ≡ self.old }
        ensures marks { self.new.marks ≡ (if alters change result (symmetric_difference compare_triples self.old.marks (G.Graph.triples self.old.base)) then turned self.old.marks (triple_of change) else self.old.marks) }
    {
        if !change.has_effect(self)? {
            return Ok(());
        }
        self.marks.turn(change.triple())
    }
}

impl<G: Graph> Graph for Overlay<G> {
    ghost triples = { λ o. symmetric_difference compare_triples o.marks (G.Graph.triples o.base) };

    ghost lawful = { λ o. overlay_lawful o.marks (G.Graph.triples o.base) o.lawful (G.Graph.lawful o.base) };

    ghost make = { λ o. overlaid (G.Graph.triples o.base) };

    ghost room = { λ o. unused o.marks };

    ghost full = { λ o c. no_mark o.marks (triple_of c) };

    ghost ruled = { λ o. overlay_ruled o.marks (G.Graph.triples o.base) o.lawful (G.Graph.lawful o.base) };

    fn next(&self, after: Triple) -> Option<Triple> {
        lesser_of(self.next_new(after), self.next_kept(after))
    }
}

impl<G: Graph> EditableGraph for Overlay<G> {
    // The graph beneath.
    ghost frame = { λ o p. p.base ≡ o.base };

    ghost still = { λ o. refl };

    ghost onward = { λ o p q e f. f ∙ e };

    ghost unaltered = { λ o p. p ≡ o };

    fn add(&mut self, triple: Triple) -> Result<(), Refusal>
        ensures applied { Applied (adding triple) (no_mark self.old.marks triple) (symmetric_difference compare_triples self.old.marks (G.Graph.triples self.old.base)) (symmetric_difference compare_triples self.new.marks (G.Graph.triples self.new.base)) (unused self.old.marks) (unused self.new.marks) result }
        ensures make { overlaid (G.Graph.triples self.new.base) ≡ overlaid (G.Graph.triples self.old.base) }
        ensures framed { self.new.base ≡ self.old.base }
        ensures kept { alters (adding triple) result (symmetric_difference compare_triples self.old.marks (G.Graph.triples self.old.base)) ≡ false → self.new ≡ self.old }
        ensures marks { self.new.marks ≡ (if alters (adding triple) result (symmetric_difference compare_triples self.old.marks (G.Graph.triples self.old.base)) then turned self.old.marks triple else self.old.marks) }
    {
        self.change(Change::Add(triple))
    }

    fn remove(&mut self, triple: Triple) -> Result<(), Refusal>
        ensures applied { Applied (removing triple) (no_mark self.old.marks triple) (symmetric_difference compare_triples self.old.marks (G.Graph.triples self.old.base)) (symmetric_difference compare_triples self.new.marks (G.Graph.triples self.new.base)) (unused self.old.marks) (unused self.new.marks) result }
        ensures make { overlaid (G.Graph.triples self.new.base) ≡ overlaid (G.Graph.triples self.old.base) }
        ensures framed { self.new.base ≡ self.old.base }
        ensures kept { alters (removing triple) result (symmetric_difference compare_triples self.old.marks (G.Graph.triples self.old.base)) ≡ false → self.new ≡ self.old }
        ensures marks { self.new.marks ≡ (if alters (removing triple) result (symmetric_difference compare_triples self.old.marks (G.Graph.triples self.old.base)) then turned self.old.marks triple else self.old.marks) }
    {
        self.change(Change::Remove(triple))
    }

    fn free(&self) -> usize {
        self.marks.free()
    }
}
