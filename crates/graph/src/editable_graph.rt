// Graphs that take changes.
ghost use Rattle.std.specs.Prelude.{◌≡◌, false};
ghost use Rattle.graph.specs.Changes.{adding, alters, removing};
ghost use Rattle.graph.specs.Calls.{Applied};

use crate::graph::Graph;
use rdf::refusal::Refusal;
use rdf::triple::Triple;

// A graph whose set can be changed by one triple at a time.
// Kept: each kind has `add` and `remove` over one change of its own: written once in the trait, they could not promise what places then hold.
pub trait EditableGraph: Graph {
    // What stands beside the set and is altered by no call.
    ghost frame: { Self → Self → Type 0 };

    ghost still: { (g : Self) → frame g g };

    ghost onward: { (g k j : Self) → frame g k → frame k j → frame g j };

    // What a change leaves as it was that is refused or has no effect: of each kind in this crate, the whole graph.
    ghost unaltered: { Self → Self → Type 0 };

    // Puts the triple in.
    fn add(&mut self, triple: Triple) -> Result<(), Refusal>
        ensures applied { Applied (adding triple) (Self.Graph.full self.old (adding triple)) (Self.Graph.triples self.old) (Self.Graph.triples self.new) (Self.Graph.room self.old) (Self.Graph.room self.new) result }
        ensures make { Self.Graph.make self.new ≡ Self.Graph.make self.old }
        ensures framed { frame self.old self.new }
        ensures kept { alters (adding triple) result (Self.Graph.triples self.old) ≡ false → unaltered self.old self.new };

    // Takes the triple out.
    fn remove(&mut self, triple: Triple) -> Result<(), Refusal>
        ensures applied { Applied (removing triple) (Self.Graph.full self.old (removing triple)) (Self.Graph.triples self.old) (Self.Graph.triples self.new) (Self.Graph.room self.old) (Self.Graph.room self.new) result }
        ensures make { Self.Graph.make self.new ≡ Self.Graph.make self.old }
        ensures framed { frame self.old self.new }
        ensures kept { alters (removing triple) result (Self.Graph.triples self.old) ≡ false → unaltered self.old self.new };

    // How many places are free.
    fn free(&self) -> usize
        ensures { result ≡ Self.Graph.room self.now };
}
