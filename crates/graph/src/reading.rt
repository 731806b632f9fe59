// Reading a whole graph into lent memory.
ghost use Rattle.std.specs.Prelude.{◌≡◌, length, if◌then◌else◌, Some, None, nat_le};
ghost use Rattle.graph.specs.Changes.{refused_by};
ghost use Rattle.graph.specs.Reading.{read_count, read_places};

use crate::graph::Graph;
use rdf::refusal::Refusal;
use rdf::triple::{NO_TRIPLE, Triple};

// Writes the graph's triples, ascending, and empty places after them, and tells how many they are.
// Where they are more than the places, every place is empty. Each triple costs one call of `next`, and the end one more.
pub fn read_all<G: Graph>(graph: &G, memory: &mut [Triple]) -> Result<usize, Refusal>
    ensures count { result ≡ read_count (G.triples graph.now) (length memory.old) }
    ensures numbered { refused_by result ≡ (if nat_le (length (G.triples graph.now)) (length memory.old) then None else Some 10) }
    ensures memory { memory.new ≡ read_places (G.triples graph.now) (length memory.old) }
{
    memory.fill(NO_TRIPLE);

    // Kept: the count is the answer, so it stands beside an iterator over the graph as well, and that needs a type and laws of its own.
    let mut count = 0;
    let mut last = NO_TRIPLE;
    while let Some(triple) = graph.next(last) {
        if count == memory.len() {
            memory.fill(NO_TRIPLE);
            return Err(Refusal::SmallReading);
        }
        memory[count] = triple;
        count += 1;
        last = triple;
    }
    Ok(count)
}
