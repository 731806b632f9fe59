// What is asked of a reel book: which of its reels lack a reading.
ghost use Rattle.std.specs.Prelude.{[]};
ghost use Rattle.rdf.specs.Rows.{empty_row};
ghost use Rattle.semantics.specs.declared.strategy.Strategy.TheVariants.{BottomUp};
ghost use Rattle.engine.specs.Solving.{Asked};
ghost use Rattle.reelbook.specs.Questions.{not_at_reel, unweighed};

use crate::wording::{
    GRAMS_PER_SQUARE_METRE, MOISTURE_AT_REEL, MOISTURE_BEFORE_DRYERS, UNIT, WEIGHT,
};
use engine::question::bottom_up;
use graph::graph::Graph;
use query::table::{Entry, Position, Query};
use rdf::refusal::Refusal;
use rdf::row::{EMPTY_ROW, Row};
use rdf::triple::Triple;
use rdf::variable::Variable;
use semantics::worked::Worked;

// The reel that lacks a reading, and the reading that it has.
pub const REEL: Variable = Variable(0);

pub const READING: Variable = Variable(1);

// A reading that a reel may lack.
const OTHER: Variable = Variable(2);

// Each weight for which there is not, with the row of that weight, a unit of grams per square metre. A reading is a blank node, which no
// query can name.
pub const UNWEIGHED: [Entry; 7] = [
    Entry::Triple(
        Position::Variable(REEL),
        Position::Term(WEIGHT),
        Position::Variable(READING),
    ),
    Entry::Initial,
    Entry::Triple(
        Position::Variable(READING),
        Position::Term(UNIT),
        Position::Term(GRAMS_PER_SQUARE_METRE),
    ),
    Entry::And(1, 2),
    Entry::Exists(3),
    Entry::Not(4),
    Entry::Filter(0, 5),
];

// Each moisture before the dryers, less those of reels that have one at the reel.
const NOT_AT_REEL: [Entry; 3] = [
    Entry::Triple(
        Position::Variable(REEL),
        Position::Term(MOISTURE_BEFORE_DRYERS),
        Position::Variable(READING),
    ),
    Entry::Triple(
        Position::Variable(REEL),
        Position::Term(MOISTURE_AT_REEL),
        Position::Variable(OTHER),
    ),
    Entry::Minus(0, 1),
];

// Puts a table without value rows to the graph, from the row that binds nothing.
fn ask<G: Graph>(
    graph: &G,
    entries: &[Entry],
    reading: &mut [Triple],
    rows: &mut [Row],
) -> Result<Worked, Refusal>
    ensures { Asked BottomUp (G.triples graph.now) entries.now [] empty_row reading.old reading.new rows.old rows.new result }
{
    let query = Query {
        entries,
        values: &[],
    };
    bottom_up(graph, &query, &EMPTY_ROW, reading, rows)
}

// Kept: two functions over `ask`, since each promises the answer to its question; one over the table would promise that to any table.
// Asks for the reels with a weight that is not in grams per square metre.
pub fn ask_unweighed<G: Graph>(
    graph: &G,
    reading: &mut [Triple],
    rows: &mut [Row],
) -> Result<Worked, Refusal>
    ensures { Asked BottomUp (G.triples graph.now) unweighed [] empty_row reading.old reading.new rows.old rows.new result }
{
    ask(graph, &UNWEIGHED, reading, rows)
}

// Asks for the reels with a moisture before the dryers but none at the reel.
pub fn ask_not_at_reel<G: Graph>(
    graph: &G,
    reading: &mut [Triple],
    rows: &mut [Row],
) -> Result<Worked, Refusal>
    ensures { Asked BottomUp (G.triples graph.now) not_at_reel [] empty_row reading.old reading.new rows.old rows.new result }
{
    ask(graph, &NOT_AT_REEL, reading, rows)
}
