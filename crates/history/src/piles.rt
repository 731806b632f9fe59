// Two courses of several parts, each in one call.
ghost use Rattle.std.specs.Prelude.{◌≡◌, length};
ghost use Rattle.graph.specs.Reading.{then_empty};
ghost use Rattle.history.specs.Courses.{account_of, emptied, since};
ghost use Rattle.history.specs.Outcomes.{Agreed, Logged};
ghost use Rattle.history.specs.Piles.{layer, layers};

use crate::compare::{Answers, agree, compare};
use crate::memory::Memory;
use crate::opening::{Called, Joined, LaidOver, Listed, Opening};
use crate::run::run;
use crate::step::Step;
use graph::editable_graph::EditableGraph;
use graph::graph::Graph;
use graph::stored_graph::StoredGraph;
use query::table::Query;
use rdf::row::Row;
use rdf::triple::Triple;

// A list beneath an overlay that takes calls is joined with another list, beneath an overlay that takes calls in its turn. It is compared
// with a third list beneath an overlay that takes calls.
// Kept: the parameters stand apart for the reason at `compare`.
pub fn compare_layers<'a>(
    entries: &'a [Triple],
    others: &'a [Triple],
    split: usize,
    log: &mut [Step],
    log_memory: &mut Memory,
    left_memory: &mut Memory,
    right: &'a [Triple],
    right_log: &mut [Step],
    right_log_memory: &mut Memory,
    right_memory: &mut Memory,
    query: &Query,
    start: &Row,
) -> Answers
    ensures logs { (Logged (layers entries.now others.now split log.new) log.old log.new log_memory.old log_memory.new) × (Logged (layer right.now right_log.new) right_log.old right_log.new right_log_memory.old right_log_memory.new) }
    ensures agreed { Agreed (account_of (layers entries.now others.now split log.new)) (account_of (layer right.now right_log.new)) query.now.entries.now query.now.values.now start.now left_memory.old left_memory.new right_memory.old right_memory.new result }
{
    let under = Called {
        opening: LaidOver {
            beneath: Listed { entries },
        },
        split: 0,
    };
    let pile = Called {
        opening: LaidOver {
            beneath: Joined {
                left: under,
                right: Listed { entries: others },
                split,
            },
        },
        split,
    };
    let other = Called {
        opening: LaidOver {
            beneath: Listed { entries: right },
        },
        split: 0,
    };
    compare(
        pile,
        log,
        log_memory,
        left_memory,
        other,
        right_log,
        right_log_memory,
        right_memory,
        query,
        start,
    )
}

// The same as below, with the places given back.
// Kept: tried in one function: nothing is then known of the places at the end but their number.
fn agree_and_give_back<'a, R: Graph>(
    places: &'a mut [Triple],
    log: &mut [Step],
    log_memory: &mut Memory,
    left_memory: &mut Memory,
    right: &R,
    right_memory: &mut Memory,
    query: &Query,
    start: &Row,
) -> (&'a mut [Triple], Answers)
    ensures same { result.0.ghost_name ≡ places.entry.ghost_name }
    ensures places { result.0.now ≡ then_empty (account_of (since (emptied (length places.old)) log.new)) (length places.old) }
    ensures log { Logged (since (emptied (length places.old)) log.new) log.old log.new log_memory.old log_memory.new }
    ensures agreed { Agreed (account_of (since (emptied (length places.old)) log.new)) (R.Graph.triples right.now) query.now.entries.now query.now.values.now start.now left_memory.old left_memory.new right_memory.old right_memory.new result.1 }
{
    let mut graph = StoredGraph::new(places);
    run(&mut graph, log, log_memory);
    let answers = agree(&graph, left_memory, right, right_memory, query, start);
    (graph.into_places(), answers)
}

// A stored graph in lent places takes the calls of a log and is compared with a graph of any make. The places then hold what the
// calls came to, and empty places after it.
// Kept: the parameters stand apart for the reason at `compare`.
pub fn agree_in_places<R: Graph>(
    places: &mut [Triple],
    log: &mut [Step],
    log_memory: &mut Memory,
    left_memory: &mut Memory,
    right: &R,
    right_memory: &mut Memory,
    query: &Query,
    start: &Row,
) -> Answers
    ensures places { places.new ≡ then_empty (account_of (since (emptied (length places.old)) log.new)) (length places.old) }
    ensures log { Logged (since (emptied (length places.old)) log.new) log.old log.new log_memory.old log_memory.new }
    ensures agreed { Agreed (account_of (since (emptied (length places.old)) log.new)) (R.Graph.triples right.now) query.now.entries.now query.now.values.now start.now left_memory.old left_memory.new right_memory.old right_memory.new result }
{
    let (_places, answers) = agree_and_give_back(
        places,
        log,
        log_memory,
        left_memory,
        right,
        right_memory,
        query,
        start,
    );
    answers
}
