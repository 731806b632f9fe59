// One question put to two graphs of any make.
ghost use Rattle.std.specs.Prelude.{◌≡◌, length};
ghost use Rattle.history.specs.Courses.{account_of};
ghost use Rattle.history.specs.Outcomes.{Agreed, Logged};

use crate::memory::Memory;
use crate::opening::Opening;
use crate::step::Step;
use engine::question::{bottom_up, top_down};
use graph::graph::Graph;
use query::table::Query;
use rdf::refusal::Refusal;
use rdf::row::Row;
use semantics::worked::Worked;

// What a question answers by the two ways of working.
#[derive(Clone, Copy, PartialEq, Eq, Debug)]
pub struct Answers {
    pub top_down: Result<Worked, Refusal>,
    pub bottom_up: Result<Worked, Refusal>,
}

// Puts a question top down to the left graph and bottom up to the right one, each in memory of its own.
// Where both graphs mean one set and the memories have the same sizes, the promise of the two ways of working is kept.
pub fn agree<L: Graph, R: Graph>(
    left: &L,
    left_memory: &mut Memory,
    right: &R,
    right_memory: &mut Memory,
    query: &Query,
    start: &Row,
) -> Answers
    ensures agreed { Agreed (L.Graph.triples left.now) (R.Graph.triples right.now) query.now.entries.now query.now.values.now start.now left_memory.old left_memory.new right_memory.old right_memory.new result }
{
    Answers {
        top_down: top_down(left, query, start, left_memory.reading, left_memory.rows),
        bottom_up: bottom_up(right, query, start, right_memory.reading, right_memory.rows),
    }
}

// Opens two graphs of any make, each with the calls of its log on it and on its parts, and puts a question top down to the left one and
// bottom up to the right one. The logs work in memory of their own, and the two last questions each in theirs.
// All is told by what each graph's course comes to. Where that is one set, the promise of the two ways of working is kept.
// Kept: tried one struct for a side. By value the check refuses a recipe "beside a `&mut` that it hands back"; by `&mut` it knows nothing of the
// arrays afterwards, or refuses to lend two of its fields at once.
pub fn compare<A: Opening, B: Opening>(
    left: A,
    left_log: &mut [Step],
    left_log_memory: &mut Memory,
    left_memory: &mut Memory,
    right: B,
    right_log: &mut [Step],
    right_log_memory: &mut Memory,
    right_memory: &mut Memory,
    query: &Query,
    start: &Row,
) -> Answers
    ensures logs { (Logged (A.Opening.course left left_log.new) left_log.old left_log.new left_log_memory.old left_log_memory.new) × (Logged (B.Opening.course right right_log.new) right_log.old right_log.new right_log_memory.old right_log_memory.new) }
    ensures idle { (A.Opening.idle left left_log.old left_log.new) × (B.Opening.idle right right_log.old right_log.new) }
    ensures runs { (((g : A.Made) × A.Opening.runs left (length left_log_memory.old.reading.now) (length left_log_memory.old.rows.now) left_log.new g × (A.Made.triples g ≡ account_of (A.Opening.course left left_log.new)))) × (((g : B.Made) × B.Opening.runs right (length right_log_memory.old.reading.now) (length right_log_memory.old.rows.now) right_log.new g × (B.Made.triples g ≡ account_of (B.Opening.course right right_log.new)))) }
    ensures agreed { Agreed (account_of (A.Opening.course left left_log.new)) (account_of (B.Opening.course right right_log.new)) query.now.entries.now query.now.values.now start.now left_memory.old left_memory.new right_memory.old right_memory.new result }
{
    let left_graph = left.open(left_log, left_log_memory);
    let right_graph = right.open(right_log, right_log_memory);
    agree(
        &left_graph,
        left_memory,
        &right_graph,
        right_memory,
        query,
        start,
    )
}
