// The cases of a stream: a graph, calls on it and on what it lies over, and questions to it.
ghost use Rattle.std.specs.Prelude.{◌≡◌, IfOk};

use crate::answers::{write_answer, write_change, write_next, write_set};
use crate::fault::Cause;
use crate::kinds::Call;
use crate::numbers::Numbers;
use crate::record::{Question, Record, list};
use engine::question;
use graph::editable_graph::EditableGraph;
use graph::graph::Graph;
use query::table::Query;
use rdf::row::Row;
use rdf::term::Term;
use rdf::triple::{NO_TRIPLE, Triple};
use semantics::strategy::Strategy;
use std::alloc::{AllocError, Global};
use std::io::Write;

// Where numbers come from, where answers go, and where memory is.
#[derive(Drop)]
pub struct Desk<'a, W> {
    pub numbers: Numbers<'a>,
    pub out: W,
    pub heap: Global,
}

// Carries out a number of calls on a graph.
pub(crate) fn calls<G: EditableGraph, W: Write>(
    desk: &mut Desk<W>,
    graph: &mut G,
) -> Result<(), Cause> {
    let count = desk.numbers.count()?;
    for _ in 0..count {
        let call = desk.numbers.choice()?;
        let triple = Triple::read(&mut desk.numbers)?;
        let answer = match call {
            Call::Add => graph.add(triple),
            Call::Remove => graph.remove(triple),
        };
        write_change(&mut desk.out, answer, graph.free())?;
    }
    Ok(())
}

// All triples of a graph, ascending.
// Kept: tried `iter::successors`: `collect` asks for an end, which it does not promise, and the check breaks off at a `for` over it here.
fn all_triples<G: Graph>(heap: Global, graph: &G) -> Result<Vec<Triple>, Cause>
    ensures { IfOk result (λ v. v.items ≡ G.triples graph.now) }
{
    let mut triples = Vec::new(heap);
    let mut last = NO_TRIPLE;
    while let Some(triple) = graph.next(last) {
        triples.push(triple)?;
        last = triple;
    }
    Ok(triples)
}

// What each place of lent memory holds before a question.
const SEVEN: Term = Term(7);

const SEVENS: Triple = Triple {
    subject: SEVEN,
    predicate: SEVEN,
    object: SEVEN,
};

const SEVEN_ROW: Row = Row {
    places: [SEVEN; 16],
};

// Puts a question one way, in memory of its own.
fn put<G: Graph, W: Write>(
    desk: &mut Desk<W>,
    strategy: Strategy,
    graph: &G,
    asked: &Question,
) -> Result<(), Cause> {
    let mut reading = vec![in desk.heap; SEVENS; asked.reading]?;
    let mut rows = vec![in desk.heap; SEVEN_ROW; asked.rows]?;
    let query = Query {
        entries: asked.entries.as_slice(),
        values: asked.values.as_slice(),
    };
    let start = &asked.start;
    let answer = question::ask(strategy, graph, &query, start, &mut reading, &mut rows);
    write_answer(&mut desk.out, strategy, answer, &reading, &rows)?;
    Ok(())
}

fn probes<G: Graph, W: Write>(desk: &mut Desk<W>, graph: &G) -> Result<(), Cause> {
    let count = desk.numbers.count()?;
    for _ in 0..count {
        let after = Triple::read(&mut desk.numbers)?;
        write_next(&mut desk.out, graph.next(after))?;
    }
    Ok(())
}

fn questions<G: Graph, W: Write>(desk: &mut Desk<W>, graph: &G) -> Result<(), Cause> {
    let count = desk.numbers.count()?;
    for _ in 0..count {
        let question = Question::read(&mut desk.numbers, desk.heap)?;
        put(desk, Strategy::BottomUp, graph, &question)?;
        put(desk, Strategy::TopDown, graph, &question)?;
    }
    Ok(())
}

// What is asked of a graph once it stands.
pub(crate) fn ask<G: Graph, W: Write>(desk: &mut Desk<W>, graph: &G) -> Result<(), Cause> {
    probes(desk, graph)?;
    let triples = all_triples(desk.heap, graph)?;
    write_set(&mut desk.out, &triples)?;
    questions(desk, graph)
}
