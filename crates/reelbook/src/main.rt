// The reel book of a paper machine. A gauge delivers readings in any order, with repeats and with entries that are no triples; the reel book
// keeps the triples as far as there are places. The laboratory lays its corrections over them and leaves the book as it is. What is known
// in the end is that, joined with the list that the winder hands over. The program prints what came of each step, each set, and which reels
// lack a reading, before and after the corrections. At the end books of other makes, which came about in other ways, are asked the same.
#![tactic(auto)]

mod agreement;
mod calls;
mod layers;
mod printing;
mod questions;
mod request;
mod wording;

use agreement::compare_makes;
use graph::editable_graph::EditableGraph;
use graph::graph::Graph;
use graph::reading::read_all;
use graph::stored_graph::StoredGraph;
use graph::triple_list::TripleList;
use layers::{correct, read_union};
use printing::{print_answer, print_set};
use questions::{ask_not_at_reel, ask_unweighed};
use rdf::row::{EMPTY_ROW, Row};
use rdf::term::{Term, UNBOUND};
use rdf::triple::{NO_TRIPLE, Triple};
use request::{Request, Step, carry_out};
use std::io;
use wording::{
    GRAMS_PER_SQUARE_METRE, MOISTURE_AT_REEL, MOISTURE_BEFORE_DRYERS, PERCENT, POUNDS_PER_REAM,
    UNIT, VALUE, WEIGHT,
};

// How many triples the reel book has room for.
const CAPACITY: usize = 10;

// How many triples there is room to read.
const READING: usize = 16;

// How many rows there is room to work with: four for each entry of the longer question.
const ROWS: usize = 28;

// One row for each entry of the longer question.
const FEW_ROWS: usize = 7;

pub(crate) fn triple(subject: Term, predicate: Term, object: Term) -> Triple {
    Triple {
        subject,
        predicate,
        object,
    }
}

fn step(request: Request) -> Step {
    Step {
        request,
        outcome: None,
    }
}

fn add(subject: Term, predicate: Term, object: Term) -> Step {
    step(Request::Add(triple(subject, predicate, object)))
}

fn remove(subject: Term, predicate: Term, object: Term) -> Step {
    step(Request::Remove(triple(subject, predicate, object)))
}

fn next(subject: Term, predicate: Term, object: Term) -> Step {
    step(Request::Next(triple(subject, predicate, object)))
}

// What the gauge delivers. The weight of reel 21 comes in pounds per ream, and its moisture at the reel when there is no place left.
fn delivery() -> [Step; 17] {
    [
        add(Term(21), WEIGHT, Term(6)),
        add(Term(2), UNIT, GRAMS_PER_SQUARE_METRE),
        add(Term(6), VALUE, Term(219)),
        add(Term(17), WEIGHT, Term(2)),
        add(Term(6), UNIT, POUNDS_PER_REAM),
        add(Term(2), UNIT, GRAMS_PER_SQUARE_METRE),
        add(Term(219), UNIT, POUNDS_PER_REAM),
        add(Term(17), MOISTURE_BEFORE_DRYERS, Term(10)),
        add(Term(2), VALUE, Term(323)),
        add(Term(17), Term(10), MOISTURE_AT_REEL),
        add(Term(10), VALUE, Term(27)),
        add(UNBOUND, UNBOUND, UNBOUND),
        add(Term(10), UNIT, PERCENT),
        add(Term(21), MOISTURE_BEFORE_DRYERS, Term(22)),
        add(Term(21), MOISTURE_AT_REEL, Term(14)),
        add(Term(17), WEIGHT, Term(2)),
        next(Term(6), UNIT, UNBOUND),
    ]
}

// What the laboratory does: the weight of reel 21 in grams per square metre, the moisture of reel 17 withdrawn, and that of reel 21 at the
// reel put in.
fn corrections() -> [Step; 10] {
    [
        remove(Term(6), UNIT, POUNDS_PER_REAM),
        add(Term(6), UNIT, GRAMS_PER_SQUARE_METRE),
        remove(Term(6), VALUE, Term(219)),
        add(Term(6), VALUE, Term(323)),
        remove(Term(17), MOISTURE_BEFORE_DRYERS, Term(10)),
        remove(Term(17), MOISTURE_BEFORE_DRYERS, Term(10)),
        remove(Term(10), VALUE, Term(28)),
        add(Term(21), MOISTURE_AT_REEL, Term(14)),
        next(Term(17), WEIGHT, Term(2)),
        next(Term(21), MOISTURE_AT_REEL, Term(14)),
    ]
}

// What the winder hands over, in any order, with a repeat and an entry that is no triple.
fn winder_list() -> [Triple; 5] {
    [
        triple(Term(14), UNIT, PERCENT),
        triple(Term(25), WEIGHT, Term(18)),
        triple(Term(17), WEIGHT, Term(2)),
        triple(Term(16), UNIT, PERCENT),
        triple(Term(14), UNIT, PERCENT),
    ]
}

fn print_steps(rt: &impl Print, steps: &[Step]) -> io::Result<()> {
    for step in steps {
        println!(rt; "  {step}")?;
    }
    Ok(())
}

// Asks which reels lack a reading, and prints them.
fn print_lacking<G: Graph>(
    rt: &impl Print,
    graph: &G,
    reading: &mut [Triple],
    rows: &mut [Row],
) -> io::Result<()> {
    println!(rt; "Reels with no weight in grams per square metre:")?;
    let answer = ask_unweighed(graph, reading, rows);
    print_answer(rt, answer, rows)?;
    println!(rt; "Reels with moisture before the dryers but not at the reel:")?;
    let answer = ask_not_at_reel(graph, reading, rows);
    print_answer(rt, answer, rows)
}

// Lays the laboratory's corrections over a graph, and joins them with a list.
fn laboratory<B: Graph + Drop, D: Graph + Drop>(
    rt: &impl Print,
    base: B,
    list: D,
    memory: &mut [Triple],
    rows: &mut [Row],
) -> io::Result<()> {
    let mut steps = corrections();
    let overlay = correct(base, &mut steps);
    println!(rt; "The laboratory corrects:")?;
    print_steps(rt, &steps)?;
    let free = overlay.free();
    println!(rt;
        "The reel book with the laboratory's corrections, of which it can make {free} more:"
    )?;
    let count = read_all(&overlay, memory);
    print_set(rt, count, memory)?;
    print_lacking(rt, &overlay, memory, rows)?;
    println!(rt; "Joined with the winder's list:")?;
    let count = read_union(overlay, list, memory);
    print_set(rt, count, memory)
}

fn main(rt: HostRuntime) -> io::Result<()> {
    let mut places = [NO_TRIPLE; CAPACITY];
    let mut memory = [NO_TRIPLE; READING];
    let mut rows = [EMPTY_ROW; ROWS];
    let mut few_rows = [EMPTY_ROW; FEW_ROWS];
    let mut steps = delivery();
    let mut stored = StoredGraph::new(&mut places);
    carry_out(&mut stored, &mut steps);
    println!(rt; "The gauge delivers:")?;
    print_steps(&rt, &steps)?;
    let free = stored.free();
    println!(rt; "The reel book, with {free} places free:")?;
    let count = read_all(&stored, &mut memory);
    print_set(&rt, count, &memory)?;
    print_lacking(&rt, &stored, &mut memory, &mut rows)?;
    println!(rt; "Weights again, with room for one row in each working set:")?;
    let answer = ask_unweighed(&stored, &mut memory, &mut few_rows);
    print_answer(&rt, answer, &few_rows)?;
    let winder = winder_list();
    laboratory(
        &rt,
        stored,
        TripleList::new(&winder),
        &mut memory,
        &mut rows,
    )?;
    compare_makes(&rt)
}
