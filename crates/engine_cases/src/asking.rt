// Puts a question in memory that was used before, and prints the answer and what both memories then hold.
use engine::question::bottom_up;
use graph::graph::Graph;
use query::table::{Entry, Query};
use rdf::refusal::Refusal;
use rdf::row::{EMPTY_ROW, Row};
use rdf::term::Term;
use rdf::triple::Triple;
use semantics::worked::Worked;
use std::{fmt, io};

// What each place of a used memory holds.
const USED_TRIPLE: Triple = Triple {
    subject: Term(7),
    predicate: Term(7),
    object: Term(7),
};

const USED_ROW: Row = Row {
    places: [Term(7); 16],
};

const READING: usize = 8;

const ROWS: usize = 128;

// A question: a table with its value rows, a starting row, and how many places there are to read into and how many for rows.
#[derive(Clone, Copy)]
pub struct Case<'a> {
    name: &'a str,
    entries: &'a [Entry],
    values: &'a [Row],
    start: Row,
    reading: usize,
    rows: usize,
}

impl<'a> Case<'a> {
    // A case with no value row, the empty starting row and three places to read into.
    pub(crate) fn new(name: &'a str, entries: &'a [Entry], rows: usize) -> Case<'a> {
        Case {
            name,
            entries,
            values: &[],
            start: EMPTY_ROW,
            reading: 3,
            rows,
        }
    }

    // With value rows.
    pub(crate) fn with(self, values: &'a [Row]) -> Case<'a> {
        Case { values, ..self }
    }

    // At a starting row.
    pub(crate) fn at(self, start: Row) -> Case<'a> {
        Case { start, ..self }
    }

    // With other places to read into.
    pub(crate) fn reading(self, reading: usize) -> Case<'a> {
        Case { reading, ..self }
    }
}

// A row by its bindings.
#[derive(Drop)]
struct Bindings<'a>(&'a Row);

impl fmt::Display for Bindings<'_> {
    fn fmt<W: fmt::Write>(&self, f: &mut fmt::Formatter<W>) -> fmt::Result {
        write!(f, "[")?;
        for (variable, term) in self.0.places.iter().enumerate() {
            if !term.is_unbound() {
                write!(f, " v{variable}={}", term.0)?;
            }
        }
        write!(f, " ]")
    }
}

fn print_answer(rt: &impl Print, answer: Result<Worked, Refusal>, rows: &[Row]) -> io::Result<()> {
    match answer {
        Ok(Worked { count, largest }) => {
            print!(rt; "({count}, {largest})")?;
            for row in rows.iter().take(count) {
                print!(rt; " {}", Bindings(row))?;
            }
            Ok(())
        }
        Err(refusal) => print!(rt; "refused by {refusal}"),
    }
}

// A sum with one more term; the order of the terms counts.
fn with_term(sum: u32, term: Term) -> u32 {
    sum.wrapping_mul(31).wrapping_add(term.0)
}

// A sum over all places in their order; 0 where every place is empty.
fn rows_sum(rows: &[Row]) -> u32 {
    rows.iter()
        .flat_map(|row| row.places.iter().copied())
        .fold(0, with_term)
}

fn reading_sum(reading: &[Triple]) -> u32 {
    reading
        .iter()
        .flat_map(|triple| [triple.subject, triple.predicate, triple.object].into_iter())
        .fold(0, with_term)
}

// Puts a question in memory that was used before.
pub(crate) fn ask<G: Graph>(rt: &impl Print, graph: &G, case: &Case) -> io::Result<()> {
    print!(rt; "{}: ", case.name)?;
    let mut reading = [USED_TRIPLE; READING];
    let mut rows = [USED_ROW; ROWS];
    let reading = &mut reading[..case.reading.min(READING)];
    let rows = &mut rows[..case.rows.min(ROWS)];
    let query = Query {
        entries: case.entries,
        values: case.values,
    };
    let answer = bottom_up(graph, &query, &case.start, reading, rows);
    print_answer(rt, answer, rows)?;
    println!(rt;
        "; reading {}, rows {}",
        reading_sum(reading),
        rows_sum(rows)
    )
}

// Puts questions that belong together.
pub(crate) fn ask_all<G: Graph>(
    rt: &impl Print,
    graph: &G,
    title: &str,
    cases: &[Case],
) -> io::Result<()> {
    println!(rt; "{title}:")?;
    for case in cases {
        ask(rt, graph, case)?;
    }
    Ok(())
}
