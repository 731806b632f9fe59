// Graphs of different makes, with different calls behind them, that come to one set; and one that comes to another. The same question is put
// top down to one and bottom up to the other, and the program prints what each answers and whether the answers agree.
ghost use Rattle.rdf.specs.Rows.{empty_row};
ghost use Rattle.history.specs.Courses.{account_of};
ghost use Rattle.history.specs.Outcomes.{Agreed};

use crate::calls::{BEFORE, correcting_calls, delivered, handed_over, joined_calls, layered_calls};
use crate::printing::{print_answer, print_log};
use crate::questions::UNWEIGHED;
use crate::wording::Words;
use history::compare::{Answers, compare};
use history::memory::Memory;
use history::opening::{Called, Joined, LaidOver, Listed, Opening, Stored};
use history::step::Step;
use query::table::Query;
use rdf::row::{EMPTY_ROW, Row};
use rdf::triple::{NO_TRIPLE, Triple};
use std::io;

// How many triples the stored graph beneath the overlay has room for.
const LAYERED: usize = 6;

// How many the stored graph that is joined with a list has room for.
const JOINED: usize = 5;

// How many triples there is room to read.
const PLACES: usize = 12;

// Six rows for each entry of the question.
const ROWS: usize = 42;

// The log of the calls on a graph and on its parts, and the graph's name.
// Kept: the recipe stands beside it; tried in the struct: "a value of a type parameter that is not `Copy` beside a `&mut` that it hands back".
#[derive(Drop)]
struct Calls<'s, 'q> {
    name: &'s str,
    log: &'s mut [Step<'q>],
}

// What a question to a graph left in memory, and the graph's name.
#[derive(Clone, Copy)]
struct Found<'n, 'm> {
    name: &'n str,
    reading: &'m [Triple],
    rows: &'m [Row],
}

// Whether one memory holds all triples of another.
fn holds_all(memory: &[Triple], others: &[Triple]) -> bool {
    others
        .iter()
        .all(|place| !place.is_triple() || memory.contains(place))
}

// Prints the triples that one has read and the other has not.
fn print_lacking(rt: &impl Print, has: &Found, lacks: &Found) -> io::Result<()> {
    let name = has.name;
    for place in has.reading {
        if place.is_triple() && !lacks.reading.contains(place) {
            let words = Words(*place);
            println!(rt; "Only {name} has ({words}).")?;
        }
    }
    Ok(())
}

// Prints whether the sets that two questions read are the same, and where not, by which triples they differ.
fn print_sets(rt: &impl Print, left: &Found, right: &Found) -> io::Result<()> {
    if holds_all(left.reading, right.reading) && holds_all(right.reading, left.reading) {
        println!(rt; "Both have come to the same triples.")
    } else {
        print_lacking(rt, left, right)?;
        print_lacking(rt, right, left)
    }
}

// Opens both with the calls of their logs, which put no question, and puts one to both, from the row that binds nothing. Where both come to
// one set and the memories have the same sizes, the promise of the two ways of working is kept.
// Kept: the parameters stand apart for the reason at `compare` of `history`.
fn ask_both<A: Opening, B: Opening>(
    left: A,
    left_log: &mut [Step],
    left_memory: &mut Memory,
    right: B,
    right_log: &mut [Step],
    right_memory: &mut Memory,
    query: &Query,
) -> Answers
    ensures agreed { Agreed (account_of (A.Opening.course left left_log.new)) (account_of (B.Opening.course right right_log.new)) query.now.entries.now query.now.values.now empty_row left_memory.old left_memory.new right_memory.old right_memory.new result }
{
    let mut left_none = Memory {
        reading: &mut [],
        rows: &mut [],
    };
    let mut right_none = Memory {
        reading: &mut [],
        rows: &mut [],
    };
    compare(
        left,
        left_log,
        &mut left_none,
        left_memory,
        right,
        right_log,
        &mut right_none,
        right_memory,
        query,
        &EMPTY_ROW,
    )
}

fn print_answers(rt: &impl Print, left: &Found, right: &Found, answers: Answers) -> io::Result<()> {
    let name = left.name;
    println!(rt; "Reels with no weight in grams per square metre by {name}, worked top down:")?;
    print_answer(rt, answers.top_down, left.rows)?;
    let name = right.name;
    println!(rt; "The same by {name}, worked bottom up:")?;
    print_answer(rt, answers.bottom_up, right.rows)?;
    if left.rows == right.rows {
        println!(rt; "The two lists agree.")
    } else {
        println!(rt; "The two lists differ.")
    }
}

fn print_calls(rt: &impl Print, calls: &Calls) -> io::Result<()> {
    let name = calls.name;
    println!(rt; "Calls on {name}:")?;
    print_log(rt, calls.log)
}

// Puts the question for reels with no weight in grams per square metre to both, and prints the calls, the answers and where they differ.
fn put_to_both<A: Opening, B: Opening>(
    rt: &impl Print,
    left: A,
    left_calls: &mut Calls,
    right: B,
    right_calls: &mut Calls,
) -> io::Result<()> {
    let mut left_reading = [NO_TRIPLE; PLACES];
    let mut left_rows = [EMPTY_ROW; ROWS];
    let mut right_reading = [NO_TRIPLE; PLACES];
    let mut right_rows = [EMPTY_ROW; ROWS];
    let answers = ask_both(
        left,
        left_calls.log,
        &mut Memory {
            reading: &mut left_reading,
            rows: &mut left_rows,
        },
        right,
        right_calls.log,
        &mut Memory {
            reading: &mut right_reading,
            rows: &mut right_rows,
        },
        &Query {
            entries: &UNWEIGHED,
            values: &[],
        },
    );
    let left = Found {
        name: left_calls.name,
        reading: &left_reading,
        rows: &left_rows,
    };
    let right = Found {
        name: right_calls.name,
        reading: &right_reading,
        rows: &right_rows,
    };
    print_calls(rt, left_calls)?;
    print_calls(rt, right_calls)?;
    print_sets(rt, &left, &right)?;
    print_answers(rt, &left, &right, answers)
}

// A stored graph with calls on it beneath an overlay with calls on it, and any other graph.
fn layered_and_other<B: Opening>(
    rt: &impl Print,
    places: &mut [Triple],
    other: B,
    calls: &mut Calls,
) -> io::Result<()> {
    let stored = Called {
        opening: Stored { places },
        split: 0,
    };
    let layered = Called {
        opening: LaidOver { beneath: stored },
        split: BEFORE,
    };
    let mut log = layered_calls();
    let mut under = Calls {
        name: "the floor's book under the office's sheet",
        log: &mut log,
    };
    put_to_both(rt, layered, &mut under, other, calls)
}

// With a list joined with a stored graph on which calls were made.
fn with_joined(
    rt: &impl Print,
    places: &mut [Triple],
    entries: &[Triple],
    others: &mut [Triple],
) -> io::Result<()> {
    let stored = Called {
        opening: Stored { places: others },
        split: 0,
    };
    let joined = Joined {
        left: Listed { entries },
        right: stored,
        split: 0,
    };
    let mut log = joined_calls();
    let mut calls = Calls {
        name: "the winder's list joined with the laboratory's book",
        log: &mut log,
    };
    layered_and_other(rt, places, joined, &mut calls)
}

// With a list beneath an overlay on which calls were made.
fn with_corrected(rt: &impl Print, places: &mut [Triple], entries: &[Triple]) -> io::Result<()> {
    let corrected = Called {
        opening: LaidOver {
            beneath: Listed { entries },
        },
        split: 0,
    };
    let mut log = correcting_calls();
    let mut calls = Calls {
        name: "the gauge's list under the laboratory's sheet",
        log: &mut log,
    };
    layered_and_other(rt, places, corrected, &mut calls)
}

pub(crate) fn compare_makes(rt: &impl Print) -> io::Result<()> {
    let mut places = [NO_TRIPLE; LAYERED];
    let mut others = [NO_TRIPLE; JOINED];
    with_joined(rt, &mut places, &delivered(), &mut others)?;
    with_corrected(rt, &mut places, &handed_over())
}
