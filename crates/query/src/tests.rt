// Queries that pass the checks, and queries at the edge of each.
use crate::table::{Entry, Position, Query};
use crate::validation::check;
use rdf::row::{EMPTY_ROW, Row};
use rdf::term::Term;
use rdf::variable::Variable;
use std::array;

// The number of the refusal; none where the query passes.
fn told<'a>(entries: &'a [Entry], values: &'a [Row], start: Row, row_places: usize) -> Option<u8> {
    check(&Query { entries, values }, &start, row_places)
        .err()
        .map(|refusal| refusal.number())
}

// With no value rows, the empty starting row and 64 row places.
fn told_of(entries: &[Entry]) -> Option<u8> {
    told(entries, &[], EMPTY_ROW, 64)
}

// A FILTER of a TRIPLE by that condition.
fn told_of_filter(condition: Entry) -> Option<u8> {
    told_of(&[triple(0), condition, Entry::Filter(0, 1)])
}

// VALUES alone, over four value rows: the first holds no terms, the second blank nodes.
fn told_of_values(first: usize, count: usize) -> Option<u8> {
    let values = [row(4), row(2), row(1), row(3)];
    told(&[Entry::Values { first, count }], &values, EMPTY_ROW, 1)
}

fn row(number: u32) -> Row {
    Row {
        places: [Term(number); 16],
    }
}

// A TRIPLE over that variable.
fn triple(variable: u8) -> Entry {
    let predicate = Position::Term(Term(1));
    Entry::Triple(
        Position::Variable(Variable(variable)),
        predicate,
        Position::Term(Term(3)),
    )
}

// A TRIPLE that asks whether the three stand in the graph.
fn ground(subject: u32, predicate: u32, object: u32) -> Entry {
    Entry::Triple(
        Position::Term(Term(subject)),
        Position::Term(Term(predicate)),
        Position::Term(Term(object)),
    )
}

// Two INITIALs, an EXISTS of the second, NOT upon NOT of it, and a FILTER of the first by the last of them.
fn chain<const N: usize>() -> [Entry; N] {
    let last = N.saturating_sub(1);
    array::from_fn(|n| match n {
        0 | 1 => Entry::Initial,
        2 => Entry::Exists(1),
        _ if n == last => Entry::Filter(0, n - 1),
        _ => Entry::Not(n - 1),
    })
}

// A chain of 64 entries passes, one of 65 does not; nor does an empty table.
#[test]
fn size(rt: HostRuntime) {
    let most = chain::<64>();
    let more = chain::<65>();
    assert_eq!(rt;
        [told_of(&most), told_of(&more), told_of(&[])],
        [None, Some(1), Some(1)]
    );
}

// An entry named too early, of the wrong kind, twice or never; and the earlier check of two that fail.
#[test]
fn shape(rt: HostRuntime) {
    let told = [
        told_of(&[triple(0), Entry::And(0, 1)]),
        told_of(&[triple(0), Entry::Filter(0, 0)]),
        told_of(&[triple(0), Entry::Exists(0)]),
        told_of(&[triple(0), Entry::And(0, 0)]),
        told_of(&[triple(0), triple(0)]),
        told_of(&[triple(16), Entry::And(0, 0)]),
    ];
    assert_eq!(rt;
        told,
        [Some(2), Some(3), Some(3), Some(4), Some(4), Some(4)]
    );
}

// Variables 15 and 16; terms that each position of a TRIPLE takes, and one that it does not.
#[test]
fn fields(rt: HostRuntime) {
    let told = [
        told_of(&[triple(15)]),
        told_of(&[triple(16)]),
        told_of(&[ground(5, 1, 7)]),
        told_of(&[ground(3, 1, 7)]),
        told_of(&[ground(5, 3, 7)]),
        told_of(&[ground(5, 1, 2)]),
        told_of(&[ground(5, 1, 4)]),
    ];
    assert_eq!(rt;
        told,
        [None, Some(5), None, Some(6), Some(6), Some(6), Some(6)]
    );
}

// The same in conditions.
#[test]
fn conditions(rt: HostRuntime) {
    let variable = Position::Variable(Variable(0));
    let told = [
        told_of_filter(Entry::Bound(Variable(15))),
        told_of_filter(Entry::Bound(Variable(16))),
        told_of_filter(Entry::Equal(variable, Position::Term(Term(3)))),
        told_of_filter(Entry::Equal(variable, Position::Term(Term(2)))),
        told_of_filter(Entry::Blank(Position::Variable(Variable(16)))),
        told_of_filter(Entry::Blank(Position::Term(Term(0)))),
    ];
    assert_eq!(rt; told, [None, Some(5), None, Some(6), Some(5), Some(6)]);
}

// Spans that end with the value rows, over rows that are no data rows, past the end, and at the largest numbers.
#[test]
fn spans(rt: HostRuntime) {
    let told = [
        told_of_values(2, 2),
        told_of_values(0, 1),
        told_of_values(1, 1),
        told_of_values(4, 0),
        told_of_values(5, 0),
        told_of_values(3, 2),
        told_of_values(1, usize::MAX),
        told_of_values(usize::MAX, usize::MAX),
    ];
    assert_eq!(rt;
        told,
        [
            None,
            Some(7),
            Some(7),
            None,
            Some(7),
            Some(7),
            Some(7),
            Some(7)
        ]
    );
}

// A starting row of blank nodes, one of numbers that are no terms, and too few row places.
#[test]
fn memory(rt: HostRuntime) {
    let told = [
        told(&[triple(0)], &[], row(2), 1),
        told(&[triple(0)], &[], row(4), 0),
        told(&[triple(0)], &[], row(2), 0),
    ];
    assert_eq!(rt; told, [None, Some(8), Some(9)]);
}
