// What the solutions are.
use crate::asking::{Case, ask_all};
use crate::shorthand::{
    error, falsehood, filtered, in_grams, row, select_one, the, truth, unmeasured, v, values,
    weights,
};
use graph::graph::Graph;
use query::table::Entry;
use rdf::row::EMPTY_ROW;
use std::io;

// Patterns.
fn matching<G: Graph>(rt: &impl Print, graph: &G) -> io::Result<()> {
    ask_all(
        rt,
        graph,
        "Patterns",
        &[
            Case::new("reels without a partner", &unmeasured(), 14),
            Case::new(
                "optional part",
                &[
                    weights(),
                    Entry::Triple(v(1), the(5), v(2)),
                    Entry::Opt(0, 1),
                ],
                6,
            ),
            Case::new(
                "MINUS agrees without sharing",
                &[
                    weights(),
                    Entry::Triple(v(2), the(5), the(9)),
                    Entry::Minus(0, 1),
                ],
                6,
            ),
            Case::new(
                "MINUS keeps what disagrees",
                &[weights(), in_grams(), Entry::Minus(0, 1)],
                6,
            ),
            Case::new(
                "UNION has each once",
                &[weights(), weights(), Entry::Union(0, 1)],
                6,
            ),
            Case::new("last variable", &[Entry::Triple(v(0), the(5), v(15))], 1),
        ],
    )
}

// The weights where two conditions, joined to a third, are false.
fn unless(first: Entry, second: Entry, joined: Entry) -> [Entry; 6] {
    [
        weights(),
        first,
        second,
        joined,
        Entry::Not(3),
        Entry::Filter(0, 4),
    ]
}

// Conditions.
fn three_valued<G: Graph>(rt: &impl Print, graph: &G) -> io::Result<()> {
    let both = Entry::Both(1, 2);
    let either = Entry::Either(1, 2);
    let stays = [weights(), error(), Entry::Not(1), Entry::Filter(0, 2)];
    let true_before = [weights(), error(), truth(), either, Entry::Filter(0, 3)];
    ask_all(
        rt,
        graph,
        "Conditions",
        &[
            Case::new("error stays error", &stays, 8),
            Case::new(
                "false before error",
                &unless(error(), falsehood(), both),
                12,
            ),
            Case::new("error after false", &unless(falsehood(), error(), both), 12),
            Case::new("error with true", &unless(error(), truth(), both), 12),
            Case::new("true before error", &true_before, 10),
            Case::new(
                "error with false",
                &unless(error(), falsehood(), either),
                12,
            ),
        ],
    )
}

// Tests of terms, and SELECT.
fn terms<G: Graph>(rt: &impl Print, graph: &G) -> io::Result<()> {
    ask_all(
        rt,
        graph,
        "Tests of terms, and SELECT",
        &[
            Case::new("blank weights", &filtered(weights(), Entry::Blank(v(1))), 6),
            Case::new(
                "no blank reels",
                &filtered(weights(), Entry::Blank(v(0))),
                6,
            ),
            Case::new(
                "equal terms",
                &filtered(weights(), Entry::Equal(v(0), the(17))),
                6,
            ),
            Case::new("selected variable", &[weights(), select_one(0, 0)], 4),
            Case::new(
                "selected and never bound",
                &[weights(), select_one(0, 2)],
                4,
            ),
        ],
    )
}

// Value rows.
fn value_rows<G: Graph>(rt: &impl Print, graph: &G) -> io::Result<()> {
    ask_all(
        rt,
        graph,
        "Value rows",
        &[
            Case::new("no value row", &[values(0, 0)], 1),
            Case::new("one empty value row", &[values(0, 1)], 1).with(&[EMPTY_ROW]),
            Case::new("span from the second row", &[values(1, 1)], 1).with(&[
                row(1, 0, 0),
                row(5, 0, 0),
                row(9, 0, 0),
            ]),
            Case::new("value row twice", &[values(0, 2)], 1).with(&[row(1, 0, 0), row(1, 0, 0)]),
            Case::new("literal in values", &[values(0, 1)], 1).with(&[row(3, 0, 0)]),
            Case::new("empty span at the end", &[values(1, 0)], 1).with(&[EMPTY_ROW]),
            Case::new("blank node outside the span", &[values(0, 1)], 1).with(&[
                EMPTY_ROW,
                row(2, 0, 0),
            ]),
        ],
    )
}

// Starting rows.
fn starting_rows<G: Graph>(rt: &impl Print, graph: &G) -> io::Result<()> {
    ask_all(
        rt,
        graph,
        "Starting rows",
        &[
            Case::new(
                "joined starting row",
                &[Entry::Initial, weights(), Entry::And(0, 1)],
                6,
            )
            .at(row(0, 6, 0)),
            Case::new("starting row itself", &[Entry::Initial], 1).at(row(17, 0, 3)),
            Case::new("blank node at the start", &[Entry::Initial], 1).at(row(2, 0, 0)),
            Case::new("starting row cuts nothing", &[weights()], 2).at(row(17, 0, 0)),
        ],
    )
}

pub(crate) fn solutions<G: Graph>(rt: &impl Print, graph: &G) -> io::Result<()> {
    matching(rt, graph)?;
    three_valued(rt, graph)?;
    terms(rt, graph)?;
    value_rows(rt, graph)?;
    starting_rows(rt, graph)
}
