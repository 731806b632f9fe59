// Questions that are refused, and the nearest that are not.
use crate::asking::{Case, ask_all};
use crate::shorthand::{filtered, row, select_none, the, v, values, weight_17, weights};
use graph::graph::Graph;
use query::table::Entry;
use rdf::row::EMPTY_ROW;
use rdf::variable::Variable;
use std::io;

// Tables that are no tree.
fn shape<G: Graph>(rt: &impl Print, graph: &G) -> io::Result<()> {
    ask_all(
        rt,
        graph,
        "Tables that are no tree",
        &[
            Case::new("no entry", &[], 1),
            Case::new("names itself", &[Entry::Initial, Entry::And(0, 1)], 2),
            Case::new("names a later entry", &[select_none(1), Entry::Initial], 2),
            Case::new(
                "pattern as condition",
                &[Entry::Initial, Entry::Initial, Entry::Filter(0, 1)],
                3,
            ),
            Case::new(
                "condition as pattern",
                &[Entry::Bound(Variable(0)), Entry::Initial, Entry::And(0, 1)],
                3,
            ),
            Case::new("ends in a condition", &[Entry::Bound(Variable(0))], 1),
            Case::new("named twice", &[weights(), Entry::And(0, 0)], 2),
            Case::new("named nowhere", &[Entry::Initial, Entry::Initial], 2),
        ],
    )
}

// Variables without a place.
fn variables<G: Graph>(rt: &impl Print, graph: &G) -> io::Result<()> {
    ask_all(
        rt,
        graph,
        "Variables without a place",
        &[
            Case::new("TRIPLE with v16", &[Entry::Triple(v(0), the(5), v(16))], 1),
            Case::new(
                "EQUAL with v16",
                &filtered(Entry::Initial, Entry::Equal(v(16), the(1))),
                3,
            ),
            Case::new(
                "BLANK with v16",
                &filtered(Entry::Initial, Entry::Blank(v(16))),
                3,
            ),
            Case::new(
                "BOUND with v16",
                &filtered(Entry::Initial, Entry::Bound(Variable(16))),
                3,
            ),
        ],
    )
}

// Terms that may not stand where they do.
fn positions<G: Graph>(rt: &impl Print, graph: &G) -> io::Result<()> {
    ask_all(
        rt,
        graph,
        "Terms that may not stand where they do",
        &[
            Case::new(
                "blank node in a query",
                &[Entry::Triple(v(0), the(1), the(2))],
                1,
            ),
            Case::new(
                "no term in a query",
                &[Entry::Triple(v(0), the(1), the(4))],
                1,
            ),
            Case::new(
                "unbound in a query",
                &[Entry::Triple(v(0), the(1), the(0))],
                1,
            ),
            Case::new("literal subject", &[Entry::Triple(the(3), the(1), v(1))], 1),
            Case::new("literal predicate", &[Entry::Triple(v(0), the(3), v(1))], 1),
            Case::new("literal object", &[Entry::Triple(v(0), the(5), the(3))], 1),
            Case::new(
                "EQUAL to a blank node",
                &filtered(Entry::Initial, Entry::Equal(v(0), the(2))),
                3,
            ),
            Case::new(
                "BLANK of no term",
                &filtered(Entry::Initial, Entry::Blank(the(4))),
                3,
            ),
        ],
    )
}

// Value rows and starting rows.
fn spans<G: Graph>(rt: &impl Print, graph: &G) -> io::Result<()> {
    ask_all(
        rt,
        graph,
        "Value rows and starting rows",
        &[
            Case::new("no such value row", &[values(0, 1)], 1),
            Case::new("span past the end", &[values(1, 1)], 1).with(&[EMPTY_ROW]),
            Case::new("empty span past the end", &[values(2, 0)], 1).with(&[EMPTY_ROW]),
            Case::new("blank node in values", &[values(0, 1)], 1).with(&[row(2, 0, 0)]),
            Case::new("no term in values", &[values(0, 1)], 1).with(&[row(4, 0, 0)]),
            Case::new("no term at the start", &[Entry::Initial], 1).at(row(4, 0, 0)),
        ],
    )
}

// Memories that are too small.
fn memories<G: Graph>(rt: &impl Print, graph: &G) -> io::Result<()> {
    ask_all(
        rt,
        graph,
        "Memories that are too small",
        &[
            Case::new(
                "as many places as entries",
                &[Entry::Initial, select_none(0)],
                2,
            ),
            Case::new("one place fewer", &[Entry::Initial, select_none(0)], 1),
            Case::new("no row place", &[Entry::Initial], 0),
            Case::new("graph just fits", &[Entry::Initial], 1).reading(3),
            Case::new("graph too large", &[Entry::Initial], 1).reading(2),
            Case::new("no place to read into", &[Entry::Initial], 1).reading(0),
            Case::new(
                "set too large",
                &filtered(weights(), Entry::Bound(Variable(0))),
                5,
            ),
        ],
    )
}

// Which refusal comes first.
fn shape_first<G: Graph>(rt: &impl Print, graph: &G) -> io::Result<()> {
    ask_all(
        rt,
        graph,
        "Which refusal comes first",
        &[
            Case::new("forward before kind", &[Entry::Initial, Entry::Not(1)], 2),
            Case::new(
                "forward later before kind",
                &[Entry::Initial, Entry::Not(0), Entry::And(0, 2)],
                3,
            ),
            Case::new(
                "kind before tree",
                &[Entry::Initial, Entry::Initial, Entry::Bound(Variable(0))],
                3,
            ),
            Case::new(
                "tree before variable",
                &[Entry::Triple(v(16), the(1), v(0)), Entry::Initial],
                2,
            ),
            Case::new(
                "variable before position",
                &[
                    Entry::Triple(v(0), the(2), v(1)),
                    Entry::Triple(v(16), the(1), v(0)),
                    Entry::And(0, 1),
                ],
                3,
            ),
        ],
    )
}

// Which refusal comes first, of values and memories.
fn memory_last<G: Graph>(rt: &impl Print, graph: &G) -> io::Result<()> {
    ask_all(
        rt,
        graph,
        "Which refusal comes first, of values and memories",
        &[
            Case::new(
                "position before values",
                &[
                    values(0, 1),
                    Entry::Triple(v(0), the(2), v(1)),
                    Entry::And(0, 1),
                ],
                3,
            ),
            Case::new("values before start", &[values(0, 1)], 1).at(row(4, 0, 0)),
            Case::new("start before places", &[Entry::Initial], 0).at(row(4, 0, 0)),
            Case::new("places before reading", &[Entry::Initial], 0).reading(2),
            Case::new(
                "reading before sets",
                &filtered(weights(), Entry::Bound(Variable(0))),
                5,
            )
            .reading(2),
            Case::new(
                "filled reading, cleared rows",
                &[weight_17(), weights(), Entry::And(0, 1)],
                3,
            )
            .reading(4),
        ],
    )
}

pub(crate) fn refusals<G: Graph>(rt: &impl Print, graph: &G) -> io::Result<()> {
    shape(rt, graph)?;
    variables(rt, graph)?;
    positions(rt, graph)?;
    spans(rt, graph)?;
    memories(rt, graph)?;
    shape_first(rt, graph)?;
    memory_last(rt, graph)
}
