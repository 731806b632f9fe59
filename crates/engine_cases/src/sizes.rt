// How many rows the working sets have.
use crate::asking::{Case, ask_all};
use crate::shorthand::{
    falsehood, in_grams, row, select_none, select_one, the, truth, unmeasured, v, values,
    weight_17, weights,
};
use graph::graph::Graph;
use query::table::Entry;
use std::io;

// Row memory by the place.
fn places<G: Graph>(rt: &impl Print, graph: &G) -> io::Result<()> {
    ask_all(
        rt,
        graph,
        "Row memory by the place",
        &[
            Case::new("enough for two rows each", &unmeasured(), 14),
            Case::new("one place short", &unmeasured(), 13),
            Case::new("one row each", &unmeasured(), 7),
            Case::new("fewer places than entries", &unmeasured(), 6),
            Case::new(
                "not cut by the left row",
                &[weight_17(), weights(), Entry::And(0, 1)],
                3,
            ),
            Case::new(
                "left and right whole",
                &[weight_17(), weights(), Entry::And(0, 1)],
                6,
            ),
        ],
    )
}

// Sets on the way.
fn sides<G: Graph>(rt: &impl Print, graph: &G) -> io::Result<()> {
    let rows = [row(1, 0, 0), row(5, 0, 0), row(0, 1, 0), row(0, 5, 0)];
    ask_all(
        rt,
        graph,
        "Sets on the way",
        &[
            Case::new(
                "empty left side",
                &[values(0, 0), weights(), Entry::And(0, 1)],
                6,
            ),
            Case::new(
                "join larger than its sides",
                &[values(0, 2), values(2, 2), Entry::And(0, 1)],
                12,
            )
            .with(&rows),
            Case::new(
                "union larger than its sides",
                &[values(0, 2), values(2, 2), Entry::Union(0, 1)],
                12,
            )
            .with(&rows),
            Case::new(
                "optional larger than its sides",
                &[values(0, 2), values(2, 2), Entry::Opt(0, 1)],
                12,
            )
            .with(&rows),
        ],
    )
}

// A value row joined with the weight of reel 17 and its partner.
fn partnered(entry: Entry) -> [Entry; 5] {
    [
        values(0, 1),
        weight_17(),
        Entry::Triple(v(3), the(1), v(2)),
        entry,
        Entry::And(0, 3),
    ]
}

// Sets that no outer row cuts.
fn uncut<G: Graph>(rt: &impl Print, graph: &G) -> io::Result<()> {
    ask_all(
        rt,
        graph,
        "Sets that no outer row cuts",
        &[
            Case::new(
                "SELECT of no variable",
                &[values(0, 1), weights(), select_none(1), Entry::And(0, 2)],
                8,
            )
            .with(&[row(17, 0, 0)]),
            Case::new("partner of OPT", &partnered(Entry::Opt(1, 2)), 10).with(&[row(0, 0, 13)]),
            Case::new("partner of MINUS", &partnered(Entry::Minus(1, 2)), 10).with(&[row(
                0, 0, 13,
            )]),
            Case::new(
                "EXISTS",
                &[
                    weight_17(),
                    weights(),
                    Entry::Exists(1),
                    Entry::Filter(0, 2),
                ],
                8,
            ),
        ],
    )
}

// The weight of reel 17 where a condition, joined to EXISTS after it, is true.
fn before_exists(condition: Entry, joined: Entry) -> [Entry; 6] {
    [
        weight_17(),
        condition,
        weights(),
        Entry::Exists(2),
        joined,
        Entry::Filter(0, 4),
    ]
}

// The same with EXISTS first.
fn after_exists(condition: Entry, joined: Entry) -> [Entry; 6] {
    [
        weight_17(),
        weights(),
        Entry::Exists(1),
        condition,
        joined,
        Entry::Filter(0, 4),
    ]
}

// EXISTS needed or not.
fn undecided<G: Graph>(rt: &impl Print, graph: &G) -> io::Result<()> {
    let before_false = before_exists(falsehood(), Entry::Both(1, 3));
    let after_false = after_exists(falsehood(), Entry::Both(2, 3));
    let before_true = before_exists(truth(), Entry::Either(1, 3));
    let after_true = after_exists(truth(), Entry::Either(2, 3));
    ask_all(
        rt,
        graph,
        "EXISTS needed or not",
        &[
            Case::new("EXISTS beside false", &before_false, 12),
            Case::new("false beside EXISTS", &after_false, 12),
            Case::new("EXISTS beside true", &before_true, 12),
            Case::new("true beside EXISTS", &after_true, 12),
            Case::new("EXISTS beside false, one row each", &before_false, 6),
            Case::new("true beside EXISTS, one row each", &after_true, 6),
        ],
    )
}

// The value rows for which EXISTS finds the empty row or a weight.
fn either_way() -> [Entry; 7] {
    [
        values(0, 2),
        Entry::Initial,
        weights(),
        select_one(2, 0),
        Entry::Union(1, 3),
        Entry::Exists(4),
        Entry::Filter(0, 5),
    ]
}

fn inside() -> [Entry; 7] {
    [
        weight_17(),
        weight_17(),
        weights(),
        Entry::Exists(2),
        Entry::Filter(1, 3),
        Entry::Exists(4),
        Entry::Filter(0, 5),
    ]
}

fn three_deep() -> [Entry; 12] {
    [
        weights(),
        Entry::Initial,
        Entry::Initial,
        Entry::Initial,
        in_grams(),
        Entry::And(3, 4),
        Entry::Exists(5),
        Entry::Filter(2, 6),
        Entry::Exists(7),
        Entry::Filter(1, 8),
        Entry::Exists(9),
        Entry::Filter(0, 10),
    ]
}

// EXISTS at every row.
fn tested<G: Graph>(rt: &impl Print, graph: &G) -> io::Result<()> {
    let under_not = [
        weight_17(),
        weights(),
        Entry::Exists(1),
        Entry::Not(2),
        Entry::Filter(0, 3),
    ];
    let no_row = [
        Entry::Triple(v(0), the(5), the(3)),
        weights(),
        Entry::Exists(1),
        Entry::Filter(0, 2),
    ];
    let last = [row(17, 0, 0), row(97, 0, 0)];
    let first = [row(5, 0, 0), row(17, 0, 0)];
    ask_all(
        rt,
        graph,
        "EXISTS at every row",
        &[
            Case::new("EXISTS under NOT", &under_not, 10),
            Case::new("no row and no EXISTS", &no_row, 4),
            Case::new("largest at the last row", &either_way(), 21).with(&last),
            Case::new("largest at the first row", &either_way(), 21).with(&first),
            Case::new("EXISTS inside EXISTS", &inside(), 14),
            Case::new("EXISTS three deep", &three_deep(), 24),
        ],
    )
}

pub(crate) fn sizes<G: Graph>(rt: &impl Print, graph: &G) -> io::Result<()> {
    places(rt, graph)?;
    sides(rt, graph)?;
    uncut(rt, graph)?;
    undecided(rt, graph)?;
    tested(rt, graph)
}
