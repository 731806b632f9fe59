// Short names for what the cases are made of.
use query::table::{Entry, Position};
use rdf::row::{EMPTY_ROW, Row};
use rdf::term::Term;
use rdf::triple::Triple;
use rdf::variable::{Variable, VariableSet};

pub(crate) fn triple(subject: u32, predicate: u32, object: u32) -> Triple {
    Triple {
        subject: Term(subject),
        predicate: Term(predicate),
        object: Term(object),
    }
}

pub(crate) fn v(number: u8) -> Position {
    Position::Variable(Variable(number))
}

pub(crate) fn the(term: u32) -> Position {
    Position::Term(Term(term))
}

// The row that binds v0, v1 and v2; 0 is unbound.
pub(crate) fn row(v0: u32, v1: u32, v2: u32) -> Row {
    EMPTY_ROW
        .with(Variable(0), Term(v0))
        .with(Variable(1), Term(v1))
        .with(Variable(2), Term(v2))
}

// Each reel with its weight.
pub(crate) fn weights() -> Entry {
    Entry::Triple(v(0), the(1), v(1))
}

// The weight of reel 17.
pub(crate) fn weight_17() -> Entry {
    Entry::Triple(the(17), the(1), v(1))
}

// Whether v1 is known to be in grams per square metre.
pub(crate) fn in_grams() -> Entry {
    Entry::Triple(v(1), the(5), the(9))
}

// The reels with no weight in grams per square metre.
pub(crate) fn unmeasured() -> [Entry; 7] {
    [
        weights(),
        Entry::Initial,
        in_grams(),
        Entry::And(1, 2),
        Entry::Exists(3),
        Entry::Not(4),
        Entry::Filter(0, 5),
    ]
}

// A condition that is an error, since v5 is never bound.
pub(crate) fn error() -> Entry {
    Entry::Equal(v(5), the(9))
}

pub(crate) fn falsehood() -> Entry {
    Entry::Bound(Variable(5))
}

pub(crate) fn truth() -> Entry {
    Entry::Bound(Variable(1))
}

// A SELECT of no variable.
pub(crate) fn select_none(child: usize) -> Entry {
    Entry::Select(child, VariableSet::none())
}

// A SELECT of one variable.
pub(crate) fn select_one(child: usize, variable: u8) -> Entry {
    Entry::Select(child, VariableSet::none().with(Variable(variable)))
}

// The rows of a pattern for which a condition is true.
pub(crate) fn filtered(pattern: Entry, condition: Entry) -> [Entry; 3] {
    [pattern, condition, Entry::Filter(0, 1)]
}

// VALUES of the rows from `first` on.
pub(crate) fn values(first: usize, count: usize) -> Entry {
    Entry::Values { first, count }
}
