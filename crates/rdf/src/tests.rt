// Small examples of terms, orders and rows, proved and run.
use crate::row::{EMPTY_ROW, Row};
use crate::term::{Term, UNBOUND};
use crate::triple::Triple;
use crate::variable::{Variable, VariableSet};
use order::total::TotalOrder;
use std::cmp::Ordering;

#[test]
fn largest_number_is_a_literal(rt: HostRuntime) {
    assert!(rt; Term(u32::MAX).is_literal());
    assert!(rt; Term(u32::MAX).is_data());
    assert!(rt; !Term(8).is_term());
    assert!(rt; !Term(8).is_place());
}

#[test]
fn last_number_tells_triples_apart(rt: HostRuntime) {
    let small = Triple {
        subject: Term(1),
        predicate: Term(1),
        object: Term(3),
    };
    let large = Triple {
        subject: Term(1),
        predicate: Term(1),
        object: Term(u32::MAX),
    };
    assert_eq!(rt; small.order(&large), Ordering::Less);
    assert_ne!(rt; small, large);
}

#[test]
fn last_place_tells_rows_apart(rt: HostRuntime) {
    let row = Row::binding(Variable(15), Term(5));
    assert_ne!(rt; row, EMPTY_ROW);
    assert_eq!(rt; row.value(Variable(15)), Term(5));
    assert_eq!(rt; row.with(Variable(16), Term(9)), row);
}

#[test]
fn union_binds_what_either_binds(rt: HostRuntime) {
    let left = Row::binding(Variable(0), Term(5));
    let right = Row::binding(Variable(1), Term(7));
    assert!(rt; left.agrees(&right));
    assert_eq!(rt; left.union(&right).value(Variable(1)), Term(7));
    assert!(rt; !left.agrees(&Row::binding(Variable(0), Term(9))));
}

#[test]
fn projection_leaves_the_other_places_unbound(rt: HostRuntime) {
    let both = Row::binding(Variable(0), Term(5)).with(Variable(1), Term(7));
    let first = both.project(VariableSet::none().with(Variable(0)));
    assert_eq!(rt; first.value(Variable(0)), Term(5));
    assert_eq!(rt; first.value(Variable(1)), UNBOUND);
}
