// The list at its edges: no place, one place, no spare place; elements below all, above all and held.
use crate::list::{Insertion, OrderedList};

// Puts x into the list of the first `len` places.
fn put(places: &mut [u32], len: usize, x: u32) -> Insertion {
    OrderedList::of_first(places, len).put(x)
}

// Takes x out of the list of the first `len` places.
fn take_out(places: &mut [u32], len: usize, x: u32) -> bool {
    OrderedList::of_first(places, len).take_out(&x, 0)
}

// The least of the places above x.
fn above(places: &mut [u32], x: u32) -> Option<u32> {
    OrderedList::of_first(places, usize::MAX).above(&x)
}

#[test]
fn no_place(rt: HostRuntime) {
    let mut places: [u32; 0] = [];
    assert_eq!(rt; put(&mut places, 0, 7), Insertion::Full);
    assert!(rt; !take_out(&mut places, 0, 7));
    assert_eq!(rt; above(&mut places, 0), None);
}

#[test]
fn one_place(rt: HostRuntime) {
    let mut places = [0];
    assert_eq!(rt; put(&mut places, 0, u32::MAX), Insertion::Made);
    assert_eq!(rt; put(&mut places, 1, u32::MAX), Insertion::Held);
    assert_eq!(rt; put(&mut places, 1, 0), Insertion::Full);
    assert_eq!(rt; places, [u32::MAX]);
}

#[test]
fn below_all_and_above_all(rt: HostRuntime) {
    let mut places = [5, 8, 8];
    assert_eq!(rt; put(&mut places, 1, 3), Insertion::Made);
    assert_eq!(rt; put(&mut places, 2, u32::MAX), Insertion::Made);
    assert_eq!(rt; places, [3, 5, u32::MAX]);
}

#[test]
fn full_leaves_every_place(rt: HostRuntime) {
    let mut places = [2, 5, 9];
    assert_eq!(rt; put(&mut places, 3, 1), Insertion::Full);
    assert_eq!(rt; put(&mut places, 3, 6), Insertion::Full);
    assert_eq!(rt; put(&mut places, 9, u32::MAX), Insertion::Full);
    assert_eq!(rt; places, [2, 5, 9]);
}

#[test]
fn takes_out_the_one(rt: HostRuntime) {
    let mut places = [2, 5, 9];
    assert!(rt; !take_out(&mut places, 3, 6));
    assert!(rt; take_out(&mut places, 3, 5));
    assert_eq!(rt; places, [2, 9, 0]);
}

#[test]
fn next_above(rt: HostRuntime) {
    let mut places = [0, 5, u32::MAX];
    assert_eq!(rt; above(&mut places, 0), Some(5));
    assert_eq!(rt; above(&mut places, 6), Some(u32::MAX));
    assert_eq!(rt; above(&mut places, u32::MAX), None);
}
