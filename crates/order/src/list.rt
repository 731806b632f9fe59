// A set in ascending order, in a slice that is lent to it.
ghost use Rattle.std.specs.Prelude.{◌≡◌, ◌+◌, ◌<◌, ◌≤◌, length, replicate};
ghost use Rattle.std.specs.List.{copy_within};
ghost use Rattle.order.specs.Sets.{Ascending, rank as place};

use crate::total::TotalOrder;

mod methods;

// The first `len` of the places hold the elements, and the other places are spare. Each method keeps the elements strictly ascending
// where they were so. Each may be called on a list whose elements are not: it ends and stays within the places.
// Kept: that the elements ascend is a condition in the clauses and no invariant: `of_first` takes any places, and a public call asks nothing.
// Kept: the places are lent by the caller, so a list is a front of them, and has its length beside it.
#[derive(Drop)]
pub struct OrderedList<'a, T> {
    places: &'a mut [T],
    len: usize,
    ghost within: { len ≤ length places.now },
}

// What became of an insertion.
#[derive(Clone, Copy, PartialEq, Eq, Debug)]
pub enum Insertion {
    Made,
    // The element was there already.
    Held,
    // There was no spare place.
    Full,
}

// How many elements of a slice come before the first that is not below x: all, where the last is below x, and else by halving.
pub fn lower_bound<T: TotalOrder + Copy>(places: &[T], x: &T) -> usize
    ensures within { result ≤ length places.now }
    ensures place { Ascending T.compare places.now → result ≡ place T.compare x.now places.now }
{
    if let Some(last) = places.last() {
        if last.order(x).is_lt() {
            return places.len();
        }
    }
    // Kept: tried `partition_point`: it takes other steps, so a slice that does not ascend gets another answer, and searching takes longer.
    let mut low = 0;
    let mut high = places.len();
    while low < high {
        let mid = low + (high - low) / 2;
        if places[mid].order(x).is_lt() {
            low = mid + 1;
        } else {
            high = mid;
        }
    }
    low
}

// Moves the elements from `at` up to `len` one place up. Where there are none, as when the list grows at its end, it costs one comparison.
fn raise<T: Copy>(places: &mut [T], at: usize, len: usize)
    requires { (at ≤ len) × (len < length places.old) }
    ensures { places.new ≡ copy_within places.old at len (at + 1) }
{
    if at < len {
        places.copy_within(at..len, at + 1);
    }
}

// Writes `blank` into every place.
// Kept: `places.fill(blank)`, tried, asks that a copy cannot fail, which `Copy` alone does not say.
pub fn fill<T: Copy>(places: &mut [T], blank: T)
    ensures { places.new ≡ replicate (length places.old) blank }
{
    places.fill_with(|| blank);
}
