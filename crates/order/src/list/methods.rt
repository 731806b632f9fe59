// The methods of an ordered list: a file of its own, since what their clauses cite is defined over the struct.
ghost use Rattle.std.specs.Prelude.{◌≡◌, ◌≤◌, [], length, take, drop, replicate, if◌then◌else◌, Some, None};
ghost use Rattle.std.specs.List.{slice_get};
ghost use Rattle.std.specs.List.Sorted.{IsSearchInRange};
ghost use Rattle.order.specs.Sets.{Ascending, above as next, IsAbove, located, holds, rank as place};
ghost use Rattle.order.specs.OrderedLists.{Enters, Leaves, Ordered, Puts, TakesOut, elements, spare};

use super::{Insertion, OrderedList, fill, lower_bound, raise};
use crate::total::TotalOrder;

impl<'a, T: TotalOrder + Copy> OrderedList<'a, T> {
    // The empty list over the given places, which become blank.
    pub fn cleared(places: &'a mut [T], blank: T) -> OrderedList<'a, T>
        ensures same { result.places.ghost_name ≡ places.entry.ghost_name }
        ensures ordered { Ordered T.compare result }
        ensures empty { elements result ≡ [] }
        ensures spare { spare result ≡ replicate (length places.old) blank }
    {
        fill(places, blank);
        OrderedList::over(places)
    }

    // The empty list over the given places.
    pub fn over(places: &'a mut [T]) -> OrderedList<'a, T>
        ensures same { result.places.ghost_name ≡ places.entry.ghost_name }
        ensures ordered { Ordered T.compare result }
        ensures empty { elements result ≡ [] }
        ensures spare { spare result ≡ places.old }
    {
        OrderedList { places, len: 0 }
    }

    // The list of the first `len` elements of the given places, or of all where they are fewer.
    pub fn of_first(places: &'a mut [T], len: usize) -> OrderedList<'a, T>
        ensures same { result.places.ghost_name ≡ places.entry.ghost_name }
        ensures ordered { Ascending T.compare (take len places.old) → Ordered T.compare result }
        ensures places { result.places.now ≡ places.old }
        ensures elements { elements result ≡ take len places.old }
        ensures spare { spare result ≡ drop len places.old }
    {
        let len = len.min(places.len());
        OrderedList { places, len }
    }

    // The places, given back.
    pub fn into_places(self) -> &'a mut [T]
        ensures same { result.ghost_name ≡ self.entry.places.ghost_name }
        ensures value { result.now ≡ self.entry.places.now }
    {
        let OrderedList { places, len: _ } = self;
        places
    }

    // How many elements there are.
    pub fn len(&self) -> usize
        ensures count { result ≡ length (elements self.now) }
        ensures within { result ≤ length self.now.places.now }
    {
        self.len
    }

    // How many places are spare.
    pub fn free(&self) -> usize
        ensures { result ≡ length (spare self.now) }
    {
        self.places.len() - self.len
    }

    // The elements, as they stand.
    fn elements(&self) -> &[T]
        ensures { result.now ≡ elements self.now }
    {
        &self.places[..self.len()]
    }

    // The element at a place, counted from the least.
    pub fn get(&self, i: usize) -> Option<T>
        ensures { result ≡ slice_get (elements self.now) i }
    {
        self.elements().get(i).copied()
    }

    // The place where x stands, or else the place where it belongs.
    fn locate(&self, x: &T) -> Result<usize, usize>
        ensures within { IsSearchInRange result (length (elements self.now)) }
        ensures located { Ordered T.compare self.now → result ≡ located T.compare x.now (elements self.now) }
    {
        let elements = self.elements();
        let at = lower_bound(elements, x);
        match elements.get(at) {
            Some(y) if y.order(x).is_eq() => Ok(at),
            _ => Err(at),
        }
    }

    // Where x stands, counted from the least.
    pub fn find(&self, x: &T) -> Option<usize>
        ensures { Ordered T.compare self.now → result ≡ (if holds T.compare x.now (elements self.now) then Some (place T.compare x.now (elements self.now)) else None) }
    {
        self.locate(x).ok()
    }

    pub fn contains(&self, x: &T) -> bool
        ensures { Ordered T.compare self.now → result ≡ holds T.compare x.now (elements self.now) }
    {
        self.locate(x).is_ok()
    }

    // The least element above x.
    pub fn above(&self, x: &T) -> Option<T>
        ensures value { Ordered T.compare self.now → result ≡ next T.compare x.now (elements self.now) }
        ensures least { Ordered T.compare self.now → IsAbove T.compare x.now (elements self.now) result }
    {
        match self.locate(x) {
            Ok(at) => self.get(at + 1),
            Err(at) => self.get(at),
        }
    }

    // Puts x in, where it is no element yet and a place is spare. Else nothing changes.
    pub fn put(&mut self, x: T) -> Insertion
        ensures same { self.new.places.ghost_name ≡ self.old.places.ghost_name }
        ensures size { length self.new.places.now ≡ length self.old.places.now }
        ensures ordered { Ordered T.compare self.old → Ordered T.compare self.new }
        ensures enters { Enters x self.old self.new result }
        ensures puts { Ordered T.compare self.old → Puts T.compare x self.old self.new result }
    {
        let Err(at) = self.locate(&x) else {
            return Insertion::Held;
        };
        if self.len == self.places.len() {
            return Insertion::Full;
        }
        raise(self.places, at, self.len);
        self.places[at] = x;
        self.len += 1;
        Insertion::Made
    }

    // Takes x out, where it is an element; `blank` goes into the place that becomes spare. Else nothing changes.
    pub fn take_out(&mut self, x: &T, blank: T) -> bool
        ensures same { self.new.places.ghost_name ≡ self.old.places.ghost_name }
        ensures size { length self.new.places.now ≡ length self.old.places.now }
        ensures ordered { Ordered T.compare self.old → Ordered T.compare self.new }
        ensures leaves { Leaves blank self.old self.new result }
        ensures takes { Ordered T.compare self.old → TakesOut T.compare x.now blank self.old self.new result }
    {
        let Ok(at) = self.locate(x) else {
            return false;
        };
        self.places.copy_within(at + 1..self.len, at);
        self.places[self.len - 1] = blank;
        self.len -= 1;
        true
    }
}
