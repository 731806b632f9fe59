// Total orders.
ghost use Rattle.std.specs.Prelude.{◌≡◌};
ghost use Rattle.std.specs.declared.cmp.Ordering.{Ordering as Three};
ghost use Rattle.order.specs.Lexical.{list_order, number_order};
ghost use Rattle.order.specs.Order.{Laws};
ghost use Rattle.order.specs.OrderLaws.{number_laws};

use std::cmp::Ordering;

// Elements that stand in a total order, in which only an element itself is equal to it.
pub trait TotalOrder {
    ghost compare: { Self → Self → Three };

    // Where `self` stands to `other`.
    fn order(&self, other: &Self) -> Ordering
        ensures { result ≡ compare self.now other.now };

    ghost lawful: { Laws compare };
}

// Two slices by the first place at which they differ; a slice comes after each of its fronts.
pub fn lexical<T: TotalOrder>(xs: &[T], ys: &[T]) -> Ordering
    ensures { result ≡ list_order T.compare xs.now ys.now }
{
    for (x, y) in xs.iter().zip(ys) {
        match x.order(y) {
            Ordering::Equal => {}
            unequal => return unequal,
        }
    }
    xs.len().cmp(&ys.len())
}

// Kept: std's `Ord` does not say that only a number itself is equal to it, which the law here asks.
impl TotalOrder for u32 {
    ghost compare = { number_order };

    ghost lawful = { number_laws };

    fn order(&self, other: &u32) -> Ordering {
        self.cmp(other)
    }
}
