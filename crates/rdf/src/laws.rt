// What equality, agreement, union and projection of rows come to.
ghost use Rattle.std.specs.Prelude.{◌≡◌, Decides};
ghost use Rattle.rdf.specs.RdfOrders.{same_row};
ghost use Rattle.rdf.specs.RowLaws.{RowsByPlace};

use crate::row::Row;

// The laws of rows, place by place.
pub fn row_laws()
    ensures { RowsByPlace }
{}

// `==` on rows tells whether both are one row, which they are where neither stands before the other.
pub fn row_equality(left: &Row, right: &Row) -> bool
    ensures compared { result ≡ same_row left.now right.now }
    ensures decides { Decides result (left.now ≡ right.now) }
{
    left == right
}
