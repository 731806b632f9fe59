// The checks that a question makes before it touches any memory, each over all entries before the next.
ghost use Rattle.std.specs.Prelude.{◌≡◌, Err, Ok, OnOk, if◌then◌else◌};
ghost use Rattle.query.specs.First.{checked, first_refusal};
ghost use Rattle.query.specs.WellFormed.{Accepted};

use crate::contents::{positions_fit, values_fit, variables_fit};
use crate::shape::{is_tree, kinds_fit, names_earlier, size_fits};
use crate::table::Query;
use rdf::refusal::Refusal;
use rdf::row::Row;

// Whether the query passes; its table, its value rows, the starting row and the number of places in row memory decide it.
pub fn check(query: &Query, start: &Row, row_places: usize) -> Result<(), Refusal>
    ensures answers { result ≡ checked (first_refusal query.now.entries.now query.now.values.now start.now row_places) }
    ensures accepted { OnOk result (Accepted query.now.entries.now query.now.values.now start.now row_places) }
{
    let entries = query.entries;
    ensure(size_fits(entries), Refusal::TableSize)?;
    ensure(names_earlier(entries), Refusal::ForwardReference)?;
    ensure(kinds_fit(entries), Refusal::WrongKind)?;
    ensure(is_tree(entries), Refusal::NotATree)?;
    ensure(variables_fit(entries), Refusal::VariableRange)?;
    ensure(positions_fit(entries), Refusal::BadPosition)?;
    ensure(values_fit(entries, query.values), Refusal::BadValues)?;
    ensure(start.holds_terms(), Refusal::BadStart)?;
    ensure(entries.len() <= row_places, Refusal::FewRows)
}

fn ensure(passes: bool, refusal: Refusal) -> Result<(), Refusal>
    ensures { result ≡ (if passes then Ok tt else Err refusal) }
{
    if passes { Ok(()) } else { Err(refusal) }
}
