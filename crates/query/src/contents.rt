// Whether the variables, terms and value rows of a table's entries are such as may stand there.
ghost use Rattle.std.specs.Prelude.{◌≡◌};
ghost use Rattle.std.specs.List.{list_all};
ghost use Rattle.rdf.specs.Rows.{is_data_row};
ghost use Rattle.query.specs.Rules.{position_in_range, positions_fit, span_fits, takes_constant, takes_identifier, values_fit, variables_in_range};

use crate::table::{Entry, Position};
use rdf::row::Row;

// Whether rows have a place for each variable.
pub(crate) fn variables_fit(entries: &[Entry]) -> bool
    ensures { result ≡ list_all variables_in_range entries.now }
{
    entries.iter().all(variables_in_range)
}

fn variables_in_range(entry: &Entry) -> bool
    ensures { result ≡ variables_in_range entry.now }
{
    match *entry {
        Entry::Triple(s, p, o) => position_in_range(s)
            && position_in_range(p)
            && position_in_range(o),
        Entry::Equal(x, y) => position_in_range(x) && position_in_range(y),
        Entry::Blank(x) => position_in_range(x),
        Entry::Bound(v) => v.is_in_range(),
        Entry::Values { .. } | Entry::Initial | Entry::Select(_, _) | Entry::Filter(_, _) => true,
        Entry::And(_, _) | Entry::Union(_, _) | Entry::Opt(_, _) | Entry::Minus(_, _) => true,
        Entry::Not(_) | Entry::Both(_, _) | Entry::Either(_, _) | Entry::Exists(_) => true,
    }
}

fn position_in_range(position: Position) -> bool
    ensures { result ≡ position_in_range position }
{
    match position {
        Position::Variable(v) => v.is_in_range(),
        Position::Term(_) => true,
    }
}

// Whether each term in a position is of a sort that the position takes.
pub(crate) fn positions_fit(entries: &[Entry]) -> bool
    ensures { result ≡ list_all positions_fit entries.now }
{
    entries.iter().all(entry_positions_fit)
}

fn entry_positions_fit(entry: &Entry) -> bool
    ensures { result ≡ positions_fit entry.now }
{
    match *entry {
        Entry::Triple(s, p, o) => takes_identifier(s) && takes_identifier(p) && takes_constant(o),
        Entry::Equal(x, y) => takes_constant(x) && takes_constant(y),
        Entry::Blank(x) => takes_constant(x),
        Entry::Values { .. } | Entry::Initial | Entry::Select(_, _) | Entry::Filter(_, _) => true,
        Entry::And(_, _) | Entry::Union(_, _) | Entry::Opt(_, _) | Entry::Minus(_, _) => true,
        Entry::Not(_)
        | Entry::Both(_, _)
        | Entry::Either(_, _)
        | Entry::Exists(_)
        | Entry::Bound(_) => true,
    }
}

// A variable, or an identifier.
fn takes_identifier(position: Position) -> bool
    ensures { result ≡ takes_identifier position }
{
    match position {
        Position::Variable(_) => true,
        Position::Term(t) => t.is_identifier(),
    }
}

// A variable, an identifier or a literal.
fn takes_constant(position: Position) -> bool
    ensures { result ≡ takes_constant position }
{
    match position {
        Position::Variable(_) => true,
        Position::Term(t) => t.is_identifier() || t.is_literal(),
    }
}

// Whether each span of value rows lies within them and has data rows only.
pub(crate) fn values_fit(entries: &[Entry], values: &[Row]) -> bool
    ensures { result ≡ list_all (values_fit values.now) entries.now }
{
    entries.iter().all(|entry| entry_values_fit(values, entry))
}

fn entry_values_fit(values: &[Row], entry: &Entry) -> bool
    ensures { result ≡ values_fit values.now entry.now }
{
    match *entry {
        Entry::Values { first, count } => span_fits(values, first, count),
        Entry::Triple(_, _, _) | Entry::Initial | Entry::Select(_, _) | Entry::Filter(_, _) => true,
        Entry::And(_, _) | Entry::Union(_, _) | Entry::Opt(_, _) | Entry::Minus(_, _) => true,
        Entry::Equal(_, _) | Entry::Blank(_) | Entry::Bound(_) => true,
        Entry::Not(_) | Entry::Both(_, _) | Entry::Either(_, _) | Entry::Exists(_) => true,
    }
}

// The sum of first and count may pass the largest usize, so it is not formed before it is known to fit.
// Kept: tried `get(first..)` and then `get(..count)`: the check does not join the two.
fn span_fits(values: &[Row], first: usize, count: usize) -> bool
    ensures { result ≡ span_fits values.now first count }
{
    if first > values.len() || count > values.len() - first {
        return false;
    }
    rows_are_data(&values[first..first + count])
}

fn rows_are_data(rows: &[Row]) -> bool
    ensures { result ≡ list_all is_data_row rows.now }
{
    rows.iter().all(Row::is_data)
}
