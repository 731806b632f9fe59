// Whether a table is one tree of patterns and conditions, below its last entry.
ghost use Rattle.std.specs.Prelude.{◌≡◌, ◌≤◌, length};
ghost use Rattle.query.specs.Rules.{is_due, is_tree, kinds_fit, names_below, names_due, names_earlier, size_fits, times_in, times_named};

use crate::table::{Child, Children, Entry, Kind};

// Whether the table has 1 to 64 entries.
pub(crate) fn size_fits(entries: &[Entry]) -> bool
    ensures { result ≡ size_fits entries.now }
{
    0 < entries.len() && entries.len() <= 64
}

// Whether each entry names only entries that stand before it.
pub(crate) fn names_earlier(entries: &[Entry]) -> bool
    ensures { result ≡ names_earlier entries.now }
{
    entries
        .iter()
        .enumerate()
        .all(|(number, entry)| names_below(number, entry))
}

fn names_below(number: usize, entry: &Entry) -> bool
    ensures { result ≡ names_below number entry.now }
{
    match entry.children() {
        Children::None => true,
        Children::One(child) => child.at < number,
        Children::Two(left, right) => left.at < number && right.at < number,
    }
}

// Whether each named entry is of the kind that is due there, and the last entry is a pattern.
pub(crate) fn kinds_fit(entries: &[Entry]) -> bool
    ensures { result ≡ kinds_fit entries.now }
{
    entries.iter().all(|entry| names_due(entries, entry))
        && is_due(entries, Kind::Pattern.at(entries.len().saturating_sub(1)))
}

fn names_due(entries: &[Entry], entry: &Entry) -> bool
    ensures { result ≡ names_due entries.now entry.now }
{
    match entry.children() {
        Children::None => true,
        Children::One(child) => is_due(entries, child),
        Children::Two(left, right) => is_due(entries, left) && is_due(entries, right),
    }
}

// A number past the end names none, and counts as a pattern.
fn is_due(entries: &[Entry], child: Child) -> bool
    ensures { result ≡ is_due entries.now child }
{
    entries.get(child.at).unwrap_or(&Entry::Initial).kind() == child.due
}

// Whether each entry before the last is named exactly once.
pub(crate) fn is_tree(entries: &[Entry]) -> bool
    requires { length entries.now ≤ 64 }
    ensures { result ≡ is_tree entries.now }
{
    (0..entries.len().saturating_sub(1)).all(|number| times_named(entries, number) == 1)
}

fn times_named(entries: &[Entry], number: usize) -> usize
    requires { length entries.now ≤ 64 }
    ensures { result ≡ times_named entries.now number }
{
    entries.iter().map(|entry| times_in(number, entry)).sum()
}

fn times_in(number: usize, entry: &Entry) -> usize
    ensures value { result ≡ times_in number entry.now }
    ensures few { result ≤ 2 }
{
    match entry.children() {
        Children::None => 0,
        Children::One(child) => usize::from(child.at == number),
        Children::Two(left, right) => {
            usize::from(left.at == number) + usize::from(right.at == number)
        }
    }
}
