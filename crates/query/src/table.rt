// The query table.
ghost use Rattle.std.specs.Prelude.{◌≡◌};
ghost use Rattle.query.specs.Entries.{child_list, children_of, kind_of};

use rdf::row::Row;
use rdf::term::Term;
use rdf::variable::{Variable, VariableSet};

// A position of a TRIPLE, an EQUAL or a BLANK: a variable or a term.
#[derive(Clone, Copy, PartialEq, Eq, Debug)]
pub enum Position {
    Variable(Variable),
    Term(Term),
}

// An entry is a pattern or a condition, and names others by their numbers in the table.
// Kept: an entry names others by number, as the rules give a query; boxes would need a heap.
#[derive(Clone, Copy, PartialEq, Eq, Debug)]
pub enum Entry {
    Triple(Position, Position, Position),
    Values { first: usize, count: usize },
    Initial,
    And(usize, usize),
    Union(usize, usize),
    Opt(usize, usize),
    Minus(usize, usize),
    Select(usize, VariableSet),
    Filter(usize, usize),
    Equal(Position, Position),
    Blank(Position),
    Bound(Variable),
    Not(usize),
    Both(usize, usize),
    Either(usize, usize),
    Exists(usize),
}

// What an entry is.
#[derive(Clone, Copy, PartialEq, Eq, Debug)]
pub enum Kind {
    Pattern,
    Condition,
}

// An entry that another names, and what is due there.
#[derive(Clone, Copy, PartialEq, Eq, Debug)]
pub struct Child {
    pub at: usize,
    pub due: Kind,
}

// The entries that one entry names.
// Kept: tried `[Option<Child>; 2]` and `iter().flatten()`: the check finds no proof of a `flatten` over references, and with `copied()` before it the chain is no plainer than these three cases.
#[derive(Clone, Copy, PartialEq, Eq, Debug)]
pub enum Children {
    None,
    One(Child),
    Two(Child, Child),
}

// A query: its table, of which the last entry is the pattern that is put, and its value rows.
#[derive(Clone, Copy)]
pub struct Query<'a> {
    pub entries: &'a [Entry],
    pub values: &'a [Row],
}

impl Kind {
    // The entry of that number, where one of this kind is due.
    pub(crate) fn at(self, at: usize) -> Child
        ensures { result ≡ record { at = at; due = self } }
    {
        Child { at, due: self }
    }
}

impl Entry {
    pub fn kind(&self) -> Kind
        ensures { result ≡ kind_of self.now }
    {
        match self {
            Entry::Triple(_, _, _) | Entry::Values { .. } | Entry::Initial => Kind::Pattern,
            Entry::And(_, _) | Entry::Union(_, _) | Entry::Opt(_, _) | Entry::Minus(_, _) =>
                Kind::Pattern,
            Entry::Select(_, _) | Entry::Filter(_, _) => Kind::Pattern,
            Entry::Equal(_, _) | Entry::Blank(_) | Entry::Bound(_) => Kind::Condition,
            Entry::Not(_) | Entry::Both(_, _) | Entry::Either(_, _) | Entry::Exists(_) =>
                Kind::Condition,
        }
    }

    // The entries that this one names, from left to right.
    pub fn children(&self) -> Children
        ensures { child_list result ≡ children_of self.now }
    {
        match *self {
            Entry::And(l, r) | Entry::Union(l, r) | Entry::Opt(l, r) | Entry::Minus(l, r) => {
                Children::Two(Kind::Pattern.at(l), Kind::Pattern.at(r))
            }
            Entry::Select(p, _) | Entry::Exists(p) => Children::One(Kind::Pattern.at(p)),
            Entry::Filter(p, c) => Children::Two(Kind::Pattern.at(p), Kind::Condition.at(c)),
            Entry::Not(c) => Children::One(Kind::Condition.at(c)),
            Entry::Both(l, r) | Entry::Either(l, r) => {
                Children::Two(Kind::Condition.at(l), Kind::Condition.at(r))
            }
            Entry::Triple(_, _, _) | Entry::Values { .. } | Entry::Initial => Children::None,
            Entry::Equal(_, _) | Entry::Blank(_) | Entry::Bound(_) => Children::None,
        }
    }
}
