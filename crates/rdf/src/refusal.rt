// Why a question or a change is sent back.
ghost use Rattle.std.specs.Prelude.{◌≡◌, Some, decimal};
ghost use Rattle.rdf.specs.Refusals.{number};

use std::fmt;

#[derive(Clone, Copy, PartialEq, Eq, Debug)]
pub enum Refusal {
    // The query has no entry or more than 64.
    TableSize = 1,
    // An entry names an entry that does not stand before it.
    ForwardReference = 2,
    // An entry names a condition where a pattern is due or the reverse, or the last entry is a condition.
    WrongKind = 3,
    // An entry before the last is named nowhere or more than once.
    NotATree = 4,
    // A variable's number is above 15.
    VariableRange = 5,
    // A position holds a blank node or no term, or a TRIPLE has a literal as subject or a predicate term that is no identifier.
    BadPosition = 6,
    // A VALUES span passes the value rows, or a row in it holds a blank node or a number other than 0 that is no term.
    BadValues = 7,
    // The starting row holds a number other than 0 that is no term.
    BadStart = 8,
    // Row memory has fewer places than the query has entries.
    FewRows = 9,
    // The graph has more triples than reading memory has places.
    SmallReading = 10,
    // A working set has more rows than its share of row memory.
    WorkingSet = 11,
    // An add or remove is given three numbers that are no triple.
    NotATriple = 12,
    // A change with effect finds no free place.
    NoPlace = 13,
}

impl Refusal {
    // The number by which the refusal is known outside.
    pub fn number(&self) -> u8
        ensures { result ≡ number self.now }
    {
        *self as u8
    }
}

// Prints the number.
impl fmt::Display for Refusal {
    ghost output = { λ r. Some (decimal (number r)) };

    fn fmt<W: fmt::Write>(&self, f: &mut fmt::Formatter<W>) -> fmt::Result {
        write!(f, "{}", self.number())
    }
}
