// What the numbers of a stream stand for.
ghost use Rattle.std.specs.Prelude.{◌≡◌};
ghost use Rattle.rdf.specs.Variables.{in_set};
ghost use Rattle.stream.specs.Answers.{in_mask};

use crate::fault::Cause;
use crate::kinds::{EntryKind, PositionKind};
use crate::numbers::Numbers;
use query::table::{Entry, Position};
use rdf::row::{EMPTY_ROW, Row};
use rdf::term::Term;
use rdf::triple::Triple;
use rdf::variable::{Variable, VariableSet};
use std::alloc::Global;

// What is written as numbers.
pub trait Record {
    fn read(numbers: &mut Numbers) -> Result<Self, Cause>
    where
        Self: Sized;
}

impl Record for Term {
    fn read(numbers: &mut Numbers) -> Result<Term, Cause> {
        Ok(Term(numbers.next()?))
    }
}

impl Record for Triple {
    fn read(numbers: &mut Numbers) -> Result<Triple, Cause> {
        Ok(Triple {
            subject: Term::read(numbers)?,
            predicate: Term::read(numbers)?,
            object: Term::read(numbers)?,
        })
    }
}

impl Record for Row {
    fn read(numbers: &mut Numbers) -> Result<Row, Cause> {
        let mut row = EMPTY_ROW;
        for place in row.places.iter_mut() {
            *place = Term::read(numbers)?;
        }
        Ok(row)
    }
}

impl Record for Variable {
    fn read(numbers: &mut Numbers) -> Result<Variable, Cause> {
        Ok(Variable(u8::try_from(numbers.next()?)?))
    }
}

// The variables whose bits are set.
// Kept: tried `filter`, `map` and `fold`: `search` gave up, and after `fold_over` it found no fact of the calls of the closure in `filter`.
fn variables_of(mask: u16) -> VariableSet
    ensures { (v : Variable) → in_set result v ≡ in_mask mask v }
{
    let mut variables = VariableSet::none();
    for v in 0..16u8 {
        if (mask >> v) % 2 == 1 {
            variables = variables.with(Variable(v));
        }
    }
    variables
}

impl Record for VariableSet {
    fn read(numbers: &mut Numbers) -> Result<VariableSet, Cause> {
        Ok(variables_of(u16::try_from(numbers.next()?)?))
    }
}

impl Record for Position {
    fn read(numbers: &mut Numbers) -> Result<Position, Cause> {
        Ok(match numbers.choice()? {
            PositionKind::Variable => Position::Variable(Variable::read(numbers)?),
            PositionKind::Term => Position::Term(Term::read(numbers)?),
        })
    }
}

impl Record for Entry {
    fn read(numbers: &mut Numbers) -> Result<Entry, Cause> {
        Ok(match numbers.choice()? {
            EntryKind::Triple => Entry::Triple(
                Position::read(numbers)?,
                Position::read(numbers)?,
                Position::read(numbers)?,
            ),
            EntryKind::Values => Entry::Values {
                first: numbers.count()?,
                count: numbers.count()?,
            },
            EntryKind::Initial => Entry::Initial,
            EntryKind::And => Entry::And(numbers.count()?, numbers.count()?),
            EntryKind::Union => Entry::Union(numbers.count()?, numbers.count()?),
            EntryKind::Opt => Entry::Opt(numbers.count()?, numbers.count()?),
            EntryKind::Minus => Entry::Minus(numbers.count()?, numbers.count()?),
            EntryKind::Select => Entry::Select(numbers.count()?, VariableSet::read(numbers)?),
            EntryKind::Filter => Entry::Filter(numbers.count()?, numbers.count()?),
            EntryKind::Equal => Entry::Equal(Position::read(numbers)?, Position::read(numbers)?),
            EntryKind::Blank => Entry::Blank(Position::read(numbers)?),
            EntryKind::Bound => Entry::Bound(Variable::read(numbers)?),
            EntryKind::Not => Entry::Not(numbers.count()?),
            EntryKind::Both => Entry::Both(numbers.count()?, numbers.count()?),
            EntryKind::Either => Entry::Either(numbers.count()?, numbers.count()?),
            EntryKind::Exists => Entry::Exists(numbers.count()?),
        })
    }
}

// How many, and then so many.
// Kept: `collect` would take memory for the whole count before a record is read, and the count is only what the stream says.
pub(crate) fn list<T: Record + Drop>(numbers: &mut Numbers, heap: Global) -> Result<Vec<T>, Cause> {
    let count = numbers.count()?;
    let mut records = Vec::new(heap);
    for _ in 0..count {
        records.push(T::read(numbers)?)?;
    }
    Ok(records)
}

// A query with its starting row, and how many places there are to read the graph and to work in.
#[derive(Drop)]
pub struct Question {
    pub entries: Vec<Entry>,
    pub values: Vec<Row>,
    pub start: Row,
    pub reading: usize,
    pub rows: usize,
}

impl Question {
    pub(crate) fn read(numbers: &mut Numbers, heap: Global) -> Result<Question, Cause> {
        Ok(Question {
            entries: list(numbers, heap)?,
            values: list(numbers, heap)?,
            start: Row::read(numbers)?,
            reading: numbers.count()?,
            rows: numbers.count()?,
        })
    }
}
