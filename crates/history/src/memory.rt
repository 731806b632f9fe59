// Memory that is lent to questions.
use rdf::row::Row;
use rdf::triple::Triple;

// Places for the triples that are read, and rows to work in.
#[derive(Drop)]
pub struct Memory<'m> {
    pub reading: &'m mut [Triple],
    pub rows: &'m mut [Row],
}
