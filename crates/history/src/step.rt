// Calls on a graph, and their answers.
use query::table::Query;
use rdf::refusal::Refusal;
use rdf::row::Row;
use rdf::triple::Triple;
use semantics::strategy::Strategy;
use semantics::worked::Worked;

// A question that is put in the course of a run. It works in the first places of the memory that is lent to the run: in as many as it
// asks for, and in all where there are fewer.
#[derive(Clone, Copy)]
pub struct Question<'a> {
    pub strategy: Strategy,
    pub query: Query<'a>,
    pub start: Row,
    // so many places of reading memory
    pub reading: usize,
    // so many places of row memory
    pub rows: usize,
}

// A call on a graph that takes changes.
#[derive(Clone, Copy)]
pub enum Call<'a> {
    // The least triple above these three numbers.
    Next(Triple),
    // Put the triple in.
    Add(Triple),
    // Take the triple out.
    Remove(Triple),
    // How many places are free.
    Free,
    // The solutions of a query.
    Ask(Question<'a>),
}

// What a call that is not refused answered.
#[derive(Clone, Copy, PartialEq, Eq, Debug)]
pub enum Answer {
    // The least triple above.
    Least(Option<Triple>),
    // The change was accepted.
    Accepted,
    // So many places are free.
    Places(usize),
    // The question was worked out.
    Solved(Worked),
}

// One entry of a log: a call, and the place for its answer, which is none until the call is carried out.
#[derive(Clone, Copy)]
pub struct Step<'a> {
    pub call: Call<'a>,
    pub answer: Option<Result<Answer, Refusal>>,
}
