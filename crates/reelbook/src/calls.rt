// Calls on graphs, and lists, for the comparison of graphs of different makes.
use crate::triple;
use crate::wording::{GRAMS_PER_SQUARE_METRE, POUNDS_PER_REAM, UNIT, VALUE, WEIGHT};
use history::step::{Call, Step};
use rdf::term::{Term, UNBOUND};
use rdf::triple::Triple;

fn step(call: Call<'static>) -> Step<'static> {
    Step { call, answer: None }
}

// Kept: like two functions of the root, whose steps hold requests: one function for both would need a trait of two methods.
fn add(subject: Term, predicate: Term, object: Term) -> Step<'static> {
    step(Call::Add(triple(subject, predicate, object)))
}

fn remove(subject: Term, predicate: Term, object: Term) -> Step<'static> {
    step(Call::Remove(triple(subject, predicate, object)))
}

// How many of the calls below are made before the overlay is laid over.
pub const BEFORE: usize = 11;

// Calls on a stored graph, in which one triple is put in and taken out again, and then on an overlay over it.
pub(crate) fn layered_calls() -> [Step<'static>; 17] {
    [
        add(Term(17), WEIGHT, Term(2)),
        add(Term(2), UNIT, GRAMS_PER_SQUARE_METRE),
        add(Term(21), WEIGHT, Term(6)),
        add(Term(6), UNIT, POUNDS_PER_REAM),
        add(Term(219), UNIT, POUNDS_PER_REAM),
        add(Term(21), WEIGHT, Term(22)),
        remove(Term(21), WEIGHT, Term(22)),
        add(Term(10), UNIT, GRAMS_PER_SQUARE_METRE),
        add(Term(14), UNIT, GRAMS_PER_SQUARE_METRE),
        add(Term(22), UNIT, GRAMS_PER_SQUARE_METRE),
        step(Call::Free),
        remove(Term(6), UNIT, POUNDS_PER_REAM),
        add(Term(22), UNIT, GRAMS_PER_SQUARE_METRE),
        add(Term(25), WEIGHT, Term(18)),
        remove(Term(10), VALUE, Term(28)),
        add(Term(18), UNIT, POUNDS_PER_REAM),
        step(Call::Free),
    ]
}

// A list with a repeat and an entry that is no triple.
pub(crate) fn delivered() -> [Triple; 6] {
    [
        triple(Term(25), WEIGHT, Term(18)),
        triple(Term(18), UNIT, POUNDS_PER_REAM),
        triple(Term(2), UNIT, GRAMS_PER_SQUARE_METRE),
        triple(Term(25), WEIGHT, Term(18)),
        triple(Term(16), UNIT, GRAMS_PER_SQUARE_METRE),
        triple(Term(17), WEIGHT, Term(2)),
    ]
}

// Calls on a stored graph that is then joined with that list.
pub(crate) fn joined_calls() -> [Step<'static>; 9] {
    [
        add(Term(21), WEIGHT, Term(6)),
        add(Term(10), UNIT, GRAMS_PER_SQUARE_METRE),
        add(Term(22), UNIT, GRAMS_PER_SQUARE_METRE),
        remove(Term(10), UNIT, POUNDS_PER_REAM),
        step(Call::Next(triple(Term(10), UNIT, UNBOUND))),
        add(Term(14), UNIT, GRAMS_PER_SQUARE_METRE),
        add(Term(17), WEIGHT, Term(2)),
        add(Term(18), UNIT, POUNDS_PER_REAM),
        add(Term(17), Term(10), WEIGHT),
    ]
}

// A longer list.
pub(crate) fn handed_over() -> [Triple; 8] {
    [
        triple(Term(22), UNIT, GRAMS_PER_SQUARE_METRE),
        triple(Term(21), WEIGHT, Term(6)),
        triple(Term(2), UNIT, GRAMS_PER_SQUARE_METRE),
        triple(Term(17), WEIGHT, Term(2)),
        triple(Term(18), UNIT, POUNDS_PER_REAM),
        triple(Term(6), UNIT, POUNDS_PER_REAM),
        triple(Term(10), UNIT, GRAMS_PER_SQUARE_METRE),
        triple(Term(14), UNIT, GRAMS_PER_SQUARE_METRE),
    ]
}

// Calls on an overlay over the longer list. They come to one triple more: the weight of reel 21 in grams per square metre.
pub(crate) fn correcting_calls() -> [Step<'static>; 4] {
    [
        remove(Term(6), UNIT, POUNDS_PER_REAM),
        add(Term(6), UNIT, GRAMS_PER_SQUARE_METRE),
        add(Term(25), WEIGHT, Term(18)),
        step(Call::Free),
    ]
}
