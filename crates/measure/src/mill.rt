// Readings of a paper mill, made up: each reel has a weight, which is a reading with a unit and a value. Every third reading comes in
// pounds per ream, the others in grams per square metre.
use query::table::{Entry, Position};
use rdf::term::Term;
use rdf::triple::Triple;
use rdf::variable::Variable;

const WEIGHT: Term = Term(1);

const UNIT: Term = Term(5);

const VALUE: Term = Term(17);

const GRAMS_PER_SQUARE_METRE: Term = Term(9);

const POUNDS_PER_REAM: Term = Term(13);

// No more reels than this are made.
pub(crate) const LARGEST: u32 = 1000000;

// The reading of a reel, a blank node.
fn reading(reel: u32) -> Term {
    Term(reel.min(LARGEST) * 4 + 2)
}

// What is known of a reel's reading, ascending.
pub(crate) fn reading_triples(reel: u32) -> [Triple; 2] {
    let subject = reading(reel);
    let unit = if reel % 3 == 0 {
        POUNDS_PER_REAM
    } else {
        GRAMS_PER_SQUARE_METRE
    };
    [
        Triple {
            subject,
            predicate: UNIT,
            object: unit,
        },
        Triple {
            subject,
            predicate: VALUE,
            object: Term(reel % 100 * 4 + 3),
        },
    ]
}

// The weight of a reel. Its number is above that of every reading.
pub(crate) fn weight_triple(reel: u32, reels: u32) -> Triple {
    let number = reels.min(LARGEST) * 4 + reel.min(LARGEST) * 4 + 1;
    Triple {
        subject: Term(number),
        predicate: WEIGHT,
        object: reading(reel),
    }
}

fn variable(number: u8) -> Position {
    Position::Variable(Variable(number))
}

fn weights() -> Entry {
    Entry::Triple(variable(0), Position::Term(WEIGHT), variable(1))
}

fn in_grams() -> Entry {
    Entry::Triple(
        variable(1),
        Position::Term(UNIT),
        Position::Term(GRAMS_PER_SQUARE_METRE),
    )
}

// The reels with no weight in grams per square metre.
pub(crate) fn unweighed() -> [Entry; 7] {
    [
        weights(),
        Entry::Initial,
        in_grams(),
        Entry::And(1, 2),
        Entry::Exists(3),
        Entry::Not(4),
        Entry::Filter(0, 5),
    ]
}

// The reels weighed in grams per square metre, with the value.
pub(crate) fn joined() -> [Entry; 5] {
    [
        weights(),
        in_grams(),
        Entry::And(0, 1),
        Entry::Triple(variable(1), Position::Term(VALUE), variable(2)),
        Entry::And(2, 3),
    ]
}

// All weights, with the unit where it is grams per square metre.
pub(crate) fn optional() -> [Entry; 3] {
    [weights(), in_grams(), Entry::Opt(0, 1)]
}
