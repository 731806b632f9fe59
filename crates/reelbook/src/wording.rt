// The mill's words for what is kept and asked.
use crate::questions::{READING, REEL};
use crate::request::{Effect, Request, Step};
use history::step::{Answer, Call};
use rdf::refusal::Refusal;
use rdf::row::Row;
use rdf::term::Term;
use rdf::triple::Triple;
use semantics::worked::Worked;
use std::fmt;

pub const WEIGHT: Term = Term(1);

pub const UNIT: Term = Term(5);

pub const GRAMS_PER_SQUARE_METRE: Term = Term(9);

pub const MOISTURE_BEFORE_DRYERS: Term = Term(13);

pub const POUNDS_PER_REAM: Term = Term(29);

pub const PERCENT: Term = Term(33);

pub const VALUE: Term = Term(37);

pub const MOISTURE_AT_REEL: Term = Term(41);

// A term in words.
#[derive(Clone, Copy)]
struct Word(Term);

// A solution in words.
#[derive(Clone, Copy)]
pub struct Solution(pub Row);

// A triple in words.
#[derive(Clone, Copy)]
pub struct Words(pub Triple);

// A refusal in words.
#[derive(Clone, Copy)]
pub struct SentBack(pub Refusal);

// The two numbers of an answered question in words.
#[derive(Clone, Copy)]
pub struct Counts(pub Worked);

// A call of a log, with what it answered, in words.
#[derive(Clone, Copy)]
pub struct Logged<'a>(pub history::step::Step<'a>);

// The word that stands for a term by itself.
fn name(term: Term) -> Option<&'static str> {
    match term {
        WEIGHT => Some("weight"),
        UNIT => Some("unit"),
        GRAMS_PER_SQUARE_METRE => Some("grams per square metre"),
        MOISTURE_BEFORE_DRYERS => Some("moisture before the dryers"),
        MOISTURE_AT_REEL => Some("moisture at the reel"),
        POUNDS_PER_REAM => Some("pounds per ream"),
        PERCENT => Some("percent"),
        VALUE => Some("value"),
        _ => None,
    }
}

// An identifier without a word of its own is a reel, a blank node a reading, and a literal a figure, whose number is four times it and 3 more.
impl fmt::Display for Word {
    fn fmt<W: fmt::Write>(&self, f: &mut fmt::Formatter<W>) -> fmt::Result {
        let term = self.0;
        let number = term.0;
        if let Some(name) = name(term) {
            write!(f, "{name}")
        } else if term.is_identifier() {
            write!(f, "reel {number}")
        } else if term.is_blank() {
            write!(f, "reading {number}")
        } else if term.is_literal() {
            write!(f, "{}", number / 4)
        } else if term.is_unbound() {
            write!(f, "-")
        } else {
            write!(f, "no term {number}")
        }
    }
}

impl fmt::Display for Words {
    fn fmt<W: fmt::Write>(&self, f: &mut fmt::Formatter<W>) -> fmt::Result {
        let Triple {
            subject,
            predicate,
            object,
        } = self.0;
        write!(
            f,
            "{}, {}, {}",
            Word(subject),
            Word(predicate),
            Word(object)
        )
    }
}

impl fmt::Display for Solution {
    fn fmt<W: fmt::Write>(&self, f: &mut fmt::Formatter<W>) -> fmt::Result {
        let reel = Word(self.0.value(REEL));
        let reading = Word(self.0.value(READING));
        write!(f, "{reel}, by {reading}")
    }
}

impl fmt::Display for Request {
    fn fmt<W: fmt::Write>(&self, f: &mut fmt::Formatter<W>) -> fmt::Result {
        match *self {
            Request::Add(triple) => write!(f, "record ({})", Words(triple)),
            Request::Remove(triple) => write!(f, "withdraw ({})", Words(triple)),
            Request::Next(triple) => write!(f, "what follows ({})", Words(triple)),
        }
    }
}

impl fmt::Display for Effect {
    fn fmt<W: fmt::Write>(&self, f: &mut fmt::Formatter<W>) -> fmt::Result {
        match *self {
            Effect::Changed => write!(f, "done"),
            Effect::Unchanged => write!(f, "so already"),
            Effect::Found(Some(triple)) => write!(f, "({})", Words(triple)),
            Effect::Found(None) => write!(f, "nothing"),
        }
    }
}

impl fmt::Display for SentBack {
    fn fmt<W: fmt::Write>(&self, f: &mut fmt::Formatter<W>) -> fmt::Result {
        write!(f, "sent back, number {}", self.0)
    }
}

impl fmt::Display for Step {
    fn fmt<W: fmt::Write>(&self, f: &mut fmt::Formatter<W>) -> fmt::Result {
        write!(f, "{}: ", self.request)?;
        match self.outcome {
            None => write!(f, "to be done"),
            Some(Ok(effect)) => write!(f, "{effect}"),
            Some(Err(refusal)) => write!(f, "{}", SentBack(refusal)),
        }
    }
}

impl fmt::Display for Counts {
    fn fmt<W: fmt::Write>(&self, f: &mut fmt::Formatter<W>) -> fmt::Result {
        let Worked { count, largest } = self.0;
        write!(f, "{count} found, largest working set {largest}")
    }
}

impl<'a> fmt::Display for Logged<'a> {
    fn fmt<W: fmt::Write>(&self, f: &mut fmt::Formatter<W>) -> fmt::Result {
        match self.0.call {
            Call::Next(after) => write!(f, "what follows ({}): ", Words(after))?,
            Call::Add(triple) => write!(f, "record ({}): ", Words(triple))?,
            Call::Remove(triple) => write!(f, "withdraw ({}): ", Words(triple))?,
            Call::Free => write!(f, "places free: ")?,
            Call::Ask(_) => write!(f, "a question: ")?,
        }
        match self.0.answer {
            None => write!(f, "not carried out"),
            Some(Ok(Answer::Least(Some(triple)))) => write!(f, "({})", Words(triple)),
            Some(Ok(Answer::Least(None))) => write!(f, "nothing"),
            Some(Ok(Answer::Accepted)) => write!(f, "accepted"),
            Some(Ok(Answer::Places(free))) => write!(f, "{free}"),
            Some(Ok(Answer::Solved(worked))) => write!(f, "{}", Counts(worked)),
            Some(Err(refusal)) => write!(f, "{}", SentBack(refusal)),
        }
    }
}
