// How triples and answers are printed.
use rdf::refusal::Refusal;
use rdf::term::Term;
use rdf::triple::Triple;
use std::fmt;

// The three numbers of a triple.
#[derive(Clone, Copy)]
pub struct Numbers(pub Triple);

// A refusal, by its number.
#[derive(Clone, Copy)]
pub struct Refused(pub Refusal);

// What came of a change.
#[derive(Clone, Copy)]
pub struct Outcome(pub Result<(), Refusal>);

impl fmt::Display for Numbers {
    fn fmt<W: fmt::Write>(&self, f: &mut fmt::Formatter<W>) -> fmt::Result {
        let Triple {
            subject: Term(s),
            predicate: Term(p),
            object: Term(o),
        } = self.0;
        write!(f, "{s} {p} {o}")
    }
}

impl fmt::Display for Refused {
    fn fmt<W: fmt::Write>(&self, f: &mut fmt::Formatter<W>) -> fmt::Result {
        write!(f, "refused by {}", self.0)
    }
}

impl fmt::Display for Outcome {
    fn fmt<W: fmt::Write>(&self, f: &mut fmt::Formatter<W>) -> fmt::Result {
        match self.0 {
            Ok(()) => f.write_str("accepted"),
            Err(refusal) => Refused(refusal).fmt(f),
        }
    }
}
