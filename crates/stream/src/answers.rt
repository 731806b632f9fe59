// The lines of answers.
ghost use Rattle.std.specs.Prelude.{◌≡◌};
ghost use Rattle.stream.specs.Answers.{code_of, reading_sum, row_sum, sum_with, term_numbers, triple_numbers, with_number};

use rdf::refusal::Refusal;
use rdf::row::Row;
use rdf::term::Term;
use rdf::triple::Triple;
use semantics::strategy::Strategy;
use semantics::worked::Worked;
use std::io;
use std::io::Write;

// The largest prime below 2^32.
const MODULUS: u64 = 4294967291;

// A sum with one more number; the order of the numbers counts.
fn with_number(sum: u32, number: u32) -> u32
    ensures { result ≡ with_number sum number }
{
    ((sum as u64 * 31 + number as u64) % MODULUS) as u32
}

// A sum with the numbers of some terms.
fn with_terms(sum: u32, terms: &[Term]) -> u32
    ensures { result ≡ sum_with sum (term_numbers terms.now) }
{
    terms.iter().map(|term| term.0).fold(sum, with_number)
}

// The sum of memory for reading, place by place.
pub(crate) fn reading_sum(places: &[Triple]) -> u32
    ensures { result ≡ reading_sum places.now }
{
    places
        .iter()
        .fold(0, |sum, place| with_terms(sum, &terms(place)))
}

// The sum of memory for rows, place by place.
pub(crate) fn row_sum(rows: &[Row]) -> u32
    ensures { result ≡ row_sum rows.now }
{
    rows.iter().fold(0, |sum, row| with_terms(sum, &row.places))
}

// 0, or the refusal's number.
fn code<T>(answer: &Result<T, Refusal>) -> u8
    ensures { result ≡ code_of answer.now }
{
    match answer {
        Ok(_) => 0,
        Err(refusal) => refusal.number(),
    }
}

// What a change came to, and how many places are then free.
pub(crate) fn write_change<W: Write>(
    out: &mut W,
    answer: Result<(), Refusal>,
    free: usize,
) -> io::Result<()> {
    let code = code(&answer);
    writeln!(out, "1 {code} {free}")
}

fn terms(triple: &Triple) -> [Term; 3]
    ensures { term_numbers result ≡ triple_numbers triple.now }
{
    [triple.subject, triple.predicate, triple.object]
}

// Kept: tried a `Display` of the terms, by which a line went out in other pieces, and one function that writes the terms of a slice, by which many rows
// took up to 1.3 times as long.
fn write_triple<W: Write>(out: &mut W, triple: &Triple) -> io::Result<()> {
    let [Term(s), Term(p), Term(o)] = terms(triple);
    write!(out, " {s} {p} {o}")
}

// The triple that was found.
pub(crate) fn write_next<W: Write>(out: &mut W, found: Option<Triple>) -> io::Result<()> {
    match found {
        Some(triple) => {
            write!(out, "2 1")?;
            write_triple(out, &triple)?;
        }
        None => write!(out, "2 0 0 0 0")?,
    }
    writeln!(out)
}

// A whole set.
pub(crate) fn write_set<W: Write>(out: &mut W, triples: &[Triple]) -> io::Result<()> {
    let count = triples.len();
    write!(out, "3 {count}")?;
    for triple in triples {
        write_triple(out, triple)?;
    }
    writeln!(out)
}

fn write_row<W: Write>(out: &mut W, row: &Row) -> io::Result<()> {
    write!(out, "5")?;
    for term in &row.places {
        write!(out, " {}", term.0)?;
    }
    writeln!(out)
}

// The number that a strategy has on a line.
fn number(strategy: Strategy) -> u8 {
    match strategy {
        Strategy::BottomUp => 0,
        Strategy::TopDown => 1,
    }
}

// The numbers on the line of a refused question.
const UNANSWERED: Worked = Worked {
    count: 0,
    largest: 0,
};

// What a question came to and what memory then holds; after it the solutions, which stand first in row memory.
pub(crate) fn write_answer<W: Write>(
    out: &mut W,
    strategy: Strategy,
    answer: Result<Worked, Refusal>,
    reading: &[Triple],
    rows: &[Row],
) -> io::Result<()> {
    let code = code(&answer);
    let Worked { count, largest } = answer.unwrap_or(UNANSWERED);
    let way = number(strategy);
    let reading = reading_sum(reading);
    let sum = row_sum(rows);
    writeln!(out, "4 {way} {code} {count} {largest} {reading} {sum}")?;
    for row in rows.iter().take(count) {
        write_row(out, row)?;
    }
    Ok(())
}
