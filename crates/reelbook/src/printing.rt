// Sets, answers to questions, and logs of calls, in print.
use crate::questions::REEL;
use crate::wording::{Counts, Logged, SentBack, Solution, Words};
use history::step::Step;
use rdf::refusal::Refusal;
use rdf::row::Row;
use rdf::triple::Triple;
use semantics::worked::Worked;
use std::io;

// Prints a set that was read into memory.
pub(crate) fn print_set(
    rt: &impl Print,
    count: Result<usize, Refusal>,
    memory: &[Triple],
) -> io::Result<()> {
    match count {
        Ok(count) => println!(rt; "  {count} triples:")?,
        Err(refusal) => println!(rt; "  {}", SentBack(refusal))?,
    }
    for triple in memory.iter().filter(|place| place.is_triple()) {
        println!(rt; "  {}", Words(*triple))?;
    }
    Ok(())
}

// Prints the solutions that a question left in row memory, and their number and that of the rows of the largest working set.
pub(crate) fn print_answer(
    rt: &impl Print,
    answer: Result<Worked, Refusal>,
    rows: &[Row],
) -> io::Result<()> {
    match answer {
        Ok(worked) => {
            println!(rt; "  {}:", Counts(worked))?;
            print_solutions(rt, rows)
        }
        Err(refusal) => println!(rt; "  {}", SentBack(refusal)),
    }
}

fn print_solutions(rt: &impl Print, rows: &[Row]) -> io::Result<()> {
    for row in rows.iter().filter(|row| !row.value(REEL).is_unbound()) {
        println!(rt; "  {}", Solution(*row))?;
    }
    Ok(())
}

// Prints the calls of a log, and how each was answered.
pub(crate) fn print_log(rt: &impl Print, log: &[Step]) -> io::Result<()> {
    for step in log {
        println!(rt; "  {}", Logged(*step))?;
    }
    Ok(())
}
