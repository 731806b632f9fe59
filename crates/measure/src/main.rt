// Measures loading, reading and three bottom-up questions on graphs of reels and readings. Without an argument it prints what is
// answered for a small graph; with any argument, also the times for graphs of 1,000, 10,000 and
// 100,000 triples, and for filling and reading in no order.
#![tactic(auto)]

ghost use Rattle.std.specs.Iterator.{IsFinite};

mod mill;

use engine::question::bottom_up;
use graph::editable_graph::EditableGraph;
use graph::graph::Graph;
use graph::reading::read_all;
use graph::stored_graph::StoredGraph;
use graph::triple_list::TripleList;
use mill::{joined, optional, reading_triples, unweighed, weight_triple};
use query::table::{Entry, Query};
use rdf::row::{EMPTY_ROW, Row};
use rdf::triple::{NO_TRIPLE, Triple};
use semantics::worked::Worked;
use std::env;
use std::time::Instant;

// Runs a step, and tells how many microseconds it took.
fn timed<T: Drop, F: FnOnce() -> T>(rt: &HostRuntime, step: F) -> anyhow::Result<(T, u128)>
    requires { F.IsAlwaysCallable step }
{
    let start = Instant::now(rt)?;
    let result = step();
    let micros = start.elapsed(rt)?.as_micros();
    Ok((result, micros))
}

fn load<G: EditableGraph, I: Iterator<Item = Triple>>(graph: &mut G, triples: I)
    requires can { I.can_next triples }
    requires ends { IsFinite (I.remaining triples) }
{
    for triple in triples {
        let _ = graph.add(triple);
    }
}

// Loads the readings and weights of so many reels, in ascending order.
fn load_ascending<G: EditableGraph>(graph: &mut G, reels: u32) {
    let readings = (0..reels).flat_map(|reel| reading_triples(reel).into_iter());
    let weights = (0..reels).map(|reel| weight_triple(reel, reels));
    load(graph, readings.chain(weights));
}

// Loads the same readings and weights, in no order.
fn load_scattered<G: EditableGraph>(graph: &mut G, reels: u32) {
    let scattered = (0..reels).map(|turn| turn.wrapping_mul(7919) % reels.max(1));
    let triples = scattered.flat_map(|reel| {
        let [unit, value] = reading_triples(reel);
        [unit, value, weight_triple(reel, reels)].into_iter()
    });
    load(graph, triples);
}

// What questions are measured in: memory for them, and whether times are printed.
#[derive(Drop)]
struct Bench<'a> {
    rt: &'a HostRuntime,
    reading: &'a mut [Triple],
    rows: &'a mut [Row],
    with_times: bool,
}

impl Bench<'_> {
    fn print_time(&self, micros: u128) -> anyhow::Result<()> {
        if self.with_times {
            println!(self.rt; "    {micros} microseconds")?;
        }
        Ok(())
    }

    fn read<G: Graph>(&mut self, graph: &G) -> anyhow::Result<()> {
        let reading = &mut *self.reading;
        let (read, micros) = timed(self.rt, || read_all(graph, reading))?;
        if let Ok(count) = read {
            println!(self.rt; "  read {count} triples")?;
        }
        self.print_time(micros)
    }

    // Puts one question and prints what it answered.
    fn ask<G: Graph>(&mut self, name: &str, graph: &G, entries: &[Entry]) -> anyhow::Result<()> {
        let none = [EMPTY_ROW; 0];
        let query = Query {
            entries,
            values: &none,
        };
        let reading = &mut *self.reading;
        let rows = &mut *self.rows;
        let (answer, micros) = timed(self.rt, || {
            bottom_up(graph, &query, &EMPTY_ROW, reading, rows)
        })?;
        match answer {
            Ok(Worked { count, largest }) => println!(self.rt;
                "  {name}: {count} solutions, largest set {largest}"
            )?,
            Err(refusal) => println!(self.rt; "  {name}: refused {refusal}")?,
        }
        self.print_time(micros)
    }
}

fn size(rt: &HostRuntime, reels: u32, with_times: bool) -> anyhow::Result<()> {
    let heap = rt.alloc();
    let many = reels as usize;
    let triples = many.saturating_mul(3);
    let mut places = vec![in heap; NO_TRIPLE; triples]?;
    let mut reading = vec![in heap; NO_TRIPLE; triples]?;
    let mut rows = vec![in heap; EMPTY_ROW; many.saturating_mul(7)]?;
    println!(rt; "{triples} triples")?;
    let mut graph = StoredGraph::new(&mut places);
    let (_, micros) = timed(rt, || load_ascending(&mut graph, reels))?;
    if with_times {
        println!(rt; "  loaded in {micros} microseconds")?;
    }
    let mut bench = Bench {
        rt,
        reading: &mut reading,
        rows: &mut rows,
        with_times,
    };
    bench.read(&graph)?;
    bench.ask("no weight in grams", &graph, &unweighed())?;
    bench.ask("three-way join", &graph, &joined())?;
    bench.ask("optional unit", &graph, &optional())
}

// Times what costs more than a search for each triple: filling in no order, and reading a list of entries.
fn unordered(rt: &HostRuntime, reels: u32) -> anyhow::Result<()> {
    let heap = rt.alloc();
    let triples = (reels as usize).saturating_mul(3);
    let mut places = vec![in heap; NO_TRIPLE; triples]?;
    let mut reading = vec![in heap; NO_TRIPLE; triples]?;
    println!(rt; "{triples} triples in no order")?;
    let mut graph = StoredGraph::new(&mut places);
    let (_, filled) = timed(rt, || load_scattered(&mut graph, reels))?;
    let list = TripleList::new(graph.into_places());
    let (read, micros) = timed(rt, || read_all(&list, &mut reading))?;
    if let Ok(count) = read {
        println!(rt; "  filled in {filled} microseconds; {count} read from a list in {micros}")?;
    }
    Ok(())
}

fn main(rt: HostRuntime) -> anyhow::Result<()> {
    let with_times = env::args(&rt)?.count() > 1;
    size(&rt, 20, false)?;
    if with_times {
        for reels in [333, 3333, 33333] {
            size(&rt, reels, true)?;
        }
        for reels in [333, 3333] {
            unordered(&rt, reels)?;
        }
    }
    Ok(())
}
