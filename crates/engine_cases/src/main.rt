// Questions put to small graphs, every set worked out whole. Each line is a case: the answer, the solutions, and a sum over each memory,
// which was used before. Most are about reels 17 and 21, with their weights (predicate 1) and a unit (predicate 5), grams per square metre.
#![tactic(auto)]

mod asking;
mod graphs;
mod refusals;
mod shorthand;
mod sizes;
mod solutions;
mod tables;

use graph::triple_list::TripleList;
use graphs::graphs;
use refusals::refusals;
use shorthand::triple;
use sizes::sizes;
use solutions::solutions;
use std::io;
use tables::tables;

fn main(rt: HostRuntime) -> io::Result<()> {
    let entries = [triple(21, 1, 6), triple(2, 5, 9), triple(17, 1, 2)];
    let graph = TripleList::new(&entries);
    solutions(&rt, &graph)?;
    sizes(&rt, &graph)?;
    refusals(&rt, &graph)?;
    tables(&rt, &graph)?;
    graphs(&rt)
}
