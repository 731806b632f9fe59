// Whole courses of calls: logs of calls carried out on a graph, recipes for graphs with the calls on them and on their parts, and the
// comparison of two graphs of any make.
#![tactic(auto)]

pub mod compare;
pub mod memory;
pub mod opening;
pub mod piles;
pub mod run;
pub mod step;
