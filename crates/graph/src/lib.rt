// Graphs of RDF triples: what every kind of graph means, the kinds, and reading a whole graph into lent memory.
#![tactic(auto)]

pub mod change;
pub mod editable_graph;
pub mod graph;
mod marks;
pub mod overlay;
pub mod reading;
pub mod sealed;
pub mod stored_graph;
pub mod triple_list;
pub mod union_graph;
