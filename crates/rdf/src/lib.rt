// RDF terms, variables, triples and rows, their orders, and the refusals with their numbers.
#![tactic(auto)]

pub mod laws;
pub mod refusal;
pub mod row;
pub mod term;
#[cfg(test)]
mod tests;
pub mod triple;
pub mod variable;
