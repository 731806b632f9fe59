// What a query means: its solutions, the two ways of working them out, and the answer to a question.
// The definitions are in specs. The laws only carry theorems in their contracts: no query is worked out in this crate.
#![tactic(auto)]

pub mod examples;
pub mod laws;
pub mod strategy;
pub mod worked;
