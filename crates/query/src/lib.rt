// A query as a table of entries, and the checks that a question makes before it touches any memory.
#![tactic(auto)]

mod contents;
mod shape;
pub mod table;
#[cfg(test)]
mod tests;
pub mod validation;
