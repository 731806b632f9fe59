// Total orders, and sets kept in ascending order in lent memory, for every element that has one.
#![tactic(auto)]

pub mod laws;
pub mod list;
#[cfg(test)]
mod tests;
pub mod total;
