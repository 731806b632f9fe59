// Puts a query to a graph, in memory that the caller lends.
#![tactic(auto)]

mod areas;
mod conditions;
mod context;
mod evaluate;
mod gather;
mod ignoring;
mod partners;
pub mod question;
mod triples;
