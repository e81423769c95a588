// A priority queue over a lent row of entries.
#![tactic(auto)]

mod changes;
pub mod least;
pub mod order;
pub mod orders;
pub mod pair;
mod questions;
pub mod queue;
#[cfg(test)]
mod tests;
