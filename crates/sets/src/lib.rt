// Sets of small numbers.
#![tactic(auto)]

pub mod number_set;
