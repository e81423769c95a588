// How routes are compared: cost models and their laws.
#![tactic(auto)]

pub mod fare;
pub mod model;
pub mod points;
pub mod seconds;
