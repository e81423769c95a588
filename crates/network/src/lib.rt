// What every layer shares: legs, networks by their meaning, and the refusals with their numbers.
#![tactic(auto)]

pub mod leg;
pub mod network;
pub mod refusal;
