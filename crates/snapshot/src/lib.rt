// A network copied once, so that a search need not ask the layers below again and again.
#![tactic(auto)]

mod arrivals;
pub mod as_network;
mod copy;
pub mod iter;
mod questions;
pub mod snapshot;
