// The map file: its heading and records, read, walked and written again.
#![tactic(auto)]

pub use map_format::fault::Fault;
pub use map_format::heading::Heading;
pub use map_format::record::{Placed, Record};

pub mod as_network;
mod check;
mod fields;
mod heading;
pub mod map;
mod read;
mod rewrite;
pub mod walk;
pub mod write;
