// What a search is handed, and what it gives: ends, bars, the entries of a workspace, and a route's legs.
#![tactic(auto)]

pub mod bars;
pub mod ends;
pub mod entry;
pub mod leg_list;
