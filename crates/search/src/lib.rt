// The least route between two stations that meets nothing barred: one search for every network and every cost model.
#![tactic(auto)]

mod cost_table;
mod find;
mod label;
mod labels;
pub mod least;
mod search;
mod settle;
mod settling;
mod trace;
