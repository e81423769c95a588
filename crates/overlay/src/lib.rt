// What lies above a network and changes what it shows. Each overlay is a network itself, so they pile to any height in
// any order.
#![tactic(auto)]

pub mod closures;
pub mod grade_cap;
mod marks;
pub mod rule;
pub mod waits;
