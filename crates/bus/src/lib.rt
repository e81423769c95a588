// A bus network: the minutes from stop to stop, in a matrix that is lent.
#![tactic(auto)]

mod check;
mod count;
pub mod matrix;
mod ride;
