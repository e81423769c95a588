// Tests of the search for the least route: a network and cost models to ask it of, and the least route by trying all
// lists of legs.
#![tactic(auto)]

#[cfg(test)]
mod bounds;
pub mod counted;
pub mod even_free;
#[cfg(test)]
mod generated;
#[cfg(test)]
mod question;
#[cfg(test)]
mod rings;
pub mod table;
#[cfg(test)]
mod trial;
