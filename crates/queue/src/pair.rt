// Two numbers, as one entry.

/// Pairs are compared by what is first in them, and then by what is second.
#[derive(Clone, Copy, Debug, PartialEq, Eq, PartialOrd, Ord)]
pub struct Pair {
    pub first: u32,
    pub second: u32,
}
