// Orders of plain entries.
ghost use Rattle.std.specs.Prelude.{nat_lt};
ghost use Rattle.queue.specs.Lexical.{numbers_strict};
ghost use Rattle.queue.specs.Pairs.{pair_less, pairs_strict};

use crate::order::Order;
use crate::pair::Pair;

/// Smaller numbers come first.
#[derive(Clone, Copy)]
pub struct Numbers;

impl Order for Numbers {
    type Entry = u32;

    ghost less = { λ _. nat_lt };

    ghost strict = { λ _. numbers_strict };

    fn comes_before(&self, a: u32, b: u32) -> bool {
        a < b
    }
}

/// Pairs come by what is first in them, and then by what is second.
#[derive(Clone, Copy)]
pub struct Pairs;

impl Order for Pairs {
    type Entry = Pair;

    ghost less = { λ _. pair_less };

    ghost strict = { λ _. pairs_strict };

    fn comes_before(&self, a: Pair, b: Pair) -> bool {
        a < b
    }
}
