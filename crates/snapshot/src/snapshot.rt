// The copy of a network.
ghost use Rattle.std.specs.Prelude.{◌≡◌, ℕ, ◌≤◌, true, length, None, slice_index_or};
ghost use Rattle.snapshot.specs.Arrivals.{FirstFrom, NextArrival, FirstFrom-prop, NextArrival-prop};
ghost use Rattle.snapshot.specs.Tables.{none_or_fits, table_meaning};

use network::leg::Leg;

/// The legs by number, and those that arrive at a station as a list in rising leg number: `first` has its head for each
/// station, and `next` has for each leg the one that follows it.
// Rows of the largest size, since the memory is fixed. They are made in `Arrivals`, of which no fact holds until its end.
#[derive(Drop)]
pub struct Snapshot {
    pub(crate) stations: u8,
    // how many leg numbers there are
    pub(crate) count: u16,
    pub(crate) legs: [Option<Leg>; 512],
    pub(crate) first: [Option<u16>; 64],
    pub(crate) next: [Option<u16>; 512],
    ghost wide: { length legs ≡ 512 },
    ghost low: { 2 ≤ stations },
    ghost high: { stations ≤ 64 },
    ghost few: { count ≤ 512 },
    ghost past: { (i : ℕ) → count ≤ i → slice_index_or legs i None ≡ None },
    ghost fits: { (i : ℕ) → none_or_fits stations (slice_index_or legs i None) ≡ true },
    ghost firsts: { (u : ℕ) → FirstFrom (table_meaning stations count legs) u 0 (slice_index_or first u None) } by { Prim.hlevel FirstFrom-prop },
    ghost nexts: { (e : ℕ) → NextArrival (table_meaning stations count legs) e (slice_index_or next e None) } by { Prim.hlevel NextArrival-prop },
}
