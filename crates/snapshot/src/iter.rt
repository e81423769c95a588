// A walk over the legs that arrive at a station.
ghost use Rattle.std.specs.Iterator.{at_most};
ghost use Rattle.snapshot.specs.Steps.{Stepped, left};

use crate::snapshot::Snapshot;

/// The legs that arrive at a station, in rising number.
#[derive(Clone, Copy)]
pub struct ArrivalsAt<'a> {
    pub(crate) snapshot: &'a Snapshot,
    // the lowest of those that are left
    pub(crate) number: Option<u16>,
}

impl<'a> Iterator for ArrivalsAt<'a> {
    type Item = u16;

    ghost next_gives = { Stepped };

    ghost remaining = { λ w. at_most (left w.number) };

    fn next(&mut self) -> Option<u16> {
        let number = self.number?;
        self.number = self.snapshot.next_arrival(number);
        Some(number)
    }
}
