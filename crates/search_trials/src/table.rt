// A network in a lent table of legs, with self-loops, parallel legs and numbers that show nothing.
ghost use Rattle.search_trials.specs.Tables.{table_meaning, table_sound};

use network::leg::Leg;
use network::network::{Network, stations_fit};

/// The leg at each number is the one in its place, or nothing where that is out of range. A station count that is out of
/// range stands for 2.
#[derive(Clone, Copy, Debug)]
pub struct Table<'a> {
    pub stations: u8,
    pub legs: &'a [Leg],
}

/// In range in no network. It is no `Option`: that a leg out of range shows nothing is tried by it.
pub const NO_LEG: Leg = Leg {
    from: 0,
    to: 0,
    seconds: 0,
    points: 0,
    grade: 0,
};

impl<'a> Network for Table<'a> {
    ghost meaning = { λ t. table_meaning t.stations t.legs.now };

    ghost sound = { λ t. table_sound t.stations t.legs.now };

    fn station_count(&self) -> u8 {
        if stations_fit(self.stations) {
            self.stations
        } else {
            2
        }
    }

    fn leg_count(&self) -> u16 {
        // at most 512, so it is cast
        self.legs.len().min(512) as u16
    }

    fn leg_at(&self, number: u16) -> Option<Leg> {
        if number >= self.leg_count() {
            return None;
        }
        let stations = self.station_count();
        self.legs
            .get(usize::from(number))
            .copied()
            .filter(|leg| leg.is_in_range(stations))
    }
}
