// A network of stations and legs, known by its meaning alone.
ghost use Rattle.std.specs.Prelude.{◌≡◌};
ghost use Rattle.network.specs.Meaning.{Meaning, Sound};
ghost use Rattle.network.specs.Ranges.{stations_fit};

use crate::leg::Leg;

/// Whether a network may have so many stations.
pub fn stations_fit(stations: u8) -> bool
    ensures { result ≡ stations_fit stations }
{
    (2..=64).contains(&stations)
}

/// Stations are numbered from 0 up to their count, and so are legs; at a leg number there is a leg or nothing. No
/// question is refused, and none changes what the network means. A leg may lead from a station to itself, and two legs
/// may join the same stations.
pub trait Network {
    ghost meaning: { Self → Meaning };

    // the ranges, for every value of the type
    ghost sound: { (x : Self) → Sound (meaning x) };

    /// How many stations there are, 2 to 64.
    fn station_count(&self) -> u8
        ensures { result ≡ (meaning self.now).stations };

    /// How many leg numbers there are, 0 to 512.
    fn leg_count(&self) -> u16
        ensures { result ≡ (meaning self.now).legs };

    /// The leg with this number, or nothing; nothing at and past the count.
    fn leg_at(&self, number: u16) -> Option<Leg>
        ensures { result ≡ (meaning self.now).at number };
}
