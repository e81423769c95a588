// Making the copy, and asking it for the legs by arrival.
ghost use Rattle.std.specs.Prelude.{◌≡◌};
ghost use Rattle.snapshot.specs.Meanings.{meaning_of, FirstFrom, NextArrival};
ghost use Rattle.snapshot.specs.Steps.{Awaits};
ghost use Rattle.snapshot.specs.Tables.{Copied};

use crate::arrivals::Arrivals;
use crate::copy::legs_of;
use crate::iter::ArrivalsAt;
use crate::snapshot::Snapshot;
use network::leg::Leg;
use network::network::Network;

// The table of a network with these legs, which are its own. A function apart from `of`: the legs come by value and are
// copied once less, which is a tenth of the time of a search.
fn table<N: Network>(network: &N, legs: [Option<Leg>; 512]) -> Snapshot
    requires { Copied (N.Network.meaning network.now) legs }
    ensures { meaning_of result ≡ N.Network.meaning network.now }
{
    let stations = network.station_count();
    let count = network.leg_count();
    let Arrivals { first, next } = Arrivals::of(&legs);
    Snapshot {
        stations,
        count,
        legs,
        first,
        next,
    }
}

impl Snapshot {
    /// The network as it is now.
    pub fn of<N: Network>(network: &N) -> Snapshot
        ensures { meaning_of result ≡ N.Network.meaning network.now }
    {
        table(network, legs_of(network))
    }

    /// The lowest leg that arrives at a station.
    pub fn first_arrival(&self, station: u8) -> Option<u16>
        ensures { FirstFrom (meaning_of self.now) station 0 result }
    {
        self.first.get(usize::from(station)).copied().flatten()
    }

    /// The next higher leg that arrives where this one does; none where nothing is at the number.
    pub fn next_arrival(&self, number: u16) -> Option<u16>
        ensures { NextArrival (meaning_of self.now) number result }
    {
        self.next.get(usize::from(number)).copied().flatten()
    }

    /// The legs that arrive at a station, in rising number.
    pub fn arrivals(&self, station: u8) -> ArrivalsAt<'_>
        ensures { Awaits result (meaning_of self.now) station 0 }
    {
        ArrivalsAt {
            snapshot: self,
            number: self.first_arrival(station),
        }
    }
}
