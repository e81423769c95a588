// The legs of a network, copied.
ghost use Rattle.snapshot.specs.Tables.{Copied};

use network::leg::Leg;
use network::network::Network;

// What is at each leg number.
pub(crate) fn legs_of<N: Network>(network: &N) -> [Option<Leg>; 512]
    ensures { Copied (N.Network.meaning network.now) result }
{
    let mut legs = [None; 512];
    // each place is asked by its number, and those past the count are not asked at all
    for number in 0..network.leg_count() {
        legs[usize::from(number)] = network.leg_at(number);
    }
    legs
}
