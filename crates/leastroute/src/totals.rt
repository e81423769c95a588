// What a list of legs takes together.
ghost use Rattle.std.specs.Prelude.{◌≡◌, ◌≤◌, length};
ghost use Rattle.leastroute.specs.Fares.{fare_of};

use cost::fare::Fare;
use cost::model::CostModel;
use cost::points::PointsThenSeconds;
use network::network::Network;

// The fares of the legs with these numbers, joined. There are at most 63, so that the sums fit.
pub(crate) fn fare<N: Network>(network: &N, legs: &[u16]) -> Fare
    requires { length legs.now ≤ 63 }
    ensures { result ≡ fare_of (N.Network.meaning network.now) legs.now }
{
    let model = PointsThenSeconds;
    let mut total = model.zero();
    for number in legs {
        if let Some(leg) = network.leg_at(*number) {
            total = model.join(total, model.of_leg(leg));
        }
    }
    total
}
