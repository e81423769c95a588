// The least ride between two stations of a network.
ghost use Rattle.std.specs.Prelude.{◌≤◌, length};
ghost use Rattle.leastroute.specs.Answers.{RankedBy};
ghost use Rattle.leastroute.specs.Rides.{Ridden};

use crate::ranking::Ranking;
use crate::ride::Ride;
use crate::totals::fare;
use cost::model::CostModel;
use cost::points::PointsThenSeconds;
use cost::seconds::Seconds;
use network::network::Network;
use network::refusal::Refusal;
use search::least::least_route;
use search_types::bars::Bars;
use search_types::ends::Ends;
use search_types::entry::Entry;
use search_types::leg_list::LegList;

// A workspace with room for every network. It is lent where the model is known: of a cost of any type it is not known that
// 64 of them fit in memory.
fn workspace<K: CostModel>(model: &K) -> [Entry<K::Cost>; 64] {
    let blank = Entry {
        cost: model.zero(),
        station: 0,
    };
    [blank; 64]
}

// The least ride under a cost model. The search never refuses a workspace with room for every network.
fn least_ride<N: Network, K: CostModel>(
    network: &N,
    model: &K,
    ends: Ends,
    workspace: &mut [Entry<K::Cost>],
) -> Result<Ride, Refusal>
    requires { 64 ≤ length workspace.old }
    ensures { Ridden (K.CostModel.costs model.now) (N.Network.meaning network.now) ends.start ends.goal result }
{
    let bars = Bars::none();
    let mut legs = LegList::new();
    least_route(network, model, &bars, ends, workspace, &mut legs)?;
    Ok(Ride {
        fare: fare(network, legs.legs()),
        legs,
    })
}

/// The least ride by the ranking that is asked for.
pub fn ranked_ride<N: Network>(network: &N, ranking: Ranking, ends: Ends) -> Result<Ride, Refusal>
    ensures { RankedBy ranking (N.Network.meaning network.now) ends.start ends.goal result }
{
    match ranking {
        Ranking::Seconds => least_ride(network, &Seconds, ends, &mut workspace(&Seconds)),
        Ranking::Points => {
            let model = PointsThenSeconds;
            least_ride(network, &model, ends, &mut workspace(&model))
        }
    }
}
