// The least route between two stations.
ghost use Rattle.std.specs.Prelude.{◌≡◌, length, replicate, None};
ghost use Rattle.std.specs.Result.{result_err};
ghost use Rattle.search.specs.Answers.{refused_first, Answered, Searched};
ghost use Rattle.search_types.specs.Bars.{bars_of};
ghost use Rattle.search.specs.Tables.{blank};
ghost use Rattle.snapshot.specs.Meanings.{meaning_of};

use crate::search::Search;
use cost::model::CostModel;
use network::network::Network;
use network::refusal::Refusal;
use search_types::bars::Bars;
use search_types::ends::Ends;
use search_types::entry::Entry;
use search_types::leg_list::LegList;
use snapshot::snapshot::Snapshot;

// What is refused before anything is searched.
fn check(ends: Ends, stations: u8, entries: usize) -> Result<(), Refusal>
    ensures { result_err result ≡ refused_first stations ends.start ends.goal entries }
{
    ends.check(stations)?;
    if entries < usize::from(stations) {
        return Err(Refusal::ShortWorkspace);
    }
    Ok(())
}

fn clear<C: Copy>(workspace: &mut [Entry<C>], blank: Entry<C>)
    ensures { workspace.new ≡ replicate (length workspace.old) blank }
{
    // not `fill`, which asks that a clone never fails: `Copy` does not say so
    workspace.fill_with(move || blank);
}

// Searches, and clears the workspace. It is handed one by one what the callers are lent.
fn search_and_clear<K: CostModel>(
    snapshot: &Snapshot,
    model: &K,
    bars: &Bars,
    ends: Ends,
    workspace: &mut [Entry<K::Cost>],
    route: &mut LegList,
) -> Result<(), Refusal>
    requires { refused_first (meaning_of snapshot.now).stations ends.start ends.goal (length workspace.old) ≡ None }
    ensures answer { Answered (K.CostModel.costs model.now) (meaning_of snapshot.now) (bars_of bars.now) ends.start ends.goal result route.old route.new }
    ensures cleared { workspace.new ≡ replicate (length workspace.old) (blank (K.CostModel.costs model.now)) }
{
    let search = Search {
        network: snapshot,
        model,
        bars,
        goal: ends.goal,
    };
    let found = search.find(ends.start, workspace);
    let blank = Entry {
        cost: model.zero(),
        station: 0,
    };
    clear(workspace, blank);
    *route = found.ok_or(Refusal::NoFurtherRoute)?;
    Ok(())
}

/// The same on a network that was copied before, for one who searches it often.
pub fn least_route_in<K: CostModel>(
    snapshot: &Snapshot,
    model: &K,
    bars: &Bars,
    ends: Ends,
    workspace: &mut [Entry<K::Cost>],
    route: &mut LegList,
) -> Result<(), Refusal>
    ensures { Searched (K.CostModel.costs model.now) (meaning_of snapshot.now) (bars_of bars.now) ends.start ends.goal (refused_first (meaning_of snapshot.now).stations ends.start ends.goal (length workspace.old)) result route.old route.new workspace.old workspace.new }
{
    check(ends, snapshot.station_count(), workspace.len())?;
    search_and_clear(snapshot, model, bars, ends, workspace, route)
}

/// Puts the least route that meets nothing barred into `route`. Every refusal leaves `route` as it was; the three that
/// come before the search leave the workspace too, and after a search every entry of it is cleared.
pub fn least_route<N: Network, K: CostModel>(
    network: &N,
    model: &K,
    bars: &Bars,
    ends: Ends,
    workspace: &mut [Entry<K::Cost>],
    route: &mut LegList,
) -> Result<(), Refusal>
    ensures { Searched (K.CostModel.costs model.now) (N.Network.meaning network.now) (bars_of bars.now) ends.start ends.goal (refused_first (N.Network.meaning network.now).stations ends.start ends.goal (length workspace.old)) result route.old route.new workspace.old workspace.new }
{
    let snapshot = Snapshot::of(network);
    least_route_in(&snapshot, model, bars, ends, workspace, route)
}
