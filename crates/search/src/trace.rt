// The third phase of a search: from the start on, each station's first leg.
ghost use Rattle.std.specs.Prelude.{◌≡◌, ◌<◌, ◌≤◌};
ghost use Rattle.route.specs.Certificate.{follow, leg_end};
ghost use Rattle.search_types.specs.Legs.{legs_of};
ghost use Rattle.search.specs.Lines.{hops_of, first_of};
ghost use Rattle.search.specs.Stages.{network_of};

use crate::labels::Labels;
use crate::search::Search;
use network::network::Network;
use search_types::leg_list::LegList;

impl<'a, K> Search<'a, K> {
    // Where a leg ends; 0 where there is none, as the definition has it.
    fn end_of(&self, number: u16) -> u8
        ensures { result ≡ leg_end ((network_of self.now).at number) }
    {
        self.network.leg_at(number).map_or(0, |leg| leg.to)
    }

    // The legs from a station with a label to the goal.
    pub(crate) fn trace(&self, labels: &Labels, start: u8) -> LegList
        requires start { start < 64 }
        requires labelled { hops_of labels.now start ≤ 63 }
        ensures { legs_of result ≡ follow (network_of self.now) (first_of labels.now) (hops_of labels.now start) start }
    {
        let mut route = LegList::new();
        // every station on the way has a label, so that no 0 is ever read
        let mut at = start;
        for _i in 0..labels.labels[usize::from(start)].map_or(0, |label| label.hops) {
            let number = labels.labels[usize::from(at)].map_or(0, |label| label.first);
            let _ = route.push(number);
            at = self.end_of(number);
        }
        route
    }
}
