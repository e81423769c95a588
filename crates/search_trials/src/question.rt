// What a search is asked, and how its answer is compared with the expected one.
use crate::table::Table;
use cost::model::CostModel;
use network::leg::Leg;
use network::refusal::Refusal;
use search::least::least_route;
use search_types::bars::Bars;
use search_types::ends::Ends;
use search_types::entry::Entry;
use search_types::leg_list::LegList;
use std::process::Abort;

// The least route from a station to another, on a network, by a cost model, under bars.
#[derive(Clone, Copy)]
pub(crate) struct Question<'a, K> {
    pub(crate) network: Table<'a>,
    pub(crate) model: K,
    pub(crate) bars: Bars,
    pub(crate) ends: Ends,
}

// Its cost fills the workspace before a search: above zero by every model.
const SOIL: Leg = Leg {
    from: 0,
    to: 1,
    seconds: 43_199,
    points: 99,
    grade: 0,
};

impl<'a, K: CostModel> Question<'a, K> {
    // With nothing barred.
    pub(crate) fn new(network: Table<'a>, model: K, start: u8, goal: u8) -> Self {
        Question {
            network,
            model,
            bars: Bars::none(),
            ends: Ends { start, goal },
        }
    }

    // Asks the search, with a workspace that holds no zero. The answer, the route and every entry have to be as expected: at
    // a refusal the route is as before, and so is the workspace, but where there is no further route.
    pub(crate) fn check(
        &self,
        rt: &impl Abort,
        workspace: &mut [Entry<K::Cost>],
        route: &mut LegList,
        expected: Result<&[u16], Refusal>,
    ) {
        let soiled = Entry {
            cost: self.model.of_leg(SOIL),
            station: 200,
        };
        // `fill` asks for a clone that cannot fail, which `Copy` does not say
        workspace.fill_with(|| soiled);
        let old = *route;
        let answer = least_route(
            &self.network,
            &self.model,
            &self.bars,
            self.ends,
            workspace,
            route,
        );
        assert_eq!(rt; answer, expected.map(|_| ()));
        assert_eq!(rt; route.legs(), expected.unwrap_or(old.legs()));
        let held = match answer {
            Ok(()) | Err(Refusal::NoFurtherRoute) => Entry {
                cost: self.model.zero(),
                station: 0,
            },
            Err(_) => soiled,
        };
        assert!(rt;
            workspace
                .iter()
                .all(|place| is_same(&self.model, *place, held))
        );
    }
}

// Of two costs neither comes before the other exactly where they are equal.
fn is_same<K: CostModel>(model: &K, a: Entry<K::Cost>, b: Entry<K::Cost>) -> bool {
    a.station == b.station && !model.before(a.cost, b.cost) && !model.before(b.cost, a.cost)
}
