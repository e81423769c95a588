// The entries of a workspace, and the order in which a search takes them up.
ghost use Rattle.search_types.specs.Entries.{sooner, sooner_strict};

use cost::model::CostModel;
use queue::order::Order;

/// What a search keeps of a station.
#[derive(Clone, Copy, Debug)]
pub struct Entry<C> {
    /// What the rest of the way costs, from this station to the goal.
    pub cost: C,
    pub station: u8,
}

/// By the cost, and at equal cost by the station.
#[derive(Drop)]
pub struct ByCost<'m, K> {
    pub model: &'m K,
}

impl<'m, K: CostModel> Order for ByCost<'m, K> {
    type Entry = Entry<K::Cost>;

    ghost less = { λ x. sooner (K.CostModel.costs x.model.now).before };

    ghost strict = { λ x. sooner_strict (K.CostModel.costs x.model.now) (K.CostModel.laws x.model.now) };

    fn comes_before(&self, a: Entry<K::Cost>, b: Entry<K::Cost>) -> bool {
        // by hand: costs are compared by a method of their model, which no derive reads
        self.model.before(a.cost, b.cost)
            || (!self.model.before(b.cost, a.cost) && a.station < b.station)
    }
}
