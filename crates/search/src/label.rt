// The second phase of a search: from the goal outward, how few legs lead from each station to the goal at its cost, and
// which leg to take first.
ghost use Rattle.std.specs.Prelude.{◌≡◌, ℕ, suc, ◌<◌, ◌≤◌, ◌↔◌, true, Some, IsTrue};
ghost use Rattle.route.specs.Certificate.{Tight, Labelling};
ghost use Rattle.search.specs.Lines.{line_of, hops_of, first_of};
ghost use Rattle.search.specs.Stages.{network_of, barred_in, table_cost, SettledIn, LabelledIn, Current};
ghost use Rattle.search.specs.Tables.{seen};
ghost use Rattle.snapshot.specs.Meanings.{Arrives};

use crate::cost_table::CostTable;
use crate::labels::{Label, Labels};
use crate::search::Search;
use cost::model::CostModel;
use network::leg::Leg;
use network::network::Network;

// What the second phase goes by: the search, and the costs that the first phase left. It keeps only that there is a proof
// that they are settled, since a ghost field has at most one proof of its fact, and of this one there may be several.
#[derive(Drop)]
struct Labeller<'s, 'a, K: CostModel> {
    search: &'s Search<'a, K>,
    table: &'s CostTable<'s, K::Cost>,
    ghost settled: { ∥ SettledIn (K.CostModel.costs search.now.model.now) search.now table.now ∥₁ },
}

impl<'s, 'a, K: CostModel> Labeller<'s, 'a, K> {
    // Whether two costs are equal: neither comes before the other.
    fn level(&self, a: K::Cost, b: K::Cost) -> bool
        ensures { IsTrue result ↔ (a ≡ b) }
    {
        !self.search.model.before(a, b) && !self.search.model.before(b, a)
    }

    // Whether a route may use the leg and the cost over it is the cost of its start.
    fn is_tight(&self, number: u16, leg: Leg) -> bool
        requires shown { (network_of self.now.search.now).at number ≡ Some leg }
        requires reached { seen self.now.table.now.places.now leg.to ≡ true }
        requires short { (h : ℕ) × (h ≤ 62) × (K.CostModel.costs self.now.search.now.model.now).stands (table_cost (K.CostModel.costs self.now.search.now.model.now) self.now.table.now leg.to) h }
        ensures { IsTrue result ↔ Tight (K.CostModel.costs self.now.search.now.model.now) (network_of self.now.search.now) (barred_in self.now.search.now) (table_cost (K.CostModel.costs self.now.search.now.model.now) self.now.table.now) number leg }
    {
        if !self.search.may_use(number, leg) {
            return false;
        }
        let over = self
            .search
            .model
            .join(self.search.model.of_leg(leg), self.table.cost(leg.to));
        self.level(over, self.table.cost(leg.from))
    }

    // One leg into the station whose arrivals are looked at: its start gets the label over it, if it has none or one that is
    // not as good. The costs are joined only then, so that they stand for at most 63 legs.
    fn label_leg(&self, labels: &mut Labels, label: Label)
        requires labelled { LabelledIn (K.CostModel.costs self.now.search.now.model.now) self.now.search.now self.now.table.now labels.old.done label.first labels.old }
        requires current { Current label.hops labels.old }
        requires arrives { Arrives ((network_of self.now.search.now).at label.first) (line_of labels.old labels.old.done) }
        ensures labelled { LabelledIn (K.CostModel.costs self.now.search.now.model.now) self.now.search.now self.now.table.now labels.old.done (suc label.first) labels.new }
        ensures current { Current label.hops labels.new }
        ensures done { labels.new.done ≡ labels.old.done }
        ensures station { line_of labels.new labels.old.done ≡ line_of labels.old labels.old.done }
    {
        let Some(leg) = self.search.network.leg_at(label.first) else {
            return;
        };
        if labels.improves(leg.from, label) && self.is_tight(label.first, leg) {
            labels.put(leg.from, label);
        }
    }

    // Every leg into the first station of the line that is not done. Where 63 legs lead from it, all 64 stations are met,
    // and nothing lies behind.
    fn label_arrivals(&self, labels: &mut Labels)
        requires labelled { LabelledIn (K.CostModel.costs self.now.search.now.model.now) self.now.search.now self.now.table.now labels.old.done 0 labels.old }
        requires line { labels.old.done < labels.old.count }
        ensures labelled { LabelledIn (K.CostModel.costs self.now.search.now.model.now) self.now.search.now self.now.table.now (suc labels.old.done) 0 labels.new }
        ensures done { labels.new.done ≡ labels.old.done }
    {
        let station = labels.line[labels.done];
        let Some(to) = labels.labels[usize::from(station)] else {
            return;
        };
        if to.hops > 62 {
            return;
        }
        for first in self.search.network.arrivals(station) {
            let label = Label {
                hops: to.hops + 1,
                first,
            };
            self.label_leg(labels, label);
        }
    }
}

impl<'a, K: CostModel> Search<'a, K> {
    // Labels every station from which the goal can be reached.
    pub(crate) fn label(&self, table: &CostTable<K::Cost>) -> Labels
        requires settled { SettledIn (K.CostModel.costs self.now.model.now) self.now table.now }
        requires goal { self.now.goal < 64 }
        ensures labelling { Labelling (K.CostModel.costs self.now.model.now) (network_of self.now) (barred_in self.now) self.now.goal (table_cost (K.CostModel.costs self.now.model.now) table.now) (hops_of result) (first_of result) }
    {
        let labeller = Labeller {
            search: self,
            table,
        };
        let mut labels = Labels::start(self.goal);
        // the line grows while it is walked
        while labels.done < labels.count {
            labeller.label_arrivals(&mut labels);
            labels.done += 1;
        }
        labels
    }
}
