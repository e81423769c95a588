// The first phase of a search: the cost from each station to the goal, settled in rising order.
ghost use Rattle.std.specs.Prelude.{◌≡◌, suc, ◌<◌, length, Some, Decides};
ghost use Rattle.queue.specs.Waiting.{held, SameRow, Keeps};
ghost use Rattle.route.specs.Certificate.{Usable};
ghost use Rattle.search.specs.Stages.{network_of, barred_in, Stage, Last, popped};
ghost use Rattle.search.specs.Tables.{Settled};
ghost use Rattle.snapshot.specs.Meanings.{Arrives};

use crate::search::Search;
use crate::settling::Settling;
use cost::model::CostModel;
use network::leg::Leg;
use network::network::Network;
use queue::least::Least;
use search_types::entry::{ByCost, Entry};

impl<'a, K: CostModel> Search<'a, K> {
    // Whether a route may use the leg, which is at the number.
    pub(crate) fn may_use(&self, number: u16, leg: Leg) -> bool
        requires { (network_of self.now).at number ≡ Some leg }
        ensures { Decides result (Usable (network_of self.now) (barred_in self.now) number leg) }
    {
        !(self.bars.bars_leg(number)
            || self.bars.bars_station(leg.from)
            || self.bars.bars_station(leg.to))
    }

    // One leg into the station that came out last: its start waits with the cost over it, if that is its first cost or
    // lower than the one it waits with. The costs are joined only where the start has not come out: then at most 63
    // stations have, and the joined cost stands for at most 63 legs.
    fn relax_leg(&self, settling: &mut Settling<K::Cost>, last: Entry<K::Cost>, number: u16)
        requires stage { Stage (K.CostModel.costs self.now.model.now) self.now number settling.old }
        requires last { Last (K.CostModel.costs self.now.model.now) settling.old.queue last }
        requires arrives { Arrives ((network_of self.now).at number) last.station }
        ensures stage { Stage (K.CostModel.costs self.now.model.now) self.now (suc number) settling.new }
        ensures keeps { Keeps settling.old.queue settling.new.queue }
    {
        let Some(leg) = self.network.leg_at(number) else {
            return;
        };
        let from = usize::from(leg.from);
        let place = settling.places[from];
        if let Some(place) = place
            && usize::from(place) < settling.queue.gone()
        {
            return;
        }
        if !self.may_use(number, leg) {
            return;
        }
        let cost = self.model.join(self.model.of_leg(leg), last.cost);
        let entry = Entry {
            cost,
            station: leg.from,
        };
        match place {
            None => {
                // below 64, as every place is, so it is cast: a checked conversion would have a case that never comes
                settling.places[from] = Some(settling.queue.held().len() as u8);
                let _ = settling.queue.insert(entry);
            }
            Some(place) => {
                let place = usize::from(place);
                if self.model.before(cost, settling.queue.held()[place].cost) {
                    let _ = settling.queue.replace(place, entry);
                }
            }
        }
    }

    // Every leg into the station that came out last.
    fn relax_arrivals(&self, settling: &mut Settling<K::Cost>, last: Entry<K::Cost>)
        requires stage { Stage (K.CostModel.costs self.now.model.now) self.now 0 settling.old }
        requires last { Last (K.CostModel.costs self.now.model.now) settling.old.queue last }
        ensures stage { Stage (K.CostModel.costs self.now.model.now) self.now (network_of self.now).legs settling.new }
        ensures keeps { Keeps settling.old.queue settling.new.queue }
    {
        for number in self.network.arrivals(last.station) {
            self.relax_leg(settling, last, number);
        }
    }

    // An entry that has just come out: its station and the one that made way for it are where they are now, and the legs
    // into its station are looked at.
    fn settle_least(&self, settling: &mut Settling<K::Cost>, least: Least<Entry<K::Cost>>)
        requires stage { Stage (K.CostModel.costs self.now.model.now) self.now 0 (popped (K.CostModel.costs self.now.model.now) settling.old least) }
        requires last { Last (K.CostModel.costs self.now.model.now) settling.old.queue least.entry }
        requires place { least.place < length (held settling.old.queue) }
        ensures stage { Stage (K.CostModel.costs self.now.model.now) self.now (network_of self.now).legs settling.new }
        ensures keeps { Keeps settling.old.queue settling.new.queue }
    {
        // places are below 64, so they are cast
        let moved = settling.queue.held()[least.place].station;
        settling.places[usize::from(moved)] = Some(least.place as u8);
        settling.places[usize::from(least.entry.station)] = Some((settling.queue.gone() - 1) as u8);
        self.relax_arrivals(settling, least.entry);
    }

    // Takes the stations out of the queue in rising cost, until nothing waits.
    pub(crate) fn settle(&self, settling: &mut Settling<K::Cost>)
        requires { Stage (K.CostModel.costs self.now.model.now) self.now (network_of self.now).legs settling.old }
        ensures settled { Settled (K.CostModel.costs self.now.model.now) (network_of self.now) (barred_in self.now) self.now.goal (held settling.new.queue) settling.new.places }
        ensures same_row { SameRow settling.old.queue settling.new.queue }
    {
        let order = ByCost { model: self.model };
        while let Some(least) = settling.queue.pop_least(&order) {
            self.settle_least(settling, least);
        }
    }
}
