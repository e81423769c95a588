// Loopless routes, their rank, and the theorems on which search and ranking rest. There is nothing to run here: the
// definitions are in specs/, and what is proved of them in proofs/.
#![tactic(auto)]

ghost use Rattle.route.specs.Certificate.{Certified};
ghost use Rattle.route.specs.Claims.{Loopless, Parts, Ranks, Deviates, Nexts, Onward};
ghost use Rattle.route.specs.Pool.{Pools};

use cost::model::CostModel;

// The theorems, for every network in range and every model that keeps the laws:
// a route meets distinct stations, so it has at most 63 legs; legs that lead fall into parts and join again; the rank is
// a strict total order that a common root keeps; what a search leaves behind, checked leg by leg, makes the route that
// it followed the least; every other route deviates from a given one; the next route is the least of the deviations;
// only the new route's own roots have to be searched again; and a ranking that keeps its candidates keeps this up.
pub fn ranking_laws<K: CostModel>(model: &K)
    ensures loopless { Loopless }
    ensures parts { Parts }
    ensures ranks { Ranks (K.CostModel.costs model.now) }
    ensures certified { Certified (K.CostModel.costs model.now) }
    ensures deviates { Deviates }
    ensures nexts { Nexts (K.CostModel.costs model.now) }
    ensures onward { Onward }
    ensures pools { Pools (K.CostModel.costs model.now) }
{}
