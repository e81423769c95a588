// Routes by riding time and then by legs, with nonsense past 63 legs.
ghost use Rattle.search_trials.specs.Counted.{counted, counted_laws};

use cost::model::CostModel;
use network::leg::Leg;

/// 64 for each second and 1 for each leg, so that the remainder by 64 is the count of legs. What would stand for more than
/// 63 of them comes out as 0, ahead of every other cost, as a model is free to do: a search that joins so far and goes
/// by the answer is misled.
#[derive(Clone, Copy, Debug)]
pub struct Counted;

impl CostModel for Counted {
    type Cost = u32;

    const MARK: u8 = b'C';

    ghost MARK = { 67 };

    ghost costs = { λ _. counted };

    ghost laws = { λ _. counted_laws };

    fn zero(&self) -> u32 {
        0
    }

    fn of_leg(&self, leg: Leg) -> u32 {
        64 * u32::from(leg.seconds) + 1
    }

    fn join(&self, a: u32, b: u32) -> u32 {
        if a % 64 + b % 64 > 63 {
            return 0;
        }
        a.saturating_add(b)
    }

    fn before(&self, a: u32, b: u32) -> bool {
        a < b
    }
}
