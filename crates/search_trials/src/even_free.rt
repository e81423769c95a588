// Routes by the seconds of some of their legs.
ghost use Rattle.search_trials.specs.EvenFree.{even_free, even_free_laws};

use cost::model::CostModel;
use network::leg::Leg;

/// Adds the seconds of legs with an odd number of them; every other leg costs nothing, so that a longer way may cost as
/// much as a part of it.
// Some answers are those of `Seconds`: a model says itself what it answers, and borrows nothing of another.
#[derive(Clone, Copy, Debug)]
pub struct EvenFree;

impl CostModel for EvenFree {
    type Cost = u32;

    const MARK: u8 = b'E';

    ghost MARK = { 69 };

    ghost costs = { λ _. even_free };

    ghost laws = { λ _. even_free_laws };

    fn zero(&self) -> u32 {
        0
    }

    fn of_leg(&self, leg: Leg) -> u32 {
        if leg.seconds % 2 == 0 {
            0
        } else {
            u32::from(leg.seconds)
        }
    }

    fn join(&self, a: u32, b: u32) -> u32 {
        a.saturating_add(b)
    }

    fn before(&self, a: u32, b: u32) -> bool {
        a < b
    }
}
