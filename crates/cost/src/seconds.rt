// Routes by riding time.
ghost use Rattle.cost.specs.Seconds.{seconds, seconds_laws};

use crate::model::CostModel;
use network::leg::Leg;

/// Adds seconds.
#[derive(Clone, Copy, Debug)]
pub struct Seconds;

impl CostModel for Seconds {
    type Cost = u32;

    const MARK: u8 = b'S';

    ghost MARK = { 83 };

    ghost costs = { λ _. seconds };

    ghost laws = { λ _. seconds_laws };

    fn zero(&self) -> u32 {
        0
    }

    fn of_leg(&self, leg: Leg) -> u32 {
        u32::from(leg.seconds)
    }

    fn join(&self, a: u32, b: u32) -> u32 {
        a.saturating_add(b)
    }

    fn before(&self, a: u32, b: u32) -> bool {
        a < b
    }
}
