// Routes by card points.
ghost use Rattle.cost.specs.Points.{points, points_laws};

use crate::fare::Fare;
use crate::model::CostModel;
use network::leg::Leg;

/// Fewer points come first, and at equal points fewer seconds.
#[derive(Clone, Copy, Debug)]
pub struct PointsThenSeconds;

impl CostModel for PointsThenSeconds {
    type Cost = Fare;

    const MARK: u8 = b'P';

    ghost MARK = { 80 };

    ghost costs = { λ _. points };

    ghost laws = { λ _. points_laws };

    fn zero(&self) -> Fare {
        Fare::default()
    }

    fn of_leg(&self, leg: Leg) -> Fare {
        Fare {
            points: u32::from(leg.points),
            seconds: u32::from(leg.seconds),
        }
    }

    fn join(&self, a: Fare, b: Fare) -> Fare {
        Fare {
            points: a.points.saturating_add(b.points),
            seconds: a.seconds.saturating_add(b.seconds),
        }
    }

    fn before(&self, a: Fare, b: Fare) -> bool {
        a < b
    }
}
