// A matrix of minutes by bus, and the network that it means.
ghost use Rattle.std.specs.Prelude.{◌≡◌, IfOk};
ghost use Rattle.bus.specs.Answers.{told, answer};
ghost use Rattle.bus.specs.Matrices.{bus_meaning, matrix_refusal, Accepted};
ghost use Rattle.bus.specs.Sounds.{bus_sound};

use crate::check::check_matrix;
use crate::count::{pair_count, stop_count};
use crate::ride::{ride, row_and_column};
use network::leg::Leg;
use network::network::Network;
use network::refusal::Refusal;

/// The minutes from each stop to each, row after row: the entry in row a and column b is for the ride from a to b, and 0
/// is no ride. Nothing here is relied on: each question tests what it reads.
#[derive(Clone, Copy, Debug)]
pub struct BusMatrix<'a> {
    pub(crate) stops: u8,
    pub(crate) minutes: &'a [u16],
}

impl<'a> BusMatrix<'a> {
    /// The matrix of so many stops, 2 to 22, in these entries, or why they are refused.
    pub fn accept(stops: u8, minutes: &'a [u16]) -> Result<BusMatrix<'a>, Refusal>
        ensures answer { told result ≡ answer (matrix_refusal stops minutes.now) (stops, minutes.now) }
        ensures accepted { IfOk result (λ m. Accepted m.stops m.minutes.now) }
    {
        check_matrix(stops, minutes)?;
        Ok(BusMatrix { stops, minutes })
    }
}

impl<'a> Network for BusMatrix<'a> {
    ghost meaning = { λ m. bus_meaning m.stops m.minutes.now };

    ghost sound = { λ m. bus_sound m.stops m.minutes.now };

    fn station_count(&self) -> u8 {
        stop_count(self.stops)
    }

    fn leg_count(&self) -> u16 {
        pair_count(stop_count(self.stops))
    }

    fn leg_at(&self, number: u16) -> Option<Leg> {
        let stops = stop_count(self.stops);
        if number >= pair_count(stops) {
            return None;
        }
        let (from, to) = row_and_column(number, stops);
        let minutes = self.minutes.get(usize::from(number)).copied();
        ride(from, to, minutes.unwrap_or(0))
    }
}
