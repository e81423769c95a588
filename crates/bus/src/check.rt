// What a matrix is tested for before it is accepted.
ghost use Rattle.std.specs.Prelude.{◌≡◌, ◌<◌, OnOk};
ghost use Rattle.bus.specs.Answers.{answer};
ghost use Rattle.bus.specs.Matrices.{size_fits, entry_fits, entries_fit, matrix_refusal, Accepted};

use crate::count::{count_fits, pair_count};
use crate::ride::MOST_MINUTES;
use network::refusal::Refusal;

// Whether there may be so many stops, and an entry stands for each stop to leave and each to reach.
fn size_fits(stops: u8, minutes: &[u16]) -> bool
    ensures { result ≡ size_fits stops minutes.now }
{
    count_fits(stops) && minutes.len() == usize::from(pair_count(stops))
}

// Whether an entry may stand at its place. On the diagonal, where row and column are one stop, there is no ride. That there
// is a stop is what the division asks, here and of the callers.
fn entry_fits(stops: u8, place: usize, minutes: u16) -> bool
    requires { 0 < stops }
    ensures { result ≡ entry_fits stops place minutes }
{
    let width = usize::from(stops);
    minutes <= MOST_MINUTES && (place / width != place % width || minutes == 0)
}

// Whether every entry may stand at its place.
fn entries_fit(stops: u8, minutes: &[u16]) -> bool
    requires { 0 < stops }
    ensures { result ≡ entries_fit stops 0 minutes.now }
{
    minutes
        .iter()
        .enumerate()
        .all(|(place, entry)| entry_fits(stops, place, *entry))
}

// Refuses a matrix that may not be accepted, the size first.
pub(crate) fn check_matrix(stops: u8, minutes: &[u16]) -> Result<(), Refusal>
    ensures answer { result ≡ answer (matrix_refusal stops minutes.now) tt }
    ensures accepted { OnOk result (Accepted stops minutes.now) }
{
    if !size_fits(stops, minutes) {
        return Err(Refusal::WrongMatrixSize);
    }
    if !entries_fit(stops, minutes) {
        return Err(Refusal::WrongMatrixEntry);
    }
    Ok(())
}
