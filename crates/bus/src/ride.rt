// The ride of an entry, and where an entry stands.
ghost use Rattle.std.specs.Prelude.{◌≡◌, ◌*◌, ◌/◌, ◌%◌, ◌<◌};
ghost use Rattle.bus.specs.Matrices.{ride};

use network::leg::Leg;

// Twelve hours, the longest that a leg may take.
pub(crate) const MOST_MINUTES: u16 = 720;

// The row and the column of a leg number: the stops that the ride leaves and reaches. Both are below the count of stops,
// so they are cast: a checked conversion would have a case that never comes.
pub(crate) fn row_and_column(number: u16, stops: u8) -> (u8, u8)
    requires inside { number < stops * stops }
    requires some { 0 < stops }
    ensures { result ≡ (number / stops, number % stops) }
{
    let width = u16::from(stops);
    ((number / width) as u8, (number % width) as u8)
}

// The ride of so many minutes; none where the entry stands for none, or is out of range.
pub(crate) fn ride(from: u8, to: u8, minutes: u16) -> Option<Leg>
    ensures { result ≡ ride from to minutes }
{
    if (1..=MOST_MINUTES).contains(&minutes) {
        Some(Leg {
            from,
            to,
            seconds: 60 * minutes,
            points: 0,
            grade: 0,
        })
    } else {
        None
    }
}
