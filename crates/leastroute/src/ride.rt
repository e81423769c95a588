// A ride from a station to another.
use cost::fare::Fare;
use search_types::leg_list::LegList;
use std::fmt;

/// The legs of a route, and their fare.
#[derive(Clone, Copy)]
pub struct Ride {
    /// What the legs take together.
    pub fare: Fare,
    /// The legs in order, by number.
    pub legs: LegList,
}

/// What it takes, and its legs, in one line.
impl fmt::Display for Ride {
    fn fmt<W: fmt::Write>(&self, f: &mut fmt::Formatter<W>) -> fmt::Result {
        let Fare { points, seconds } = self.fare;
        write!(f, "{seconds} s, {points} points: legs")?;
        for leg in self.legs.legs() {
            write!(f, " {leg}")?;
        }
        Ok(())
    }
}
