// One ride, by lift, on a run or by bus.
ghost use Rattle.std.specs.Prelude.{◌≡◌};
ghost use Rattle.network.specs.Ranges.{in_range};

/// A ride between two stations.
#[derive(Clone, Copy, Debug, PartialEq, Eq)]
pub struct Leg {
    // the stations that it leaves and reaches, by number
    pub from: u8,
    pub to: u8,
    // the riding time
    pub seconds: u16,
    // what a points card pays
    pub points: u8,
    // how hard it is, from 0, the easiest, to 3
    pub grade: u8,
}

impl Leg {
    /// Whether the leg may stand in a network of so many stations.
    pub fn is_in_range(self, stations: u8) -> bool
        ensures { result ≡ in_range stations self }
    {
        self.from < stations
            && self.to < stations
            && (1..=43_200).contains(&self.seconds)
            && self.points <= 99
            && self.grade <= 3
    }
}
