// What a search may not use.
ghost use Rattle.std.specs.Prelude.{◌≡◌, ℕ};
ghost use Rattle.route.specs.Routes.{no_bars};
ghost use Rattle.search_types.specs.Bars.{bars_of, barred};

use sets::number_set::NumberSet;

/// Stations below 64 and leg numbers below 512, as many as a network can have.
#[derive(Clone, Copy, Debug)]
pub struct Bars {
    stations: NumberSet<1>,
    legs: NumberSet<8>,
}

// For stations and for legs each a function: they differ in their set and in the type of a number.
impl Bars {
    /// Nothing is barred.
    pub fn none() -> Bars
        ensures { bars_of result ≡ no_bars }
    {
        Bars {
            stations: NumberSet::new(),
            legs: NumberSet::new(),
        }
    }

    /// Bars a station below 64; any other changes nothing.
    pub fn bar_station(&mut self, station: u8)
        ensures stations { (s : ℕ) → (bars_of self.new).station s ≡ barred 64 station (bars_of self.old).station s }
        ensures legs { (bars_of self.new).leg ≡ (bars_of self.old).leg }
    {
        self.stations.put(u16::from(station), true);
    }

    /// Bars a leg number below 512; any other changes nothing.
    pub fn bar_leg(&mut self, number: u16)
        ensures legs { (i : ℕ) → (bars_of self.new).leg i ≡ barred 512 number (bars_of self.old).leg i }
        ensures stations { (bars_of self.new).station ≡ (bars_of self.old).station }
    {
        self.legs.put(number, true);
    }

    /// Whether a station is barred.
    pub fn bars_station(&self, station: u8) -> bool
        ensures { result ≡ (bars_of self.now).station station }
    {
        self.stations.contains(u16::from(station))
    }

    /// Whether a leg number is barred.
    pub fn bars_leg(&self, number: u16) -> bool
        ensures { result ≡ (bars_of self.now).leg number }
    {
        self.legs.contains(number)
    }
}
