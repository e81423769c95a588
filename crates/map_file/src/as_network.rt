// An accepted map as a network: its stations, and its legs read in place.
ghost use Rattle.map_file.specs.Networks.{map_meaning, map_sound};

use crate::fields::leg_fits;
use crate::map::Map;
use network::leg::Leg;
use network::network::{Network, stations_fit};

impl<'a> Network for Map<'a> {
    ghost meaning = { map_meaning };

    ghost sound = { map_sound };

    fn station_count(&self) -> u8 {
        // out of range it stands for the least one, so that every map means a network
        let stations = self.heading().stations;
        if stations_fit(stations) { stations } else { 2 }
    }

    fn leg_count(&self) -> u16 {
        self.heading().legs.min(512)
    }

    fn leg_at(&self, number: u16) -> Option<Leg> {
        if number >= self.leg_count() {
            return None;
        }
        let stations = self.station_count();
        self.leg(number).filter(|leg| leg_fits(*leg, stations))
    }
}
