// The copy as a network.
ghost use Rattle.snapshot.specs.Meanings.{meaning_of};
ghost use Rattle.snapshot.specs.Sounds.{snapshot_sound};

use crate::snapshot::Snapshot;
use network::leg::Leg;
use network::network::Network;

impl Network for Snapshot {
    ghost meaning = { meaning_of };

    ghost sound = { snapshot_sound };

    fn station_count(&self) -> u8 {
        self.stations
    }

    fn leg_count(&self) -> u16 {
        self.count
    }

    fn leg_at(&self, number: u16) -> Option<Leg> {
        self.legs.get(usize::from(number)).copied().flatten()
    }
}
