// The legs that arrive at each station, in rising leg number.
ghost use Rattle.std.specs.Prelude.{◌+◌, ◌<◌};
ghost use Rattle.snapshot.specs.Tables.{Bounded, Linked};

use network::leg::Leg;

// For each station the lowest leg that arrives there, and for each leg the next higher one that arrives where it does.
// Lists in two rows, since the memory is fixed and nothing is allocated.
pub(crate) struct Arrivals {
    pub(crate) first: [Option<u16>; 64],
    pub(crate) next: [Option<u16>; 512],
}

impl Arrivals {
    // Puts a leg at the head of the list of the station where it arrives. All higher legs are in the lists already.
    fn link(&mut self, legs: &[Option<Leg>; 512], number: u16)
        requires number { number < 512 }
        requires bounded { Bounded legs.now }
        requires linked { Linked legs.now (number + 1) self.old.first self.old.next }
        ensures { Linked legs.now number self.new.first self.new.next }
    {
        let place = usize::from(number);
        if let Some(leg) = legs[place] {
            let to = usize::from(leg.to);
            self.next[place] = self.first[to];
            self.first[to] = Some(number);
        }
    }

    // The lists are made from the highest leg down, so that each leg goes to the head of its list.
    pub(crate) fn of(legs: &[Option<Leg>; 512]) -> Arrivals
        requires { Bounded legs.now }
        ensures { Linked legs.now 0 result.first result.next }
    {
        let mut arrivals = Arrivals {
            first: [None; 64],
            next: [None; 512],
        };
        for number in (0..512u16).rev() {
            arrivals.link(legs, number);
        }
        arrivals
    }
}
