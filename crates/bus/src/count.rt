// How many stops and leg numbers there are.
ghost use Rattle.std.specs.Prelude.{◌≡◌, ◌*◌};
ghost use Rattle.bus.specs.Matrices.{count_fits, stops_of};

// Whether there may be so many stops.
pub(crate) fn count_fits(stops: u8) -> bool
    ensures { result ≡ count_fits stops }
{
    (2..=22).contains(&stops)
}

// The count itself where it is in range, else the least one: a network has at least two stations.
pub(crate) fn stop_count(stops: u8) -> u8
    ensures { result ≡ stops_of stops }
{
    if count_fits(stops) { stops } else { 2 }
}

// One leg number, and one entry, for each stop to leave and each to reach.
pub(crate) fn pair_count(stops: u8) -> u16
    ensures { result ≡ stops * stops }
{
    u16::from(stops) * u16::from(stops)
}
