// The ranges of a record's fields.
ghost use Rattle.std.specs.Prelude.{◌≡◌};
ghost use Rattle.map_format.specs.Format.{printable, name_fits, leg_fits, notice_fits, fits};
ghost use Rattle.map_format.specs.Views.{said};

use map_format::record::Record;
use network::leg::Leg;

// Whether every byte is a printable one.
pub(crate) fn printable(text: &[u8]) -> bool
    ensures { result ≡ printable text.now }
{
    text.iter().all(|byte| (0x20..=0x7E).contains(byte))
}

// Whether a leg may stand in a map of so many stations.
pub(crate) fn leg_fits(leg: Leg, stations: u8) -> bool
    ensures { result ≡ leg_fits stations leg }
{
    leg.from != leg.to && leg.is_in_range(stations)
}

// Whether a station may have this name.
pub(crate) fn name_fits(name: &[u8]) -> bool
    ensures { result ≡ name_fits name.now }
{
    (1..=20).contains(&name.len()) && printable(name)
}

// Whether a notice may have this text.
pub(crate) fn notice_fits(text: &[u8]) -> bool
    ensures { result ≡ notice_fits text.now }
{
    text.len() <= 60 && printable(text)
}

// Whether a record may stand in a map of so many stations.
pub(crate) fn fits(what: Record<'_>, stations: u8) -> bool
    ensures { result ≡ fits stations (said what.entry) }
{
    match what {
        Record::Station(name) => name_fits(name),
        Record::Leg(leg) => leg_fits(leg, stations),
        Record::Notice(text) => notice_fits(text),
    }
}
