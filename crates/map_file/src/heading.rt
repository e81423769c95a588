// The front of a map file.
ghost use Rattle.std.specs.Prelude.{◌≡◌};
ghost use Rattle.map_format.specs.Format.{counts_fit};
ghost use Rattle.map_format.specs.Reading.{read_heading};

use map_format::heading::Heading;
use network::network::stations_fit;
use network::refusal::Refusal;

// How many bytes the heading takes.
pub(crate) const HEADING_LEN: usize = 8;

// Whether a map may have so many stations and legs.
pub(crate) fn counts_fit(heading: Heading) -> bool
    ensures { result ≡ counts_fit heading }
{
    stations_fit(heading.stations) && heading.legs <= 512
}

// The heading of a file, or why the file is refused there.
pub(crate) fn read_heading(bytes: &[u8]) -> Result<Heading, Refusal>
    ensures { result ≡ read_heading bytes.now }
{
    if bytes.len() < HEADING_LEN {
        return Err(Refusal::CutShort);
    }
    let [b'L', b'P', b'N', rest @ ..] = bytes else {
        return Err(Refusal::WrongMark);
    };
    let [0, 1, stations, high, low, ..] = rest else {
        return Err(Refusal::WrongVersion);
    };
    let heading = Heading {
        stations: *stations,
        legs: u16::from_be_bytes([*high, *low]),
    };
    if counts_fit(heading) {
        Ok(heading)
    } else {
        Err(Refusal::CountOutOfRange)
    }
}
