// The records of a map file.
use network::leg::Leg;

/// What a record says. A name or a text is the part of the file that holds it.
#[derive(Clone, Copy, Debug, PartialEq, Eq)]
pub enum Record<'a> {
    Station(&'a [u8]),
    Leg(Leg),
    Notice(&'a [u8]),
}

/// A record with its place, the offset of its kind byte in the file.
#[derive(Clone, Copy, Debug, PartialEq, Eq)]
pub struct Placed<'a> {
    pub place: usize,
    pub record: Record<'a>,
}
