// A heading or one record, written into the front of a buffer.
ghost use Rattle.std.specs.Prelude.{◌≡◌, ◌+◌, ◌<◌, ◌≤◌, length, None};
ghost use Rattle.map_format.specs.Format.{station, leg as leg_item, notice, encode, encode_heading, encode_text, size};
ghost use Rattle.map_format.specs.Views.{said};
ghost use Rattle.map_file.specs.Writing.{heading_refusal, record_refusal, leg_refusal, write_answer, buffer_after, spliced, Short};

use crate::fields::fits;
use crate::heading::{HEADING_LEN, counts_fit};
use crate::read::LEG_LEN;
use map_format::heading::Heading;
use map_format::kind::Kind;
use map_format::record::Record;
use network::leg::Leg;
use network::network::stations_fit;
use network::refusal::Refusal;

// Puts these bytes into a buffer from an offset on.
fn put(bytes: &[u8], out: &mut [u8], at: usize)
    requires { at + length bytes.now ≤ length out.old }
    ensures { out.new ≡ spliced out.old at bytes.now }
{
    let end = at + bytes.len();
    out[at..end].copy_from_slice(bytes);
}

pub(crate) fn put_heading(heading: Heading, out: &mut [u8])
    requires { 8 ≤ length out.old }
    ensures { out.new ≡ spliced out.old 0 (encode_heading heading) }
{
    let [high, low] = heading.legs.to_be_bytes();
    let bytes = [b'L', b'P', b'N', 0, 1, heading.stations, high, low];
    put(&bytes, out, 0);
}

fn put_leg(leg: Leg, out: &mut [u8], at: usize)
    requires { at + 7 ≤ length out.old }
    ensures { out.new ≡ spliced out.old at (encode (leg_item leg)) }
{
    let [high, low] = leg.seconds.to_be_bytes();
    let bytes = [
        u8::from(Kind::Leg),
        leg.from,
        leg.to,
        high,
        low,
        leg.points,
        leg.grade,
    ];
    put(&bytes, out, at);
}

fn put_text(kind: Kind, text: &[u8], out: &mut [u8], at: usize)
    requires fits { at + 2 + length text.now ≤ length out.old }
    requires short { length text.now < 256 }
    ensures { out.new ≡ spliced out.old at (encode_text kind text.now) }
{
    // the text is short, so its length is cast
    let front = [u8::from(kind), text.len() as u8];
    put(&front, out, at);
    put(text, out, at + 2);
}

// Puts a record into a buffer from an offset on.
pub(crate) fn put_record(what: Record<'_>, out: &mut [u8], at: usize)
    requires fits { at + size (said what) ≤ length out.old }
    requires short { Short (said what) }
    ensures { out.new ≡ spliced out.old at (encode (said what.entry)) }
{
    match what {
        Record::Station(name) => put_text(Kind::Station, name, out, at),
        Record::Leg(leg) => put_leg(leg, out, at),
        Record::Notice(text) => put_text(Kind::Notice, text, out, at),
    }
}

// How many bytes a record takes.
fn size_of(what: Record<'_>) -> usize
    requires { Short (said what) }
    ensures { result ≡ size (said what.entry) }
{
    match what {
        Record::Station(text) | Record::Notice(text) => 2 + text.len(),
        Record::Leg(_) => LEG_LEN,
    }
}

// Writes a record of a map of so many stations, where its fields fit and there is room.
fn write_record(what: Record<'_>, stations: u8, out: &mut [u8]) -> Result<usize, Refusal>
    ensures answer { result ≡ write_answer (record_refusal stations (said what.entry)) (encode (said what.entry)) out.old }
    ensures after { out.new ≡ buffer_after result (encode (said what.entry)) out.old }
{
    if !fits(what, stations) {
        return Err(Refusal::FieldOutOfRange);
    }
    let size = size_of(what);
    if out.len() < size {
        return Err(Refusal::ShortBuffer);
    }
    put_record(what, out, 0);
    Ok(size)
}

/// Writes a heading whose counts are in range.
pub fn write_heading(heading: Heading, out: &mut [u8]) -> Result<usize, Refusal>
    ensures answer { result ≡ write_answer (heading_refusal heading) (encode_heading heading) out.old }
    ensures after { out.new ≡ buffer_after result (encode_heading heading) out.old }
{
    if !counts_fit(heading) {
        return Err(Refusal::CountOutOfRange);
    }
    if out.len() < HEADING_LEN {
        return Err(Refusal::ShortBuffer);
    }
    put_heading(heading, out);
    Ok(HEADING_LEN)
}

/// Writes a station by its name.
pub fn write_station(name: &[u8], out: &mut [u8]) -> Result<usize, Refusal>
    ensures answer { result ≡ write_answer (record_refusal 0 (station name.now)) (encode (station name.now)) out.old }
    ensures after { out.new ≡ buffer_after result (encode (station name.now)) out.old }
{
    // a name fits or not for any count of stations
    write_record(Record::Station(name), 0, out)
}

/// Writes a leg of a map of so many stations.
pub fn write_leg(leg: Leg, stations: u8, out: &mut [u8]) -> Result<usize, Refusal>
    ensures answer { result ≡ write_answer (leg_refusal stations leg) (encode (leg_item leg)) out.old }
    ensures after { out.new ≡ buffer_after result (encode (leg_item leg)) out.old }
{
    if !stations_fit(stations) {
        return Err(Refusal::CountOutOfRange);
    }
    write_record(Record::Leg(leg), stations, out)
}

/// Writes a notice by its text.
pub fn write_notice(text: &[u8], out: &mut [u8]) -> Result<usize, Refusal>
    ensures answer { result ≡ write_answer (record_refusal 0 (notice text.now)) (encode (notice text.now)) out.old }
    ensures after { out.new ≡ buffer_after result (encode (notice text.now)) out.old }
{
    // so does a notice
    write_record(Record::Notice(text), 0, out)
}
