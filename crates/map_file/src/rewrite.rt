// The records of a file, written again.
ghost use Rattle.std.specs.Prelude.{◌≡◌, ◌+◌, ◌≤◌, ◌++◌, length, None};
ghost use Rattle.map_format.specs.Walking.{records_from, encode_records};
ghost use Rattle.map_format.specs.Format.{encode_heading};
ghost use Rattle.map_format.specs.Laws.{RoundTrip};
ghost use Rattle.map_file.specs.Steps.{left_in};
ghost use Rattle.map_file.specs.Writing.{spliced, write_answer, buffer_after};

use crate::heading::HEADING_LEN;
use crate::walk::Records;
use crate::write::{put_heading, put_record};
use map_format::heading::Heading;
use map_format::record::Placed;
use network::refusal::Refusal;

// The offset behind the last of these records.
fn end_of(records: Records<'_>) -> usize
    ensures { result ≡ records.entry.at + length (encode_records (left_in records.entry)) }
{
    let mut left = records;
    // its place and size, added in a for loop, would have to be shown to fit
    while left.next().is_some() {}
    left.at
}

// Puts records into a buffer, each at its place.
fn put_records(records: Records<'_>, out: &mut [u8])
    requires { records.at + length (encode_records (left_in records)) ≤ length out.old }
    ensures { out.new ≡ spliced out.old records.entry.at (encode_records (left_in records.entry)) }
{
    for Placed { place, record } in records {
        put_record(record, out, place);
    }
}

// Writes a heading and the records of a file into the front of a buffer.
pub(crate) fn rewrite_file(bytes: &[u8], heading: Heading, out: &mut [u8]) -> Result<usize, Refusal>
    ensures law { RoundTrip }
    ensures answer { result ≡ write_answer None (encode_heading heading ++ encode_records (records_from bytes.now 8)) out.old }
    ensures after { out.new ≡ buffer_after result (encode_heading heading ++ encode_records (records_from bytes.now 8)) out.old }
{
    let records = Records::new(bytes, HEADING_LEN);
    let size = end_of(records);
    if out.len() < size {
        return Err(Refusal::ShortBuffer);
    }
    put_heading(heading, out);
    put_records(records, out);
    Ok(size)
}
