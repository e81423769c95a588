// An accepted map file.
ghost use Rattle.std.specs.Prelude.{◌≡◌, IfOk, None};
ghost use Rattle.std.specs.List.{slice_get};
ghost use Rattle.std.specs.Option.{option_map};
ghost use Rattle.map_format.specs.Laws.{RoundTrip};
ghost use Rattle.map_format.specs.Reading.{verdict};
ghost use Rattle.map_format.specs.Views.{seen};
ghost use Rattle.map_file.specs.Networks.{ShowsRecords};
ghost use Rattle.map_file.specs.Steps.{left_in};
ghost use Rattle.map_file.specs.Maps.{told, Indexed, encode_map, records_of, notices_of, leg_number};
ghost use Rattle.map_file.specs.Writing.{write_answer, buffer_after};

use crate::heading::{HEADING_LEN, read_heading};
use crate::read::{LEG_LEN, record_at};
use crate::rewrite::rewrite_file;
use crate::walk::{Records, nth_record};
use map_format::fault::Fault;
use map_format::heading::Heading;
use map_format::kind::Kind;
use map_format::record::{Placed, Record};
use network::leg::Leg;
use network::refusal::Refusal;

/// The bytes of a file, with where its legs and its notices begin. Nothing here is relied on: each call tests what it
/// reads.
#[derive(Clone, Copy, Debug)]
pub struct Map<'a> {
    pub(crate) bytes: &'a [u8],
    pub(crate) heading: Heading,
    pub(crate) legs_at: usize,
    pub(crate) notices_at: usize,
}

impl<'a> Map<'a> {
    /// The map in these bytes, or why and where they are refused.
    pub fn accept(bytes: &'a [u8]) -> Result<Map<'a>, Fault>
        ensures verdict { told result ≡ verdict bytes.now }
        ensures file { IfOk result (λ m. m.bytes.now ≡ bytes.now) }
        ensures indexed { IfOk result Indexed }
        ensures network { IfOk result ShowsRecords }
        ensures same { IfOk result (λ m. encode_map m ≡ bytes.now) }
    {
        let heading = read_heading(bytes).map_err(|why| Fault { why, place: 0 })?;
        let Heading { stations, legs } = heading;
        let mut records = Records::new(bytes, HEADING_LEN);
        records.pass_run(Kind::Station, stations, u16::from(stations))?;
        let legs_at = records.at;
        records.pass_run(Kind::Leg, stations, legs)?;
        let notices_at = records.at;
        records.pass_notices(stations)?;
        Ok(Map {
            bytes,
            heading,
            legs_at,
            notices_at,
        })
    }

    /// How many stations and legs there are.
    pub fn heading(&self) -> Heading
        ensures { result ≡ self.now.heading }
    {
        self.heading
    }

    /// All records in file order: stations, legs and notices.
    pub fn records(&self) -> Records<'a>
        ensures { left_in result ≡ records_of self.now }
    {
        Records::new(self.bytes, HEADING_LEN)
    }

    /// The notices alone.
    pub fn notices(&self) -> Records<'a>
        ensures { left_in result ≡ notices_of self.now }
    {
        Records::new(self.bytes, self.notices_at)
    }

    /// A record by its number in file order; nothing past the last.
    pub fn record(&self, number: usize) -> Option<Placed<'a>>
        ensures { option_map seen result ≡ slice_get (records_of self.now) number }
    {
        nth_record(self.records(), number)
    }

    /// A leg by its number, read in place; nothing past the last.
    pub fn leg(&self, number: u16) -> Option<Leg>
        ensures { result ≡ leg_number self.now number }
    {
        if number >= self.heading.legs {
            return None;
        }
        // legs_at may be any number here, so the sum may not fit
        let place = self.legs_at.checked_add(LEG_LEN * usize::from(number))?;
        let (Record::Leg(leg), _) = record_at(self.bytes, place)? else {
            return None;
        };
        Some(leg)
    }

    /// Writes heading and records into the front of a buffer.
    pub fn rewrite(&self, out: &mut [u8]) -> Result<usize, Refusal>
        ensures law { RoundTrip }
        ensures answer { result ≡ write_answer None (encode_map self.now) out.old }
        ensures after { out.new ≡ buffer_after result (encode_map self.now) out.old }
    {
        rewrite_file(self.bytes, self.heading, out)
    }
}
