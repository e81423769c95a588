// The records of a map, one after the other.
ghost use Rattle.std.specs.Prelude.{◌≡◌, ◌-◌, length};
ghost use Rattle.std.specs.List.{slice_get};
ghost use Rattle.std.specs.Option.{option_map};
ghost use Rattle.map_format.specs.Views.{seen};
ghost use Rattle.map_file.specs.Steps.{left_in, Stepped};
ghost use Rattle.std.specs.Iterator.{at_most};

use crate::read::record_at;
use map_format::record::Placed;

/// What is left to walk: the records of the bytes from an offset on, each of the kind that its kind byte says, up to the
/// end or to what is no record.
#[derive(Clone, Copy, Debug)]
pub struct Records<'a> {
    pub(crate) bytes: &'a [u8],
    pub(crate) at: usize,
}

impl<'a> Records<'a> {
    // The records of a file from an offset on.
    pub(crate) fn new(bytes: &'a [u8], at: usize) -> Records<'a>
        ensures bytes { result.bytes ≡ bytes.entry }
        ensures at { result.at ≡ at }
    {
        Records { bytes, at }
    }
}

impl<'a> Iterator for Records<'a> {
    type Item = Placed<'a>;

    ghost next_gives = { Stepped };

    ghost remaining = { λ s. at_most (length s.bytes.now - s.at) };

    fn next(&mut self) -> Option<Placed<'a>> {
        let place = self.at;
        let (record, end) = record_at(self.bytes, place)?;
        self.at = end;
        Some(Placed { place, record })
    }
}

// The record with this number among those that are left.
pub(crate) fn nth_record<'a>(records: Records<'a>, number: usize) -> Option<Placed<'a>>
    ensures { option_map seen result ≡ slice_get (left_in records.entry) number }
{
    let mut left = records;
    left.nth(number)
}
