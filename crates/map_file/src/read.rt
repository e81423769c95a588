// One record, read where it stands.
ghost use Rattle.std.specs.Prelude.{◌≡◌, ◌+◌, ◌<◌, ◌≤◌, length, IfSome, IfOk};
ghost use Rattle.map_format.specs.Format.{leg_at};
ghost use Rattle.map_format.specs.Reading.{whole_text, whole_record, due_record};
ghost use Rattle.map_format.specs.Walking.{record_at};
ghost use Rattle.map_format.specs.Views.{said};
ghost use Rattle.map_file.specs.Steps.{Begins};
ghost use Rattle.map_file.specs.Views.{text_told, record_told, due_told};
ghost use Rattle.map_file.specs.Writing.{Short};

use crate::fields::fits;
use map_format::kind::Kind;
use map_format::record::Record;
use network::leg::Leg;
use network::refusal::Refusal;

// Each function here takes a file and an offset, as its definition does: `Records` holds the two between records. That a
// text is short stands in each contract: `Record` is made by callers too, and a ghost field would ask it of them.

// How many bytes a leg record takes.
pub(crate) const LEG_LEN: usize = 7;

// The leg record at an offset.
fn leg_at(bytes: &[u8], at: usize) -> Leg
    requires { at + 7 ≤ length bytes.now }
    ensures { result ≡ leg_at bytes.now at }
{
    Leg {
        from: bytes[at + 1],
        to: bytes[at + 2],
        seconds: u16::from_be_bytes([bytes[at + 3], bytes[at + 4]]),
        points: bytes[at + 5],
        grade: bytes[at + 6],
    }
}

// The text after the kind byte and the length, and the offset behind it; nothing where the file ends inside.
fn text_at(bytes: &[u8], at: usize) -> Option<(&[u8], usize)>
    requires { at < length bytes.now }
    ensures value { text_told result ≡ whole_text bytes.now at }
    ensures short { IfSome result (λ p. length p.0.now < 256) }
{
    let len = usize::from(*bytes.get(at + 1)?);
    let end = at + 2 + len;
    Some((bytes.get(at + 2..end)?, end))
}

// The record of this kind at an offset, and the offset behind it; nothing where the file ends inside.
pub(crate) fn whole_record(bytes: &[u8], at: usize, kind: Kind) -> Option<(Record<'_>, usize)>
    requires { at < length bytes.now }
    ensures value { record_told result ≡ whole_record kind bytes.now at }
    ensures short { IfSome result (λ p. Short (said p.0)) }
{
    match kind {
        Kind::Station => {
            let (name, end) = text_at(bytes, at)?;
            Some((Record::Station(name), end))
        }
        Kind::Leg => {
            if bytes.len() - at < LEG_LEN {
                return None;
            }
            Some((Record::Leg(leg_at(bytes, at)), at + LEG_LEN))
        }
        Kind::Notice => {
            let (text, end) = text_at(bytes, at)?;
            Some((Record::Notice(text), end))
        }
    }
}

// The record of this kind that is due at an offset, and the offset behind it.
pub(crate) fn due_record(
    bytes: &[u8],
    at: usize,
    kind: Kind,
    stations: u8,
) -> Result<(Record<'_>, usize), Refusal>
    ensures value { due_told result ≡ due_record stations kind bytes.now at }
    ensures within { IfOk result (λ p. (at < p.1) × (p.1 ≤ length bytes.now)) }
{
    let mark = *bytes.get(at).ok_or(Refusal::CutShort)?;
    if mark != u8::from(kind) {
        return Err(Refusal::WrongKind);
    }
    let (what, end) = whole_record(bytes, at, kind).ok_or(Refusal::CutShort)?;
    if fits(what, stations) {
        Ok((what, end))
    } else {
        Err(Refusal::FieldOutOfRange)
    }
}

// The record at an offset, of the kind that its kind byte says, and the offset behind it.
fn any_record(bytes: &[u8], at: usize) -> Option<(Record<'_>, usize)>
    ensures value { record_told result ≡ record_at bytes.now at }
    ensures short { IfSome result (λ p. Short (said p.0)) }
{
    let kind = Kind::try_from(*bytes.get(at)?).ok()?;
    whole_record(bytes, at, kind)
}

// The same, as the first of the records from there on. A function apart, so that this is proved once, of whatever comes,
// and not at each return.
pub(crate) fn record_at(bytes: &[u8], at: usize) -> Option<(Record<'_>, usize)>
    ensures value { record_told result ≡ record_at bytes.now at }
    ensures begins { Begins bytes.now at (record_told result) }
    ensures short { IfSome result (λ p. Short (said p.0)) }
{
    any_record(bytes, at)
}
