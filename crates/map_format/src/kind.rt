// The three kinds of record, and the byte that each begins with.
ghost use Rattle.std.specs.Prelude.{◌≡◌, ok_or};
ghost use Rattle.network.specs.declared.refusal.Refusal.TheVariants.{WrongKind};

use network::refusal::Refusal;

/// The kind of a record.
#[derive(Clone, Copy, Debug, PartialEq, Eq)]
pub enum Kind {
    Station,
    Leg,
    Notice,
}

/// The byte that a record of this kind begins with.
impl From<Kind> for u8 {
    ghost use Rattle.map_format.specs.Format.{mark_of};

    ghost from_gives = { λ kind mark. mark ≡ mark_of kind };

    fn from(kind: Kind) -> u8 {
        match kind {
            Kind::Station => b'S',
            Kind::Leg => b'L',
            Kind::Notice => b'N',
        }
    }
}

/// The kind of a record that begins with this byte.
impl TryFrom<u8> for Kind {
    type Error = Refusal;

    ghost use Rattle.map_format.specs.Format.{kind_of};

    ghost try_from_gives = { λ mark kind. kind ≡ ok_or (kind_of mark) WrongKind };

    fn try_from(mark: u8) -> Result<Kind, Refusal> {
        match mark {
            b'S' => Ok(Kind::Station),
            b'L' => Ok(Kind::Leg),
            b'N' => Ok(Kind::Notice),
            _ => Err(Refusal::WrongKind),
        }
    }
}
