// Why a file is refused, and where.
ghost use Rattle.std.specs.Prelude.{◌≡◌};

use network::refusal::Refusal;

/// The place is the offset of the record refused or due, 0 for the heading.
#[derive(Clone, Copy, Debug, PartialEq, Eq)]
pub struct Fault {
    pub why: Refusal,
    pub place: usize,
}

/// The refusal without its place.
impl From<Fault> for Refusal {
    ghost from_gives = { λ fault why. why ≡ fault.why };

    fn from(fault: Fault) -> Refusal {
        fault.why
    }
}
