// The refusals, with their numbers and reasons.
ghost use Rattle.std.specs.Prelude.{◌≡◌, Some};
ghost use Rattle.network.specs.Refusals.{number_of, reason_of};

use std::fmt;

/// The eighteen refusals. docs/REFUSALS.md says who brings each on, and when.
#[derive(Clone, Copy, Debug, PartialEq, Eq)]
pub enum Refusal {
    CutShort = 1,
    WrongMark = 2,
    WrongVersion = 3,
    CountOutOfRange = 4,
    WrongKind = 5,
    FieldOutOfRange = 6,
    WrongMatrixSize = 7,
    WrongMatrixEntry = 8,
    OverlayOutOfRange = 9,
    NoSuchStation = 10,
    SameStation = 11,
    ShortWorkspace = 12,
    ListFull = 13,
    NoFurtherRoute = 14,
    NotGiven = 15,
    ShortBuffer = 16,
    TotalTooWide = 17,
    UnknownLetter = 18,
}

impl Refusal {
    /// The number that slips, programs and the gate's host show.
    pub fn number(self) -> u8
        ensures { result ≡ number_of self }
    {
        self as u8
    }

    /// The reason in a few words.
    pub fn reason(self) -> &'static str
        ensures { result.now ≡ reason_of self }
    {
        match self {
            Refusal::CutShort => "the file ends too early",
            Refusal::WrongMark => "the mark is not LPN",
            Refusal::WrongVersion => "the version is not 1",
            Refusal::CountOutOfRange => "a count is out of range",
            Refusal::WrongKind => "another kind of record is due",
            Refusal::FieldOutOfRange => "a field is out of range",
            Refusal::WrongMatrixSize => "the bus matrix has the wrong size",
            Refusal::WrongMatrixEntry => "an entry of the bus matrix is out of range",
            Refusal::OverlayOutOfRange => "a leg number or a ceiling is out of range",
            Refusal::NoSuchStation => "start or goal is no station",
            Refusal::SameStation => "start and goal are the same",
            Refusal::ShortWorkspace => "the workspace is too short",
            Refusal::ListFull => "sixteen ways are given",
            Refusal::NoFurtherRoute => "there is no further way",
            Refusal::NotGiven => "no such way or leg was given",
            Refusal::ShortBuffer => "the buffer is too short",
            Refusal::TotalTooWide => "a total is wider than its column",
            Refusal::UnknownLetter => "the letter is unknown",
        }
    }
}

impl fmt::Display for Refusal {
    ghost output = { λ why. Some (reason_of why) };

    fn fmt<W: fmt::Write>(&self, f: &mut fmt::Formatter<W>) -> fmt::Result {
        f.write_str(self.reason())
    }
}
