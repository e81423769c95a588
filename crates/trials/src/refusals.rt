// The numbers of the refusals, as docs/REFUSALS.md lists them.
use network::refusal::Refusal;

const NUMBERS: [(Refusal, u8); 18] = [
    (Refusal::CutShort, 1),
    (Refusal::WrongMark, 2),
    (Refusal::WrongVersion, 3),
    (Refusal::CountOutOfRange, 4),
    (Refusal::WrongKind, 5),
    (Refusal::FieldOutOfRange, 6),
    (Refusal::WrongMatrixSize, 7),
    (Refusal::WrongMatrixEntry, 8),
    (Refusal::OverlayOutOfRange, 9),
    (Refusal::NoSuchStation, 10),
    (Refusal::SameStation, 11),
    (Refusal::ShortWorkspace, 12),
    (Refusal::ListFull, 13),
    (Refusal::NoFurtherRoute, 14),
    (Refusal::NotGiven, 15),
    (Refusal::ShortBuffer, 16),
    (Refusal::TotalTooWide, 17),
    (Refusal::UnknownLetter, 18),
];

#[test]
fn numbers(rt: HostRuntime) {
    for (refusal, number) in NUMBERS {
        assert_eq!(rt; refusal.number(), number);
    }
}
