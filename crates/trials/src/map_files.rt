// Files and records at the edges of every rule. What is expected comes from docs/MAP-FORMAT.md.
use map_file::map::Map;
use map_file::write::{write_heading, write_leg, write_notice, write_station};
use map_format::fault::Fault;
use map_format::heading::Heading;
use map_format::record::{Placed, Record};
use network::leg::Leg;
use network::refusal::Refusal;
use network::refusal::Refusal::{
    CountOutOfRange, CutShort, FieldOutOfRange, ShortBuffer, WrongKind, WrongMark, WrongVersion,
};
use std::alloc::{AllocError, Global};
use std::iter;
use std::process::Abort;
use std::test::Fail;

// Two stations, a leg, and a notice: records at 8, 11, 14 and 21.
const SMALL: &[u8; 25] = b"LPN\x00\x01\x02\x00\x01S\x01AS\x01BL\x00\x01\x01\x2C\x02\x00N\x02hi";

// Whether the file is accepted, and else why not and at which place.
fn verdict(file: &[u8]) -> Result<(), (Refusal, usize)> {
    Map::accept(file)
        .map(|_| ())
        .map_err(|Fault { why, place }| (why, place))
}

// Every front of the file is cut short where its last record begins, but for those that end behind a leg or a notice.
#[test]
fn fronts(rt: HostRuntime) {
    let file = *SMALL;
    for n in 0..=25 {
        let expected = match n {
            0..=7 => Err((CutShort, 0)),
            8..=10 => Err((CutShort, 8)),
            11..=13 => Err((CutShort, 11)),
            14..=20 => Err((CutShort, 14)),
            21 | 25 => Ok(()),
            _ => Err((CutShort, 21)),
        };
        assert_eq!(rt; verdict(&file[..n]), expected);
    }
}

// Where two neighbouring bytes of the file are changed, to which, and what becomes of the file.
const CHANGED: [(usize, [u8; 2], Result<(), (Refusal, usize)>); 37] = [
    // the mark, the version, the counts
    (0, *b"MP", Err((WrongMark, 0))),
    (1, *b"PM", Err((WrongMark, 0))),
    (2, [b'N', 1], Err((WrongVersion, 0))),
    (3, [0, 2], Err((WrongVersion, 0))),
    (4, [1, 1], Err((CountOutOfRange, 0))),
    (4, [1, 2], Ok(())),
    (4, [1, 65], Err((CountOutOfRange, 0))),
    (6, [2, 0], Err((WrongKind, 21))),
    (6, [2, 1], Err((CountOutOfRange, 0))),
    // both a wrong version and a wrong count, and both a wrong mark and a wrong version
    (4, [2, 1], Err((WrongVersion, 0))),
    (2, *b"MM", Err((WrongMark, 0))),
    // another kind where a station, a leg or a notice is due
    (8, *b"L\x01", Err((WrongKind, 8))),
    (11, *b"N\x01", Err((WrongKind, 11))),
    (14, *b"S\x00", Err((WrongKind, 14))),
    (21, *b"L\x02", Err((WrongKind, 21))),
    (21, *b"S\x02", Err((WrongKind, 21))),
    // the bytes of a name and of a notice
    (9, *b"\x01\x1F", Err((FieldOutOfRange, 8))),
    (9, *b"\x01\x20", Ok(())),
    (9, *b"\x01\x7E", Ok(())),
    (9, *b"\x01\x7F", Err((FieldOutOfRange, 8))),
    (23, *b"h\x1F", Err((FieldOutOfRange, 21))),
    (23, *b"\x7Fi", Err((FieldOutOfRange, 21))),
    // a name of no byte, and one that is both too long and cut short
    (9, *b"\x00A", Err((FieldOutOfRange, 8))),
    (9, *b"\x15A", Err((CutShort, 8))),
    // a notice that is both too long and cut short
    (22, *b"\x3Dh", Err((CutShort, 21))),
    // a leg's ends: to the same station, from or to no station
    (15, [0, 0], Err((FieldOutOfRange, 14))),
    (15, [1, 1], Err((FieldOutOfRange, 14))),
    (15, [1, 0], Ok(())),
    (15, [0, 2], Err((FieldOutOfRange, 14))),
    (15, [2, 1], Err((FieldOutOfRange, 14))),
    // its seconds
    (17, [0x00, 0x00], Err((FieldOutOfRange, 14))),
    (17, [0x00, 0x01], Ok(())),
    (17, [0xA8, 0xC0], Ok(())),
    (17, [0xA8, 0xC1], Err((FieldOutOfRange, 14))),
    // its points and its grade
    (19, [99, 3], Ok(())),
    (19, [100, 3], Err((FieldOutOfRange, 14))),
    (19, [99, 4], Err((FieldOutOfRange, 14))),
];

#[test]
fn changed(rt: HostRuntime) {
    for (at, [first, second], expected) in CHANGED {
        let mut file = *SMALL;
        assert!(rt; at < 24);
        file[at] = first;
        file[at + 1] = second;
        assert_eq!(rt; verdict(&file), expected);
    }
}

// A record of this kind with a text of so many letters.
fn push_text(file: &mut Vec<u8>, kind: u8, letter: u8, len: u8) -> Result<(), AllocError> {
    file.extend_from_slice(&[kind, len])?;
    file.extend(iter::repeat_n(letter, usize::from(len)))
}

// A file of so many stations, all with a name of so many bytes, so many legs, and a notice of so many bytes.
fn built(
    heap: Global,
    stations: u8,
    legs: u16,
    name: u8,
    notice: u8,
) -> Result<Vec<u8>, AllocError> {
    let mut file = Vec::new(heap);
    file.extend_from_slice(b"LPN\x00\x01")?;
    file.push(stations)?;
    file.extend_from_slice(&legs.to_be_bytes())?;
    for _ in 0..stations {
        push_text(&mut file, b'S', b'a', name)?;
    }
    for _ in 0..legs {
        file.extend_from_slice(b"L\x00\x01\x01\x2C\x02\x00")?;
    }
    push_text(&mut file, b'N', b'z', notice)?;
    Ok(file)
}

// Counts and lengths at both sides of their bounds.
#[test]
fn sizes(rt: HostRuntime) -> Result<(), Fail> {
    let cases = [
        (1, 0, 1, 0, Err((CountOutOfRange, 0))),
        (2, 0, 1, 0, Ok(())),
        (64, 0, 1, 0, Ok(())),
        (65, 0, 1, 0, Err((CountOutOfRange, 0))),
        (2, 512, 1, 0, Ok(())),
        (2, 513, 1, 0, Err((CountOutOfRange, 0))),
        (2, 0, 0, 0, Err((FieldOutOfRange, 8))),
        (2, 0, 20, 0, Ok(())),
        (2, 0, 21, 0, Err((FieldOutOfRange, 8))),
        (2, 0, 1, 60, Ok(())),
        (2, 0, 1, 61, Err((FieldOutOfRange, 14))),
        (64, 512, 20, 60, Ok(())),
    ];
    for (stations, legs, name, notice, expected) in cases {
        let file = built(rt.alloc(), stations, legs, name, notice)?;
        assert_eq!(rt; verdict(file.as_slice()), expected);
    }
    assert_eq!(rt; verdict(b"LPN\x00\x01\x02\x00\x00S\x01AS\x01B"), Ok(()));
    Ok(())
}

const LEG: Leg = Leg {
    from: 0,
    to: 1,
    seconds: 300,
    points: 2,
    grade: 0,
};

// Each record with its place, one after the other and by number; past the end nothing.
#[test]
fn walked(rt: HostRuntime) -> Result<(), Fail> {
    let file = *SMALL;
    let map = Map::accept(&file)?;
    assert_eq!(rt;
        map.heading(),
        Heading {
            stations: 2,
            legs: 1,
        }
    );
    let expected = [
        (8, Record::Station(b"A")),
        (11, Record::Station(b"B")),
        (14, Record::Leg(LEG)),
        (21, Record::Notice(b"hi")),
    ];
    let mut records = map.records();
    for (number, (place, record)) in expected.into_iter().enumerate() {
        let placed = Some(Placed { place, record });
        assert_eq!(rt; records.next(), placed);
        assert_eq!(rt; map.record(number), placed);
    }
    assert_eq!(rt; records.next(), None);
    assert_eq!(rt; map.record(4), None);
    assert_eq!(rt; map.leg(0), Some(LEG));
    assert_eq!(rt; map.leg(1), None);
    assert_eq!(rt; map.notices().next(), map.record(3));
    Ok(())
}

// Written into a buffer of each length up to 32: these bytes in front and the rest as it was, or a short buffer and nothing
// written.
fn check_written<W: Fn(&mut [u8]) -> Result<usize, Refusal>>(
    rt: &impl Abort,
    bytes: &[u8],
    write: W,
)
    requires { W.IsAlwaysCallable write }
{
    assert!(rt; bytes.len() <= 32);
    for room in 0..=32 {
        let mut buffer = [0xEE; 32];
        let got = write(&mut buffer[..room]);
        let mut expected = [0xEE; 32];
        if room < bytes.len() {
            assert_eq!(rt; got, Err(ShortBuffer));
        } else {
            expected[..bytes.len()].copy_from_slice(bytes);
            assert_eq!(rt; got, Ok(bytes.len()));
        }
        assert_eq!(rt; buffer, expected);
    }
}

#[test]
fn writes(rt: HostRuntime) -> Result<(), Fail> {
    let heading = Heading {
        stations: 64,
        legs: 258,
    };
    check_written(
        &rt,
        b"LPN\x00\x01\x40\x01\x02",
        |buffer| write_heading(heading, buffer),
    );
    check_written(&rt, b"S\x01A", |buffer| write_station(b"A", buffer));
    check_written(
        &rt,
        b"L\x00\x01\x01\x2C\x02\x00",
        |buffer| write_leg(LEG, 2, buffer),
    );
    check_written(&rt, b"N\x00", |buffer| write_notice(b"", buffer));
    let file = *SMALL;
    let map = Map::accept(&file)?;
    check_written(&rt, &file, |buffer| map.rewrite(buffer));
    Ok(())
}

// What is wrong with a value is told before a short buffer.
#[test]
fn refused_headings(rt: HostRuntime) {
    for (stations, legs, why) in [
        (1, 0, CountOutOfRange),
        (65, 0, CountOutOfRange),
        (2, 513, CountOutOfRange),
        (2, 512, ShortBuffer),
        (64, 0, ShortBuffer),
    ] {
        assert_eq!(rt;
            write_heading(Heading { stations, legs }, &mut []),
            Err(why)
        );
    }
}

#[test]
fn refused_stations(rt: HostRuntime) {
    let text = [b'z'; 61];
    for (len, why) in [
        (0, FieldOutOfRange),
        (1, ShortBuffer),
        (20, ShortBuffer),
        (21, FieldOutOfRange),
    ] {
        assert!(rt; len <= 61);
        assert_eq!(rt; write_station(&text[..len], &mut []), Err(why));
    }
}

#[test]
fn refused_notices(rt: HostRuntime) {
    let text = [b'z'; 61];
    for (len, why) in [(0, ShortBuffer), (60, ShortBuffer), (61, FieldOutOfRange)] {
        assert!(rt; len <= 61);
        assert_eq!(rt; write_notice(&text[..len], &mut []), Err(why));
    }
    assert_eq!(rt; write_notice(b"tab\x09", &mut []), Err(FieldOutOfRange));
}

// The station count is tested before the leg's fields.
#[test]
fn refused_legs(rt: HostRuntime) {
    for (to, stations, why) in [
        (0, 1, CountOutOfRange),
        (0, 65, CountOutOfRange),
        (0, 2, FieldOutOfRange),
        (1, 2, ShortBuffer),
        (1, 64, ShortBuffer),
    ] {
        assert_eq!(rt; write_leg(Leg { to, ..LEG }, stations, &mut []), Err(why));
    }
}
