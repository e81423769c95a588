// Networks and what lies above them. What is expected follows from the legs below by the rule of each overlay.
use bus::matrix::BusMatrix;
use map_file::map::Map;
use network::leg::Leg;
use network::network::Network;
use network::refusal::Refusal;
use network::refusal::Refusal::{OverlayOutOfRange, WrongMatrixEntry, WrongMatrixSize};
use overlay::closures::Closures;
use overlay::grade_cap::GradeCap;
use overlay::waits::Waits;
use std::array;
use std::process::Abort;
use std::test::Fail;

// Four stations and six legs; leg 1 alone has grade 1.
const MOUNTAIN: &[u8; 62] = b"LPN\x00\x01\x04\x00\x06S\x01AS\x01BS\x01CS\x01D\
L\x00\x01\x01\x2C\x02\x00L\x00\x02\x01\xF4\x00\x01L\x01\x03\x01\x90\x03\x00\
L\x02\x03\x00\xC8\x01\x00L\x01\x02\x00\x64\x00\x00L\x02\x01\x00\x64\x00\x00";

// The seconds of the first nine leg numbers, 0 where there is nothing.
fn seconds<N: Network>(net: &N) -> [u16; 9] {
    array::from_fn(|number| net.leg_at(number as u16).map_or(0, |leg| leg.seconds))
}

// The map shows its records, and nothing at and past its count.
#[test]
fn map_shows(rt: HostRuntime) -> Result<(), Fail> {
    let file = *MOUNTAIN;
    let map = Map::accept(&file)?;
    assert_eq!(rt; (map.station_count(), map.leg_count()), (4, 6));
    assert_eq!(rt; seconds(&map), [300, 500, 400, 200, 100, 100, 0, 0, 0]);
    assert_eq!(rt;
        map.leg_at(2),
        Some(Leg {
            from: 1,
            to: 3,
            seconds: 400,
            points: 3,
            grade: 0,
        })
    );
    assert_eq!(rt; map.leg_at(u16::MAX), None);
    Ok(())
}

// Marks at both sides of the last number, and past the map's count: kept, counted and read back, and altering no leg. Each
// case shuts or opens a number, and says what is read back, how many are shut, and the seconds of leg 4.
#[test]
fn marks(rt: HostRuntime) -> Result<(), Fail> {
    let file = *MOUNTAIN;
    let mut shut = Closures::new(Map::accept(&file)?);
    let refused = Err(OverlayOutOfRange);
    let cases = [
        (true, 511, Ok(true), 1, 100),
        (true, 6, Ok(true), 2, 100),
        (true, 512, refused, 2, 100),
        (false, 512, refused, 2, 100),
        (true, 4, Ok(true), 3, 0),
        (true, 4, Ok(true), 3, 0),
        (false, 4, Ok(false), 2, 100),
        (false, 5, Ok(false), 2, 100),
    ];
    for (shuts, number, held, count, leg_4) in cases {
        let answer = if shuts {
            shut.shut(number)
        } else {
            shut.open(number)
        };
        assert_eq!(rt; answer, held.map(|_| ()));
        assert_eq!(rt; shut.is_shut(number), held);
        assert_eq!(rt; shut.count(), count);
        assert_eq!(rt; seconds(&shut), [300, 500, 400, 200, leg_4, 100, 0, 0, 0]);
    }
    assert_eq!(rt;
        seconds(&shut.into_below()),
        [300, 500, 400, 200, 100, 100, 0, 0, 0]
    );
    Ok(())
}

// Every ceiling, and waits at their bounds.
#[test]
fn caps_and_waits(rt: HostRuntime) -> Result<(), Fail> {
    let file = *MOUNTAIN;
    let mut cap = GradeCap::new(Map::accept(&file)?);
    assert_eq!(rt; cap.ceiling(), 3);
    for (ceiling, answer, held, second) in [
        (0, Ok(()), 0, 0),
        (1, Ok(()), 1, 500),
        (3, Ok(()), 3, 500),
        (4, Err(OverlayOutOfRange), 3, 500),
    ] {
        assert_eq!(rt; cap.set_ceiling(ceiling), answer);
        assert_eq!(rt; cap.ceiling(), held);
        assert_eq!(rt; seconds(&cap), [300, second, 400, 200, 100, 100, 0, 0, 0]);
    }
    let mut waits = Waits::new(cap.into_below());
    for (number, wait, answer, first) in [
        (0, 42_899, Ok(()), 43_199),
        (0, 42_900, Ok(()), 43_200),
        (0, 65_535, Ok(()), 43_200),
        (0, 5, Ok(()), 305),
        (511, 7, Ok(()), 305),
        (512, 7, Err(OverlayOutOfRange), 305),
    ] {
        assert_eq!(rt; waits.set_wait(number, wait), answer);
        assert_eq!(rt; seconds(&waits), [first, 500, 400, 200, 100, 100, 0, 0, 0]);
    }
    assert_eq!(rt;
        (waits.wait(0), waits.wait(511), waits.wait(1)),
        (Ok(5), Ok(7), Ok(0))
    );
    assert_eq!(rt; waits.wait(512), Err(OverlayOutOfRange));
    Ok(())
}

// Whether the matrix is accepted, and else why not.
fn verdict(stops: u8, minutes: &[u16]) -> Result<(), Refusal> {
    BusMatrix::accept(stops, minutes)?;
    Ok(())
}

// Counts of stops and of entries at both sides of their bounds.
#[test]
fn matrix_sizes(rt: HostRuntime) {
    let minutes = [0; 530];
    let cases = [
        (0, 0, Err(WrongMatrixSize)),
        (1, 1, Err(WrongMatrixSize)),
        (2, 3, Err(WrongMatrixSize)),
        (2, 4, Ok(())),
        (2, 5, Err(WrongMatrixSize)),
        (22, 483, Err(WrongMatrixSize)),
        (22, 484, Ok(())),
        (22, 485, Err(WrongMatrixSize)),
        (23, 529, Err(WrongMatrixSize)),
    ];
    for (stops, entries, expected) in cases {
        assert!(rt; entries <= 530);
        assert_eq!(rt; verdict(stops, &minutes[..entries]), expected);
    }
}

const RIDES: [u16; 9] = [0, 10, 20, 30, 0, 0, 5, 720, 0];

// One entry of nine changed, among three stops; a wrong size is told before a wrong entry.
#[test]
fn matrix_entries(rt: HostRuntime) {
    let cases = [
        (0, 0, Ok(())),
        (0, 1, Err(WrongMatrixEntry)),
        (1, 720, Ok(())),
        (1, 721, Err(WrongMatrixEntry)),
        (4, 1, Err(WrongMatrixEntry)),
        (7, 65_535, Err(WrongMatrixEntry)),
        (8, 1, Err(WrongMatrixEntry)),
        (8, 0, Ok(())),
    ];
    for (place, entry, expected) in cases {
        let mut minutes = RIDES;
        assert!(rt; place < 9);
        minutes[place] = entry;
        assert_eq!(rt; verdict(3, &minutes), expected);
        assert_eq!(rt; verdict(2, &minutes), Err(WrongMatrixSize));
    }
}

// Row a and column b is the ride from a to b, sixty seconds a minute.
#[test]
fn matrix_shows(rt: HostRuntime) -> Result<(), Fail> {
    let rides = RIDES;
    let bus = BusMatrix::accept(3, &rides)?;
    assert_eq!(rt; (bus.station_count(), bus.leg_count()), (3, 9));
    assert_eq!(rt; seconds(&bus), [0, 600, 1200, 1800, 0, 0, 300, 43_200, 0]);
    assert_eq!(rt;
        bus.leg_at(7),
        Some(Leg {
            from: 2,
            to: 1,
            seconds: 43_200,
            points: 0,
            grade: 0,
        })
    );
    assert_eq!(rt; bus.leg_at(9), None);
    Ok(())
}

// Three overlays in two orders: leg 4 shut, ceiling 0, and a wait of 60 seconds before leg 3.
#[test]
fn three_overlays(rt: HostRuntime) -> Result<(), Fail> {
    let file = *MOUNTAIN;
    let rides = RIDES;
    check_orders(
        &rt,
        Map::accept(&file)?,
        [300, 0, 400, 260, 0, 100, 0, 0, 0],
    )?;
    check_orders(
        &rt,
        BusMatrix::accept(3, &rides)?,
        [0, 600, 1200, 1860, 0, 0, 300, 43_200, 0],
    )
}

fn check_orders<N: Network + Copy>(
    rt: &impl Abort,
    net: N,
    expected: [u16; 9],
) -> Result<(), Fail> {
    assert_eq!(rt; seconds(&on_top(net)?), expected);
    assert_eq!(rt; seconds(&below(net)?), expected);
    Ok(())
}

// Closures on top, waits at the bottom.
fn on_top<N: Network + Drop>(net: N) -> Result<Closures<GradeCap<Waits<N>>>, Refusal> {
    let mut waits = Waits::new(net);
    waits.set_wait(3, 60)?;
    let mut cap = GradeCap::new(waits);
    cap.set_ceiling(0)?;
    let mut shut = Closures::new(cap);
    shut.shut(4)?;
    Ok(shut)
}

// Closures at the bottom, waits on top.
fn below<N: Network + Drop>(net: N) -> Result<Waits<GradeCap<Closures<N>>>, Refusal> {
    let mut shut = Closures::new(net);
    shut.shut(4)?;
    let mut cap = GradeCap::new(shut);
    cap.set_ceiling(0)?;
    let mut waits = Waits::new(cap);
    waits.set_wait(3, 60)?;
    Ok(waits)
}

// Five overlays: leg 4 shut below and leg 0 above, waits of 60 and 20 seconds before leg 3, and ceiling 0.
#[test]
fn five_overlays(rt: HostRuntime) -> Result<(), Fail> {
    let file = *MOUNTAIN;
    let mut shut = Closures::new(below(Map::accept(&file)?)?);
    shut.shut(0)?;
    let mut pile = Waits::new(shut);
    pile.set_wait(3, 20)?;
    assert_eq!(rt; seconds(&pile), [0, 0, 400, 280, 0, 100, 0, 0, 0]);
    assert_eq!(rt; (pile.station_count(), pile.leg_count()), (4, 6));
    Ok(())
}
