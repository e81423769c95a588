// The largest networks: 64 stations in a ring, so that routes of 63 legs are the least, and the highest numbers.
use crate::counted::Counted;
use crate::question::Question;
use crate::table::{NO_LEG, Table};
use cost::model::CostModel;
use cost::seconds::Seconds;
use network::leg::Leg;
use network::refusal::Refusal;
use search_types::entry::Entry;
use search_types::leg_list::LegList;
use std::alloc::Global;
use std::array;
use std::process::Abort;
use std::test::Fail;

// Leg i goes from station i to the next, behind 63 comes 0, and takes a second. 64 + i goes two stations on in three
// seconds, 128 + i from the next station back to i in 101, and 192 + i from i to itself in one.
fn ring_leg(number: u8) -> Leg {
    let place = number % 64;
    let next = (place + 1) % 64;
    let (from, to, seconds) = match number / 64 {
        0 => (place, next, 1),
        1 => (place, (place + 2) % 64, 3),
        2 => (next, place, 101),
        _ => (place, place, 1),
    };
    Leg {
        from,
        to,
        seconds,
        points: 0,
        grade: 0,
    }
}

fn ring() -> [Leg; 256] {
    array::from_fn(|number| ring_leg(number as u8))
}

// The first legs of the ring from a station on, all but the one that arrives there.
fn onward(start: u8) -> [u16; 63] {
    array::from_fn(|place| (u16::from(start) + place as u16) % 64)
}

// From a station to every one. A way by legs of the ring alone costs its length, 63 at most; two stations on in three
// seconds is a second too many, and any leg back is dearer than the whole way round.
fn check_from<K: CostModel>(
    rt: &impl Abort,
    question: &mut Question<'_, K>,
    workspace: &mut [Entry<K::Cost>],
    route: &mut LegList,
) {
    let numbers = onward(question.ends.start);
    for goal in 0..64u8 {
        question.ends.goal = goal;
        let count = usize::from(goal.wrapping_sub(question.ends.start) % 64);
        let expected = numbers
            .get(..count)
            .filter(|legs| !legs.is_empty())
            .ok_or(Refusal::SameStation);
        question.check(rt, workspace, route, expected);
    }
}

// Every pair of ends.
fn check_ring<K: CostModel + Copy>(
    rt: &impl Abort,
    network: Table<'_>,
    model: K,
    workspace: &mut [Entry<K::Cost>],
) {
    let mut route = LegList::new();
    for start in 0..64 {
        let mut question = Question::new(network, model, start, 0);
        check_from(rt, &mut question, workspace, &mut route);
    }
}

// The first 63 legs of the ring alone: a chain, and nothing leads back.
fn check_chain<K: CostModel + Copy>(
    rt: &impl Abort,
    network: Table<'_>,
    model: K,
    workspace: &mut [Entry<K::Cost>],
) {
    let numbers = onward(0);
    let mut route = LegList::new();
    let there = Question::new(network, model, 0, 63);
    there.check(rt, workspace, &mut route, Ok(&numbers));
    let back = Question::new(network, model, 63, 0);
    back.check(rt, workspace, &mut route, Err(Refusal::NoFurtherRoute));
}

// From 63 to 0 without leg 63: over each station, by legs of the ring but for the first and the last, in 67 seconds. Any
// leg back takes longer.
fn check_detour<K: CostModel + Copy>(
    rt: &impl Abort,
    network: Table<'_>,
    model: K,
    workspace: &mut [Entry<K::Cost>],
) {
    let mut question = Question::new(network, model, 63, 0);
    question.bars.bar_leg(63);
    let mut numbers = onward(0);
    numbers[0] = 127;
    numbers[62] = 126;
    question.check(rt, workspace, &mut LegList::new(), Ok(&numbers));
}

fn check_round<K: CostModel + Copy>(rt: &impl Abort, heap: Global, model: K) -> Result<(), Fail> {
    let legs = ring();
    let network = Table {
        stations: 64,
        legs: &legs,
    };
    let chain = Table {
        stations: 64,
        legs: &legs[..63],
    };
    let blank = Entry {
        cost: model.zero(),
        station: 0,
    };
    // on the heap: an array that is lent has to fit in memory, which of costs of any type is not known
    let mut workspace = vec![in heap; blank; 64]?;
    check_ring(rt, network, model, &mut workspace);
    check_chain(rt, chain, model, &mut workspace);
    check_detour(rt, network, model, &mut workspace);
    Ok(())
}

#[test]
fn round_by_seconds(rt: HostRuntime) -> Result<(), Fail> {
    check_round(&rt, rt.alloc(), Seconds)
}

// A cost joined past 63 legs would come before all others.
#[test]
fn round_with_counted_legs(rt: HostRuntime) -> Result<(), Fail> {
    check_round(&rt, rt.alloc(), Counted)
}

// The ring with a station and a leg barred; there is no leg 512. Without leg 63 the ways from 63 to 0 are over 1 by leg
// 127, over 62 by leg 190, or nearly round.
const RING_CASES: [(u8, u8, u8, u16, Result<&[u16], Refusal>); 5] = [
    (62, 0, 63, 512, Ok(&[126])),
    (61, 1, 63, 512, Ok(&[61, 126, 0])),
    (63, 0, 62, 63, Ok(&[127, 128])),
    (63, 0, 1, 63, Ok(&[190, 126])),
    (63, 0, 0, 63, Err(Refusal::NoFurtherRoute)),
];

#[test]
fn ring_under_bars(rt: HostRuntime) {
    let legs = ring();
    let network = Table {
        stations: 64,
        legs: &legs,
    };
    let mut workspace = [Entry {
        cost: 0,
        station: 0,
    }; 69];
    let mut route = LegList::new();
    for (start, goal, station, leg, expected) in RING_CASES {
        let mut question = Question::new(network, Seconds, start, goal);
        question.bars.bar_station(station);
        question.bars.bar_leg(leg);
        question.check(&rt, &mut workspace, &mut route, expected);
    }
}

const HIGHEST_CASES: [(u16, Result<&[u16], Refusal>); 3] = [
    (512, Ok(&[510])),
    (510, Ok(&[511])),
    (511, Err(Refusal::NoFurtherRoute)),
];

// The two highest of 512 leg numbers alone show a leg, each the same one, and one after the other is barred.
#[test]
fn highest_leg_numbers(rt: HostRuntime) {
    let mut legs = [NO_LEG; 512];
    legs[510] = ring_leg(0);
    legs[511] = ring_leg(0);
    let network = Table {
        stations: 2,
        legs: &legs,
    };
    let mut workspace = [Entry {
        cost: 0,
        station: 0,
    }; 2];
    let mut route = LegList::new();
    let mut question = Question::new(network, Seconds, 0, 1);
    for (barred, expected) in HIGHEST_CASES {
        question.bars.bar_leg(barred);
        question.check(&rt, &mut workspace, &mut route, expected);
    }
}
