// Cases at the bounds, each by itself, put to the search and to the trial of all lists.
use crate::question::Question;
use crate::table::Table;
use crate::trial::answer_by_trial;
use cost::seconds::Seconds;
use network::leg::Leg;
use network::refusal::Refusal;
use network::refusal::Refusal::{NoFurtherRoute, NoSuchStation, SameStation, ShortWorkspace};
use search_types::entry::Entry;
use search_types::leg_list::LegList;
use std::test::Fail;

const fn leg(from: u8, to: u8, seconds: u16) -> Leg {
    Leg {
        from,
        to,
        seconds,
        points: 0,
        grade: 0,
    }
}

// From 0 to 2 there are three ways of 4 seconds, over legs 1 3, 2 3 and 4, and to 3 five of 9 seconds, 1 6, 2 6, 4 5, 1 3 5
// and 2 3 5. Station 4 is reached by leg 8 alone, and no leg leaves it.
fn legs() -> [Leg; 9] {
    [
        leg(0, 0, 1),
        leg(0, 1, 2),
        leg(0, 1, 2),
        leg(1, 2, 2),
        leg(0, 2, 4),
        leg(2, 3, 5),
        leg(1, 3, 7),
        leg(3, 3, 1),
        leg(3, 4, 1),
    ]
}

// Start, goal, a barred station, a barred leg, the places of the workspace, and what comes.
type Case = (
    u8,
    u8,
    Option<u8>,
    Option<u16>,
    usize,
    Result<&'static [u16], Refusal>,
);

// The first numbers past all stations and all legs: to bar them changes nothing.
const PAST_STATIONS: Option<u8> = Some(64);

const PAST_LEGS: Option<u16> = Some(512);

const CASES: [Case; 28] = [
    // of two parallel legs the lower number; the self-loop is never used
    (0, 1, PAST_STATIONS, PAST_LEGS, 10, Ok(&[1])),
    (0, 1, PAST_STATIONS, Some(1), 10, Ok(&[2])),
    (0, 1, PAST_STATIONS, Some(0), 10, Ok(&[1])),
    // at equal cost fewer legs
    (0, 2, PAST_STATIONS, PAST_LEGS, 10, Ok(&[4])),
    (0, 2, PAST_STATIONS, Some(4), 10, Ok(&[1, 3])),
    // at equal cost and as many legs the lower number at the first difference
    (0, 3, PAST_STATIONS, PAST_LEGS, 10, Ok(&[1, 6])),
    (0, 3, PAST_STATIONS, Some(1), 10, Ok(&[2, 6])),
    (0, 3, Some(1), PAST_LEGS, 10, Ok(&[4, 5])),
    (0, 4, Some(2), PAST_LEGS, 10, Ok(&[1, 6, 8])),
    (0, 4, PAST_STATIONS, Some(6), 10, Ok(&[4, 5, 8])),
    // nothing leads there, or all that does is barred
    (4, 0, PAST_STATIONS, PAST_LEGS, 10, Err(NoFurtherRoute)),
    (0, 4, PAST_STATIONS, Some(8), 10, Err(NoFurtherRoute)),
    (0, 4, Some(3), PAST_LEGS, 10, Err(NoFurtherRoute)),
    (0, 4, Some(0), PAST_LEGS, 10, Err(NoFurtherRoute)),
    (0, 4, Some(4), PAST_LEGS, 10, Err(NoFurtherRoute)),
    // there is no station 64 and no leg 512 to bar, each by itself
    (0, 4, Some(64), None, 10, Ok(&[1, 6, 8])),
    (0, 4, None, Some(512), 10, Ok(&[1, 6, 8])),
    // workspaces about the count of stations
    (0, 4, PAST_STATIONS, PAST_LEGS, 5, Ok(&[1, 6, 8])),
    (0, 4, PAST_STATIONS, Some(8), 5, Err(NoFurtherRoute)),
    (0, 4, PAST_STATIONS, PAST_LEGS, 4, Err(ShortWorkspace)),
    (0, 4, Some(4), PAST_LEGS, 0, Err(ShortWorkspace)),
    // the order of the refusals
    (4, 4, Some(4), PAST_LEGS, 4, Err(SameStation)),
    (4, 4, PAST_STATIONS, PAST_LEGS, 10, Err(SameStation)),
    (5, 5, PAST_STATIONS, PAST_LEGS, 4, Err(NoSuchStation)),
    (5, 0, PAST_STATIONS, PAST_LEGS, 4, Err(NoSuchStation)),
    (0, 5, Some(0), PAST_LEGS, 10, Err(NoSuchStation)),
    (0, 64, PAST_STATIONS, PAST_LEGS, 10, Err(NoSuchStation)),
    (255, 255, PAST_STATIONS, PAST_LEGS, 0, Err(NoSuchStation)),
];

#[test]
fn at_bounds(rt: HostRuntime) -> Result<(), Fail> {
    let legs = legs();
    let network = Table {
        stations: 5,
        legs: &legs,
    };
    let mut workspace = [Entry {
        cost: 0,
        station: 0,
    }; 10];
    let mut route = LegList::new();
    for (start, goal, station, leg, places, expected) in CASES {
        let mut question = Question::new(network, Seconds, start, goal);
        if let Some(station) = station {
            question.bars.bar_station(station);
        }
        if let Some(leg) = leg {
            question.bars.bar_leg(leg);
        }
        assert!(rt; places <= 10);
        question.check(&rt, &mut workspace[..places], &mut route, expected);
        let tried = answer_by_trial(rt.alloc(), &question, places)?;
        assert_eq!(rt; tried.as_deref().map_err(|why| *why), expected);
    }
    Ok(())
}
