// Small networks with few different costs, so that ties abound, asked for all ends.
use crate::counted::Counted;
use crate::even_free::EvenFree;
use crate::question::Question;
use crate::table::{NO_LEG, Table};
use crate::trial::answer_by_trial;
use cost::model::CostModel;
use cost::points::PointsThenSeconds;
use cost::seconds::Seconds;
use network::leg::Leg;
use search_types::bars::Bars;
use search_types::entry::Entry;
use search_types::leg_list::LegList;
use std::alloc::Global;
use std::array;
use std::process::Abort;
use std::test::Fail;

// Numbers that are the same in each run.
#[derive(Drop)]
struct Dice {
    state: u32,
}

impl Dice {
    // From 0 up to the count of sides.
    fn throw(&mut self, sides: u8) -> u8 {
        self.state = self
            .state
            .wrapping_mul(1_664_525)
            .wrapping_add(1_013_904_223);
        let [_, _, _, high] = self.state.to_le_bytes();
        high % sides.max(1)
    }

    // A number in five shows nothing. A leg may lead from a station to itself.
    fn leg(&mut self, stations: u8, low: u8, sides: u8) -> Leg {
        if self.throw(5) == 0 {
            return NO_LEG;
        }
        Leg {
            from: self.throw(stations),
            to: self.throw(stations),
            seconds: u16::from(self.throw(sides).saturating_add(low)),
            points: self.throw(2),
            grade: 0,
        }
    }

    // Twelve leg numbers; all seconds are alike in some turns, and in some of these even.
    fn legs(&mut self, stations: u8, turn: u8) -> [Leg; 12] {
        array::from_fn(|_| self.leg(stations, 1 + turn / 4 % 2, 1 + turn / 8 % 3))
    }

    // Legs and stations in turn, any of which may be an end. No chain says plainer whose turn it is.
    fn bars(&mut self, stations: u8, count: u8) -> Bars {
        let mut bars = Bars::none();
        for kind in 0..count {
            if kind % 2 == 0 {
                bars.bar_leg(u16::from(self.throw(12)));
            } else {
                bars.bar_station(self.throw(stations));
            }
        }
        bars
    }
}

// From a station to every one below 7, that station and those past the last too.
fn check_from<K: CostModel>(
    rt: &impl Abort,
    heap: Global,
    question: &mut Question<'_, K>,
    workspace: &mut [Entry<K::Cost>],
    route: &mut LegList,
) -> Result<(), Fail> {
    for goal in 0..7 {
        question.ends.goal = goal;
        let tried = answer_by_trial(heap, question, workspace.len())?;
        question.check(rt, workspace, route, tried.as_deref().map_err(|why| *why));
    }
    Ok(())
}

// Every pair of ends below 7.
fn check_ends<K: CostModel>(
    rt: &impl Abort,
    heap: Global,
    question: &mut Question<'_, K>,
    workspace: &mut [Entry<K::Cost>],
) -> Result<(), Fail> {
    let mut route = LegList::new();
    for start in 0..7 {
        question.ends.start = start;
        check_from(rt, heap, question, workspace, &mut route)?;
    }
    Ok(())
}

fn check_networks<K: CostModel + Copy>(
    rt: &impl Abort,
    heap: Global,
    model: K,
) -> Result<(), Fail> {
    let blank = Entry {
        cost: model.zero(),
        station: 0,
    };
    // on the heap: an array that is lent has to fit in memory, which of costs of any type is not known
    let mut workspace = vec![in heap; blank; 8]?;
    let mut dice = Dice { state: 2_026 };
    for turn in 0..120u8 {
        let stations = dice.throw(5).saturating_add(2);
        let legs = dice.legs(stations, turn);
        let network = Table {
            stations,
            legs: &legs,
        };
        let mut question = Question::new(network, model, 0, 0);
        question.bars = dice.bars(stations, turn % 4);
        check_ends(rt, heap, &mut question, &mut workspace)?;
    }
    Ok(())
}

#[test]
fn by_seconds(rt: HostRuntime) -> Result<(), Fail> {
    check_networks(&rt, rt.alloc(), Seconds)
}

#[test]
fn by_points(rt: HostRuntime) -> Result<(), Fail> {
    check_networks(&rt, rt.alloc(), PointsThenSeconds)
}

#[test]
fn with_free_legs(rt: HostRuntime) -> Result<(), Fail> {
    check_networks(&rt, rt.alloc(), EvenFree)
}

#[test]
fn with_counted_legs(rt: HostRuntime) -> Result<(), Fail> {
    check_networks(&rt, rt.alloc(), Counted)
}
