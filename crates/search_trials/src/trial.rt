// The answer to a question by trying all lists of legs, from the rule alone.
use crate::question::Question;
use cost::model::CostModel;
use network::leg::Leg;
use network::network::Network;
use network::refusal::Refusal;
use search_types::bars::Bars;
use std::alloc::{AllocError, Global};
use std::test::Fail;

// More lists than are tried in any network of six stations and twelve legs.
const MOST_TRIED: u32 = 1_000_000;

// The route or the refusal, for a workspace of so many places.
pub(crate) fn answer_by_trial<K: CostModel>(
    heap: Global,
    question: &Question<'_, K>,
    places: usize,
) -> Result<Result<Vec<u16>, Refusal>, Fail> {
    let stations = question.network.station_count();
    if question.ends.start >= stations || question.ends.goal >= stations {
        return Ok(Err(Refusal::NoSuchStation));
    }
    if question.ends.start == question.ends.goal {
        return Ok(Err(Refusal::SameStation));
    }
    if places < usize::from(stations) {
        return Ok(Err(Refusal::ShortWorkspace));
    }
    Ok(least_by_trial(heap, question)?.ok_or(Refusal::NoFurtherRoute))
}

// The least of all routes, where there is one. A list is made longer only while it is a loopless way from the start: no list
// that begins otherwise is a route.
fn least_by_trial<K: CostModel>(
    heap: Global,
    question: &Question<'_, K>,
) -> Result<Option<Vec<u16>>, Fail> {
    let legs = question.network.leg_count();
    let mut best = None;
    let mut list = Vec::new(heap);
    list.push(0)?;
    for _ in 0..MOST_TRIED {
        let at = arrival(question, list.as_slice());
        if at == Some(question.ends.goal) && is_better(question, list.as_slice(), best.as_deref()) {
            best = Some(list.clone()?);
        }
        if !advance(&mut list, legs, at.is_some())? {
            return Ok(best);
        }
    }
    Err(Fail::new("too many lists"))
}

// Where these legs lead from the start, or nothing where they meet a station twice, something barred, or no leg.
fn arrival<K: CostModel>(question: &Question<'_, K>, list: &[u16]) -> Option<u8> {
    let mut met = [false; 256];
    met[usize::from(question.ends.start)] = true;
    let mut at = question.ends.start;
    for &number in list {
        let leg = question.network.leg_at(number)?;
        if leg.from != at || met[usize::from(leg.to)] || bars_any(&question.bars, leg, number) {
            return None;
        }
        at = leg.to;
        met[usize::from(at)] = true;
    }
    Some(at)
}

fn bars_any(bars: &Bars, leg: Leg, number: u16) -> bool {
    bars.bars_leg(number) || bars.bars_station(leg.from) || bars.bars_station(leg.to)
}

// Whether a route ranks before the best so far, if there is one.
fn is_better<K: CostModel>(question: &Question<'_, K>, list: &[u16], best: Option<&[u16]>) -> bool {
    let Some(best) = best else {
        return true;
    };
    let (cost, least) = (cost_of(question, list), cost_of(question, best));
    if question.model.before(cost, least) {
        return true;
    }
    if question.model.before(least, cost) {
        return false;
    }
    (list.len(), list) < (best.len(), best)
}

// Written again and not taken from the code that is tried.
fn cost_of<K: CostModel>(question: &Question<'_, K>, list: &[u16]) -> K::Cost {
    let model = &question.model;
    list.iter()
        .filter_map(|&number| question.network.leg_at(number))
        .fold(
            model.zero(),
            |cost, leg| model.join(cost, model.of_leg(leg)),
        )
}

// The next list to try: one leg longer, or with the next number in the last place that has one. Whether there is any.
fn advance(list: &mut Vec<u16>, legs: u16, longer: bool) -> Result<bool, AllocError> {
    if longer {
        list.push(0)?;
        return Ok(true);
    }
    while let Some(last) = list.pop() {
        let next = last.saturating_add(1);
        if next < legs {
            list.push(next)?;
            return Ok(true);
        }
    }
    Ok(false)
}
