// A request answered.
ghost use Rattle.leastroute.specs.Answers.{Answered, OnMap};
ghost use Rattle.map_format.specs.Reading.{verdict};

use crate::ranking::Ranking;
use crate::ride::Ride;
use crate::rides::ranked_ride;
use map_file::map::Map;
use network::refusal::Refusal;
use search_types::ends::Ends;

// The least ride on the map in a file.
fn ride_on(file: &[u8], ranking: Ranking, ends: Ends) -> Result<Ride, Refusal>
    ensures { OnMap ranking (verdict file.now) ends.start ends.goal result }
{
    let map = Map::accept(file)?;
    ranked_ride(&map, ranking, ends)
}

/// A request is the start, the goal, a count that says nothing here, the letter of a ranking, and a map file.
pub fn answer(input: &[u8]) -> Result<Ride, Refusal>
    ensures { Answered input.now result }
{
    let [start, goal, _, letter, file @ ..] = input else {
        return Err(Refusal::CutShort);
    };
    let ranking = Ranking::try_from(*letter)?;
    let ends = Ends {
        start: *start,
        goal: *goal,
    };
    ride_on(file, ranking, ends)
}
