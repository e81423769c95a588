// Which ranking is asked for.
ghost use Rattle.std.specs.Prelude.{◌≡◌, ok_or};
ghost use Rattle.network.specs.declared.refusal.Refusal.TheVariants.{UnknownLetter};
ghost use Rattle.leastroute.specs.Rankings.{ranking_of};

use cost::model::CostModel;
use cost::points::PointsThenSeconds;
use cost::seconds::Seconds;
use network::refusal::Refusal;

/// By what routes are ranked.
#[derive(Clone, Copy, Debug)]
pub enum Ranking {
    /// By riding time.
    Seconds,
    /// By card points, and at equal points by riding time.
    Points,
}

/// The ranking that a letter names: the mark of its cost model.
impl TryFrom<u8> for Ranking {
    type Error = Refusal;

    ghost try_from_gives = { λ letter r. r ≡ ok_or (ranking_of letter) UnknownLetter };

    fn try_from(letter: u8) -> Result<Ranking, Refusal> {
        match letter {
            Seconds::MARK => Ok(Ranking::Seconds),
            PointsThenSeconds::MARK => Ok(Ranking::Points),
            _ => Err(Refusal::UnknownLetter),
        }
    }
}
