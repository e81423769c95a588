// Legs that are not too hard.
ghost use Rattle.std.specs.Prelude.{◌≡◌, if◌then◌else◌, nat_le};
ghost use Rattle.overlay.specs.Laws.{CapLaws};
ghost use Rattle.overlay.specs.Marks.{unless};
ghost use Rattle.overlay.specs.Meanings.{capping};
ghost use Rattle.overlay.specs.Sounds.{capping_keeps};

use crate::rule::{Overlay, Rule};
use network::leg::Leg;
use network::network::Network;
use network::refusal::Refusal;

/// The hardest grade that is shown.
#[derive(Drop)]
pub struct MostGrade {
    ceiling: u8,
}

impl Rule for MostGrade {
    ghost shows = { λ x. capping x.ceiling };

    ghost keeps_ranges = { λ x. capping_keeps x.ceiling };

    fn leg_at<N: Network>(&self, below: &N, number: u16) -> Option<Leg> {
        below.leg_at(number).filter(|leg| leg.grade <= self.ceiling)
    }
}

/// Shows nothing where the grade is above the ceiling.
pub type GradeCap<N> = Overlay<N, MostGrade>;

impl<N: Network> GradeCap<N> {
    /// The ceiling is 3, so that every leg is shown.
    pub fn new(below: N) -> GradeCap<N>
        ensures below { result.below ≡ below }
        ensures ceiling { result.rule.ceiling ≡ 3 }
        ensures laws { CapLaws (N.Network.meaning below) }
    {
        Overlay {
            below,
            rule: MostGrade { ceiling: 3 },
        }
    }

    /// Sets the ceiling, 0 to 3.
    pub fn set_ceiling(&mut self, ceiling: u8) -> Result<(), Refusal>
        ensures answer { result ≡ unless (nat_le ceiling 3) tt }
        ensures ceiling { self.new.rule.ceiling ≡ (if nat_le ceiling 3 then ceiling else self.old.rule.ceiling) }
        ensures below { self.new.below ≡ self.old.below }
    {
        if ceiling > 3 {
            return Err(Refusal::OverlayOutOfRange);
        }
        self.rule = MostGrade { ceiling };
        Ok(())
    }

    /// The hardest grade that is shown.
    pub fn ceiling(&self) -> u8
        ensures { result ≡ self.now.rule.ceiling }
    {
        self.rule.ceiling
    }
}
