// Waits before legs.
ghost use Rattle.std.specs.Prelude.{◌≡◌, ℕ};
ghost use Rattle.overlay.specs.Laws.{WaitLaws};
ghost use Rattle.overlay.specs.Marks.{unless, markable, marked};
ghost use Rattle.overlay.specs.Meanings.{delaying, later};
ghost use Rattle.overlay.specs.Sounds.{delaying_keeps};
ghost use Rattle.overlay.specs.Waiting.{wait_in};

use crate::marks::in_range;
use crate::rule::{Overlay, Rule};
use network::leg::Leg;
use network::network::Network;
use network::refusal::Refusal;

// The longest ride that a network shows, with its wait: twelve hours.
const LONGEST: u16 = 43_200;

/// The wait before each leg, by its number.
#[derive(Drop)]
pub struct LegWaits {
    waits: [u16; 512],
}

// A leg with a wait before it.
fn delay(leg: Leg, wait: u16) -> Leg
    ensures { result ≡ later wait leg }
{
    Leg {
        seconds: leg.seconds.saturating_add(wait).min(LONGEST),
        ..leg
    }
}

impl Rule for LegWaits {
    ghost shows = { λ x. delaying (wait_in x.waits) };

    ghost keeps_ranges = { λ x. delaying_keeps (wait_in x.waits) };

    fn leg_at<N: Network>(&self, below: &N, number: u16) -> Option<Leg> {
        let leg = below.leg_at(number)?;
        let wait = self.waits.get(usize::from(number)).copied();
        Some(delay(leg, wait.unwrap_or(0)))
    }
}

/// Shows each leg with its wait, twelve hours in all at most. It holds a wait for any number to 511, also for those that
/// the network below does not have.
pub type Waits<N> = Overlay<N, LegWaits>;

impl<N: Network> Waits<N> {
    /// No leg has a wait.
    pub fn new(below: N) -> Waits<N>
        ensures below { result.below ≡ below }
        ensures marks { (i : ℕ) → wait_in result.rule.waits i ≡ 0 }
        ensures laws { WaitLaws (N.Network.meaning below) }
    {
        Overlay {
            below,
            rule: LegWaits { waits: [0; 512] },
        }
    }

    /// Sets the wait of a leg number to 511.
    pub fn set_wait(&mut self, number: u16, wait: u16) -> Result<(), Refusal>
        ensures answer { result ≡ unless (markable number) tt }
        ensures marks { (i : ℕ) → wait_in self.new.rule.waits i ≡ marked number wait (wait_in self.old.rule.waits) i }
        ensures below { self.new.below ≡ self.old.below }
    {
        in_range(number)?;
        self.rule.waits[usize::from(number)] = wait;
        Ok(())
    }

    /// The wait of a leg number to 511.
    pub fn wait(&self, number: u16) -> Result<u16, Refusal>
        ensures { result ≡ unless (markable number) (wait_in self.now.rule.waits number) }
    {
        in_range(number)?;
        Ok(self.rule.waits[usize::from(number)])
    }
}
