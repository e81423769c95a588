// Legs that are shut.
ghost use Rattle.std.specs.Prelude.{◌≡◌, ℕ, true, false};
ghost use Rattle.overlay.specs.Laws.{ClosureLaws};
ghost use Rattle.overlay.specs.Marks.{unless, markable, marked};
ghost use Rattle.overlay.specs.Meanings.{closing};
ghost use Rattle.overlay.specs.Sounds.{closing_keeps};
ghost use Rattle.sets.specs.Sets.{holds, count};

use crate::marks::in_range;
use crate::rule::{Overlay, Rule};
use network::leg::Leg;
use network::network::Network;
use network::refusal::Refusal;
use sets::number_set::NumberSet;

/// The leg numbers that are shut.
#[derive(Drop)]
pub struct ShutLegs {
    shut: NumberSet<8>,
}

impl Rule for ShutLegs {
    ghost shows = { λ x. closing (holds x.shut.words) };

    ghost keeps_ranges = { λ x. closing_keeps (holds x.shut.words) };

    fn leg_at<N: Network>(&self, below: &N, number: u16) -> Option<Leg> {
        if self.shut.contains(number) {
            None
        } else {
            below.leg_at(number)
        }
    }
}

/// Shows nothing at the leg numbers that it holds shut. It holds any number to 511, also those that the network below
/// does not have.
pub type Closures<N> = Overlay<N, ShutLegs>;

impl<N: Network> Closures<N> {
    /// Nothing is shut.
    pub fn new(below: N) -> Closures<N>
        ensures below { result.below ≡ below }
        ensures marks { (i : ℕ) → holds result.rule.shut.words i ≡ false }
        ensures laws { ClosureLaws (N.Network.meaning below) }
    {
        let shut = NumberSet::new();
        Overlay {
            below,
            rule: ShutLegs { shut },
        }
    }

    // Holds a leg number to 511 shut, or not.
    fn mark(&mut self, number: u16, shut: bool) -> Result<(), Refusal>
        ensures answer { result ≡ unless (markable number) tt }
        ensures marks { (i : ℕ) → holds self.new.rule.shut.words i ≡ marked number shut (holds self.old.rule.shut.words) i }
        ensures below { self.new.below ≡ self.old.below }
    {
        in_range(number)?;
        self.rule.shut.put(number, shut);
        Ok(())
    }

    /// Shuts a leg number to 511.
    pub fn shut(&mut self, number: u16) -> Result<(), Refusal>
        ensures answer { result ≡ unless (markable number) tt }
        ensures marks { (i : ℕ) → holds self.new.rule.shut.words i ≡ marked number true (holds self.old.rule.shut.words) i }
        ensures below { self.new.below ≡ self.old.below }
    {
        self.mark(number, true)
    }

    /// Opens a leg number to 511 again.
    pub fn open(&mut self, number: u16) -> Result<(), Refusal>
        ensures answer { result ≡ unless (markable number) tt }
        ensures marks { (i : ℕ) → holds self.new.rule.shut.words i ≡ marked number false (holds self.old.rule.shut.words) i }
        ensures below { self.new.below ≡ self.old.below }
    {
        self.mark(number, false)
    }

    /// Whether a leg number to 511 is held shut.
    pub fn is_shut(&self, number: u16) -> Result<bool, Refusal>
        ensures { result ≡ unless (markable number) (holds self.now.rule.shut.words number) }
    {
        in_range(number)?;
        Ok(self.rule.shut.contains(number))
    }

    /// How many leg numbers are held shut.
    pub fn count(&self) -> u32
        ensures { result ≡ count (holds self.now.rule.shut.words) 512 }
    {
        self.rule.shut.len()
    }
}
