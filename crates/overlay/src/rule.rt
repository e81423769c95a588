// A network, and a rule above it that changes what it shows.
ghost use Rattle.std.specs.Prelude.{◌≡◌, ℕ, Option};
ghost use Rattle.network.specs.declared.leg.Leg.{Leg};
ghost use Rattle.overlay.specs.Rules.{KeepsRanges, overlaid, overlaid_sound};

use network::leg::Leg;
use network::network::Network;

/// What is shown at each leg number, from what is there below.
pub trait Rule: Drop {
    ghost shows: { Self → ℕ → Option Leg → Option Leg };

    // for every value of the type
    ghost keeps_ranges: { (x : Self) → KeepsRanges (shows x) };

    /// What is shown at a number over this network.
    fn leg_at<N: Network>(&self, below: &N, number: u16) -> Option<Leg>
        ensures { result ≡ shows self.now number ((N.Network.meaning below.now).at number) };
}

/// The network below, with what it shows changed by the rule and all else as it is.
#[derive(Drop)]
pub struct Overlay<N, R> {
    // Each call says itself what it answers and that this stays, in clauses that no name for them would shorten.
    pub(crate) below: N,
    pub(crate) rule: R,
}

impl<N: Network, R: Rule> Overlay<N, R> {
    /// The network below.
    pub fn into_below(self) -> N
        ensures { result ≡ self.below }
    {
        self.below
    }
}

impl<N: Network, R: Rule> Network for Overlay<N, R> {
    ghost meaning = { λ x. overlaid (N.Network.meaning x.below) (R.Rule.shows x.rule) };

    ghost sound = { λ x. overlaid_sound (N.Network.meaning x.below) (R.Rule.shows x.rule) (N.Network.sound x.below) (R.Rule.keeps_ranges x.rule) };

    fn station_count(&self) -> u8 {
        self.below.station_count()
    }

    fn leg_count(&self) -> u16 {
        self.below.leg_count()
    }

    fn leg_at(&self, number: u16) -> Option<Leg> {
        self.rule.leg_at(&self.below, number)
    }
}
