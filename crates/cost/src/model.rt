// What a cost model is asked, and what it keeps.
ghost use Rattle.std.specs.Prelude.{◌≡◌, ℕ, ◌+◌, ◌≤◌};
ghost use Rattle.cost.specs.Costs.{Costs, Laws};

use network::leg::Leg;

/// Costs in an order, with a zero, the cost of a leg and the joining of two. Which costs stand for at most n legs is part
/// of what a model means: zero for 0, a leg's for 1, and joining adds these counts.
pub trait CostModel {
    type Cost: Copy;

    /// The letter that names the model, printed in front of what was ranked by it.
    const MARK: u8;

    ghost MARK: { ℕ };

    ghost costs: { Self → Costs Self.Cost };

    ghost laws: { (x : Self) → Laws (costs x) };

    /// The same letter, as an answer.
    fn mark_byte() -> u8
        ensures { result ≡ MARK }
    {
        Self::MARK
    }

    fn zero(&self) -> Self::Cost
        ensures { result ≡ (costs self.now).zero };

    fn of_leg(&self, leg: Leg) -> Self::Cost
        ensures { result ≡ (costs self.now).of_leg leg };

    /// A cost that would stand for more than 63 legs is free: there is an answer, and nothing is said of it, not even that
    /// it comes out alike twice.
    fn join(&self, a: Self::Cost, b: Self::Cost) -> Self::Cost
        ensures { (m n : ℕ) → (costs self.now).stands a m → (costs self.now).stands b n → m + n ≤ 63 → result ≡ (costs self.now).join a b };

    /// Whether one cost comes before another.
    fn before(&self, a: Self::Cost, b: Self::Cost) -> bool
        ensures { result ≡ (costs self.now).before a b };
}
