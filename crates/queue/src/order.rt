// What entries are compared by.
ghost use Rattle.std.specs.Prelude.{◌≡◌, Bool};
ghost use Rattle.queue.specs.Order.{Strict};

/// A strict total order, which may depend on the value that is asked.
pub trait Order {
    type Entry: Copy;

    ghost less: { Self → Self.Entry → Self.Entry → Bool };

    ghost strict: { (x : Self) → Strict (less x) };

    fn comes_before(&self, a: Self::Entry, b: Self::Entry) -> bool
        ensures { result ≡ less self.now a b };
}
