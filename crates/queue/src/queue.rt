// The entries of a queue, in a row that is lent.
ghost use Rattle.std.specs.Prelude.{◌≤◌, length};

/// In front of `out` stand the entries that came out, in the order in which they did, and from there to `end` those that
/// wait, in any order.
#[derive(Drop)]
pub struct Queue<'a, E> {
    pub(crate) row: &'a mut [E],
    pub(crate) out: usize,
    pub(crate) end: usize,
    ghost ordered: { out ≤ end },
    ghost within: { end ≤ length row.now },
}
