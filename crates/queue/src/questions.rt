// What a queue is over, and what is asked of it.
ghost use Rattle.std.specs.Prelude.{◌≡◌, ◌≤◌, [], length, drop, Decides};
ghost use Rattle.queue.specs.Waiting.{whole, taken, waiting, held, room, gone};

use crate::queue::Queue;

impl<'a, E: Copy> Queue<'a, E> {
    /// Nothing waits yet, and nothing came out.
    pub fn over(row: &'a mut [E]) -> Queue<'a, E>
        ensures lent { result.row.ghost_name ≡ row.entry.ghost_name }
        ensures whole { whole result ≡ row.old }
        ensures room { room result ≡ length row.old }
        ensures held { held result ≡ [] }
        ensures gone { gone result ≡ 0 }
    {
        Queue {
            row,
            out: 0,
            end: 0,
        }
    }

    /// How many entries came out.
    pub fn gone(&self) -> usize
        ensures { result ≡ gone self.now }
    {
        self.out
    }

    /// The entries that came out, in the order in which they did.
    pub fn taken(&self) -> &[E]
        ensures { result.now ≡ taken self.now }
    {
        &self.row[..self.out]
    }

    /// Whether nothing waits.
    pub fn is_empty(&self) -> bool
        ensures { Decides result (waiting self.now ≡ []) }
    {
        self.waiting().is_empty()
    }

    /// The entries that wait.
    pub fn waiting(&self) -> &[E]
        ensures { result.now ≡ waiting self.now }
    {
        &self.row[self.out..self.end]
    }

    /// The entries that came out, and behind them those that wait.
    pub fn held(&self) -> &[E]
        ensures { result.now ≡ held self.now }
    {
        &self.row[..self.end]
    }
}
