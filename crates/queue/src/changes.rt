// Entries go into a queue, are replaced in it, and come out.
ghost use Rattle.std.specs.Prelude.{◌≡◌, ◌-◌, ◌<◌, ◌≤◌, [], ◌∷◌, ◌++◌, length, if◌then◌else◌, ◌≢◌, slice_set};
ghost use Rattle.std.specs.List.{IsFirstBest};
ghost use Rattle.queue.specs.Waiting.{whole, waiting, held, gone, has_room, waits_at, Keeps, Comes, Popping};

use crate::least::Least;
use crate::order::Order;
use crate::queue::Queue;

// The first place of an entry that no other comes before.
fn least_place<O: Order>(order: &O, entries: &[O::Entry]) -> usize
    requires { 0 < length entries.now }
    ensures { IsFirstBest (O.Order.less order.now) entries.now (length entries.now) result }
{
    // by hand: a library's least takes an order of three outcomes, and would compare each entry twice; by place, so that
    // where one waits alone nothing is asked
    let mut best = 0;
    let mut least = entries[0];
    for i in 1..entries.len() {
        let entry = entries[i];
        if order.comes_before(entry, least) {
            best = i;
            least = entry;
        }
    }
    best
}

// Where there may be no room or no entry, a `bool` says so, as std's sets answer: no value stands beside it.
impl<'a, E: Copy> Queue<'a, E> {
    /// One more entry waits, unless the row is full.
    pub fn insert(&mut self, entry: E) -> bool
        ensures keeps { Keeps self.old self.new }
        ensures answer { result ≡ has_room self.old }
        ensures held { held self.new ≡ (if has_room self.old then held self.old ++ entry ∷ [] else held self.old) }
        ensures waiting { waiting self.new ≡ (if has_room self.old then waiting self.old ++ entry ∷ [] else waiting self.old) }
        ensures whole { whole self.new ≡ (if has_room self.old then slice_set (whole self.old) (length (held self.old)) entry else whole self.old) }
    {
        let has_room = self.end < self.row.len();
        if has_room {
            self.row[self.end] = entry;
            self.end += 1;
        }
        has_room
    }

    /// Another entry waits at a place of the row, if one waits there.
    pub fn replace(&mut self, place: usize, entry: E) -> bool
        ensures keeps { Keeps self.old self.new }
        ensures answer { result ≡ waits_at self.old place }
        ensures held { held self.new ≡ (if waits_at self.old place then slice_set (held self.old) place entry else held self.old) }
        ensures waiting { waiting self.new ≡ (if waits_at self.old place then slice_set (waiting self.old) (place - gone self.old) entry else waiting self.old) }
        ensures whole { whole self.new ≡ (if waits_at self.old place then slice_set (whole self.old) place entry else whole self.old) }
    {
        let waits = (self.out..self.end).contains(&place);
        if waits {
            self.row[place] = entry;
        }
        waits
    }

    // The place in the row of the first entry that waits and that none comes before.
    fn place_of_least<O: Order<Entry = E>>(&self, order: &O) -> usize
        requires { waiting self.now ≢ [] }
        ensures low { self.now.out ≤ result }
        ensures high { result < self.now.end }
        ensures first { IsFirstBest (O.Order.less order.now) (waiting self.now) (length (waiting self.now)) (result - gone self.now) }
    {
        self.out + least_place(order, self.waiting())
    }

    // Brings the least of the entries that wait to the end of those that came out.
    fn take_least<O: Order<Entry = E>>(&mut self, order: &O) -> Least<E>
        requires { waiting self.old ≢ [] }
        ensures { Comes (O.Order.less order.now) self.old self.new result }
    {
        let place = self.place_of_least(order);
        let entry = self.row[place];
        self.row.swap(self.out, place);
        self.out += 1;
        Least { entry, place }
    }

    /// The least of the entries that wait comes out. The one that was first of them stands at its place then.
    pub fn pop_least<O: Order<Entry = E>>(&mut self, order: &O) -> Option<Least<E>>
        ensures { Popping (O.Order.less order.now) self.old self.new result }
    {
        if self.is_empty() {
            return None;
        }
        Some(self.take_least(order))
    }
}
