// What the first phase of a search leaves: the cost from each station to the goal.
ghost use Rattle.std.specs.Prelude.{◌≡◌, ◌<◌, ◌≤◌, length, slice_index_or};
ghost use Rattle.search_types.specs.declared.entry.Entry as entry;
ghost use Rattle.search.specs.Tables.{place};

use search_types::entry::Entry;

// The entries that came out of the queue, in the row that is lent, and where each station stands among them, in fixed
// memory.
#[derive(Drop)]
pub(crate) struct CostTable<'t, C> {
    pub(crate) row: &'t [Entry<C>],
    pub(crate) places: &'t [Option<u8>; 64],
    ghost few: { length row.now ≤ 64 },
}

impl<'t, C: Copy> CostTable<'t, C> {
    // The cost from a station that has an entry.
    pub(crate) fn cost(&self, station: u8) -> C
        requires station { station < 64 }
        requires placed { place self.now.places.now station < length self.now.row.now }
        ensures { (d : entry.Entry C) → result ≡ (slice_index_or self.now.row.now (place self.now.places.now station) d).cost }
    {
        let place = self.places[usize::from(station)].unwrap();
        self.row[usize::from(place)].cost
    }
}
