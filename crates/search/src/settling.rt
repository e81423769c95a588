// The first phase of a search under way.
use queue::queue::Queue;
use search_types::entry::Entry;

// The entries that came out of the queue and those that wait, and where each station stands among them: a row for all
// stations, since the memory is fixed.
#[derive(Drop)]
pub(crate) struct Settling<'q, C> {
    pub(crate) queue: Queue<'q, Entry<C>>,
    pub(crate) places: [Option<u8>; 64],
}
