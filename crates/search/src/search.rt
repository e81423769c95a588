// What a search goes by.
use search_types::bars::Bars;
use snapshot::snapshot::Snapshot;

// It goes backward from the goal, over nothing barred.
#[derive(Drop)]
pub(crate) struct Search<'a, K> {
    pub(crate) network: &'a Snapshot,
    pub(crate) model: &'a K,
    pub(crate) bars: &'a Bars,
    pub(crate) goal: u8,
}
