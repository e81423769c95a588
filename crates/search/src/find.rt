// A search as a whole.
ghost use Rattle.std.specs.Prelude.{◌≡◌, ◌<◌, ◌≤◌, length, ◌≢◌};
ghost use Rattle.search.specs.Answers.{Found};
ghost use Rattle.search.specs.Stages.{network_of, barred_in};

use crate::cost_table::CostTable;
use crate::search::Search;
use crate::settling::Settling;
use cost::model::CostModel;
use queue::queue::Queue;
use search_types::entry::Entry;
use search_types::leg_list::LegList;

impl<'a, K: CostModel> Search<'a, K> {
    // The least route from a start, if there is one. What the workspace holds before does not matter, and what it holds
    // after is of no use.
    pub(crate) fn find(&self, start: u8, workspace: &mut [Entry<K::Cost>]) -> Option<LegList>
        requires start { start < (network_of self.now).stations }
        requires goal { self.now.goal < (network_of self.now).stations }
        requires apart { start ≢ self.now.goal }
        requires room { (network_of self.now).stations ≤ length workspace.old }
        ensures found { Found (K.CostModel.costs self.now.model.now) (network_of self.now) (barred_in self.now) start self.now.goal result }
        ensures room { length workspace.new ≡ length workspace.old }
    {
        let mut settling = Settling {
            queue: Queue::over(workspace),
            places: [None; 64],
        };
        settling.places[usize::from(self.goal)] = Some(0);
        let _ = settling.queue.insert(Entry {
            cost: self.model.zero(),
            station: self.goal,
        });
        self.settle(&mut settling);
        settling.places[usize::from(start)]?;
        let table = CostTable {
            row: settling.queue.held(),
            places: &settling.places,
        };
        let labels = self.label(&table);
        Some(self.trace(&labels, start))
    }
}
