// The labels that a search gives to stations, from the goal outward.
ghost use Rattle.std.specs.Prelude.{◌≡◌, ◌<◌, ◌≤◌, true};
ghost use Rattle.search.specs.Lines.{unlabelled, improves, put_label, first_label};

// How many legs lead from a station to the goal at its cost, and the first of them. The lesser of two labels is the better
// one: it has fewer legs, or as many and a lower first leg.
#[derive(Clone, Copy, PartialEq, Eq, PartialOrd, Ord)]
pub(crate) struct Label {
    pub(crate) hops: u8,
    pub(crate) first: u16,
}

// A call asks of a station that it is below 64, as each row of 64 asks of an index.
#[derive(Clone, Copy)]
pub(crate) struct Labels {
    // the stations with a label, in the order in which they got it: a line that grows while it is walked, in fixed memory
    pub(crate) line: [u8; 64],
    pub(crate) count: usize,
    // how many of them are done: every leg into them was looked at
    pub(crate) done: usize,
    // the label of each station
    pub(crate) labels: [Option<Label>; 64],
}

impl Labels {
    // Only the goal has a label.
    pub(crate) fn start(goal: u8) -> Labels
        requires { goal < 64 }
        ensures { result ≡ first_label goal }
    {
        let mut line = [0; 64];
        line[0] = goal;
        let mut labels = [None; 64];
        labels[usize::from(goal)] = Some(Label { hops: 0, first: 0 });
        Labels {
            line,
            count: 1,
            done: 0,
            labels,
        }
    }

    // Whether a label is better than the one that a station has, or the station has none.
    pub(crate) fn improves(&self, station: u8, label: Label) -> bool
        requires station { station < 64 }
        requires few { label.hops ≤ 63 }
        ensures { result ≡ improves self.now station label }
    {
        self.labels[usize::from(station)].is_none_or(|old| label < old)
    }

    // Gives a station a label, its first or a better one.
    pub(crate) fn put(&mut self, station: u8, label: Label)
        requires station { station < 64 }
        requires room { unlabelled self.old station ≡ true → self.old.count < 64 }
        ensures { self.new ≡ put_label self.old station label }
    {
        let place = usize::from(station);
        if self.labels[place].is_none() {
            self.line[self.count] = station;
            self.count += 1;
        }
        self.labels[place] = Some(label);
    }
}
