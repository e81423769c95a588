// A route in fixed storage.
ghost use Rattle.std.specs.Prelude.{◌≡◌, ◌≤◌, [], ◌∷◌, ◌++◌, length, if◌then◌else◌, nat_lt};

/// Leg numbers from the front, at most 63: as many as lead from one of 64 stations to another without a loop.
// A row with a count beside it, since nothing is allocated. It has no model: one that forgets what stands past the count
// could not give the fields back, as `Copy` asks.
#[derive(Clone, Copy, Debug)]
pub struct LegList {
    legs: [u16; 63],
    len: u8,
    ghost short: { len ≤ 63 },
}

impl LegList {
    ghost use Rattle.search_types.specs.Legs.{legs_of};

    /// No leg.
    pub fn new() -> LegList
        ensures { legs_of result ≡ [] }
    {
        LegList {
            legs: [0; 63],
            len: 0,
        }
    }

    /// One leg more at the end, unless there are 63. Whether there was room is a `bool`, as std's sets answer: no value
    /// stands beside it.
    pub fn push(&mut self, number: u16) -> bool
        ensures answer { result ≡ nat_lt (length (legs_of self.old)) 63 }
        ensures legs { legs_of self.new ≡ (if nat_lt (length (legs_of self.old)) 63 then legs_of self.old ++ number ∷ [] else legs_of self.old) }
    {
        if self.len >= 63 {
            return false;
        }
        self.legs[usize::from(self.len)] = number;
        self.len += 1;
        true
    }

    /// The leg numbers, in order.
    pub fn legs(&self) -> &[u16]
        ensures { result.now ≡ legs_of self.now }
    {
        &self.legs[..usize::from(self.len)]
    }
}
