// Where a route leads from and to.
ghost use Rattle.std.specs.Prelude.{◌≡◌};
ghost use Rattle.std.specs.Result.{result_err};
ghost use Rattle.search_types.specs.Ends.{ends_refusal};

use network::refusal::Refusal;

/// Two stations by number, which a network need not have.
#[derive(Clone, Copy, Debug, PartialEq, Eq)]
pub struct Ends {
    pub start: u8,
    pub goal: u8,
}

impl Ends {
    /// Refuses ends that a network with so many stations cannot have a route between.
    pub fn check(self, stations: u8) -> Result<(), Refusal>
        ensures { result_err result ≡ ends_refusal stations self.start self.goal }
    {
        if self.start >= stations || self.goal >= stations {
            return Err(Refusal::NoSuchStation);
        }
        if self.start == self.goal {
            return Err(Refusal::SameStation);
        }
        Ok(())
    }
}
