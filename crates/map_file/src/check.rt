// The records of a file, tested one after the other.
ghost use Rattle.std.specs.Prelude.{◌≡◌, ◌-◌, ◌<◌, length, OnOk};
ghost use Rattle.map_format.specs.Reading.{end_of, run, notices};
ghost use Rattle.map_file.specs.Steps.{behind};

use crate::read::due_record;
use crate::walk::Records;
use map_format::fault::Fault;
use map_format::kind::Kind;

impl Records<'_> {
    // Tests the record of this kind that is due here, and goes behind it.
    fn pass(&mut self, kind: Kind, stations: u8) -> Result<(), Fault>
        ensures end { behind result self.new ≡ end_of (run kind stations self.old.bytes.now 1 self.old.at) }
        ensures onward { OnOk result (self.old.at < self.new.at) }
        ensures same { self.new.bytes ≡ self.old.bytes }
    {
        let place = self.at;
        let (_, end) = due_record(self.bytes, place, kind, stations).map_err(|why| Fault {
            why,
            place,
        })?;
        self.at = end;
        Ok(())
    }

    // Tests so many records of one kind, and goes behind them.
    pub(crate) fn pass_run(&mut self, kind: Kind, stations: u8, count: u16) -> Result<(), Fault>
        ensures end { behind result self.new ≡ end_of (run kind stations self.old.bytes.now count self.old.at) }
        ensures same { self.new.bytes ≡ self.old.bytes }
    {
        for _ in 0..count {
            self.pass(kind, stations)?;
        }
        Ok(())
    }

    // Tests notices up to the end of the file.
    pub(crate) fn pass_notices(&mut self, stations: u8) -> Result<(), Fault>
        ensures { behind result self.new ≡ end_of (notices stations self.old.bytes.now (length self.old.bytes.now - self.old.at) self.old.at) }
    {
        // no iterator hands on records that are tested and the fault that ends them
        while self.at < self.bytes.len() {
            self.pass(Kind::Notice, stations)?;
        }
        Ok(())
    }
}
