ghost use Rattle.std.specs.Prelude.{◌≡◌, take, IfOk, Ok};
ghost use Rattle.task.specs.Tables.{entries};
ghost use Rattle.sheet.specs.Decoding.{Decodes};
ghost use Rattle.bench.specs.declared.mode.Mode.TheVariants.{Open};
ghost use Rattle.bench.specs.Calls.{entering, withdrawing, saving};
ghost use Rattle.bench.specs.EachCall.{Step, TakesSheets, LoadsBack};
ghost use Rattle.bench.specs.Steps.{view, New, Loads};

use crate::bench::Bench;
use crate::mode::Mode;
use policy::policy::Policy;
use sheet::decode::decode;
use sheet::encode::encode;
use sheet::fault::{LoadFault, Placed};
use task::entry::Entry;
use task::refusal::Refusal;
use task::table::Table;

impl<P: Policy> Bench<P> {
    /// A new bench with this policy: open, and without tasks.
    pub fn new(policy: P) -> Bench<P>
        ensures { New policy (view result) }
    {
        Bench {
            policy,
            table: Table::new(),
            mode: Mode::Open,
        }
    }

    /// Adds a task.
    pub fn enter(&mut self, entry: Entry) -> Result<(), Refusal>
        ensures { Step P.Policy.keyed P.Policy.precedes (view self.old) (entering entry) result (view self.new) }
    {
        self.mode.check_open()?;
        self.table.enter(entry)
    }

    /// Removes the task with this number. Number and name may be entered again.
    pub fn withdraw(&mut self, number: u8) -> Result<(), Refusal>
        ensures { Step P.Policy.keyed P.Policy.precedes (view self.old) (withdrawing number) result (view self.new) }
    {
        self.mode.check_open()?;
        self.table.withdraw(number)
    }

    /// Replaces the whole table by the sheet's.
    fn take_sheet(&mut self, sheet: &[u8]) -> Result<u8, LoadFault>
        ensures { Loads (view self.old) sheet.now result (view self.new) }
    {
        self.mode
            .check_open()
            .map_err(|refusal| Placed { refusal, place: 0 })?;
        let (cpus, table) = decode(sheet)?;
        self.table = table;
        Ok(cpus)
    }

    /// Replaces the whole table by the sheet's, and answers the sheet's CPU number.
    pub fn load(&mut self, sheet: &[u8]) -> Result<u8, LoadFault>
        ensures step { Loads (view self.old) sheet.now result (view self.new) }
        ensures exactly_sheets { self.old.mode ≡ Open → TakesSheets sheet.now result }
    {
        self.take_sheet(sheet)
    }

    /// Writes the table as a sheet.
    fn write_sheet(&self, cpus: u8, buffer: &mut [u8]) -> Result<usize, Refusal>
        ensures step { Step P.Policy.keyed P.Policy.precedes (view self.now) (saving cpus buffer.old) (record { answer = result; buffer = buffer.new }) (view self.now) }
        ensures decodes { IfOk result (λ n. Decodes (take n buffer.new) (Ok (cpus, entries self.now.table.tasks))) }
    {
        self.mode.check_open()?;
        encode(&self.table, cpus, buffer)
    }

    /// Writes the table as a sheet for so many CPUs from the buffer's beginning, in rising task numbers, and answers its
    /// length. What it writes, `load` reads back.
    pub fn save(&mut self, cpus: u8, buffer: &mut [u8]) -> Result<usize, Refusal>
        ensures step { Step P.Policy.keyed P.Policy.precedes (view self.old) (saving cpus buffer.old) (record { answer = result; buffer = buffer.new }) (view self.new) }
        ensures unchanged { self.new ≡ self.old }
        ensures loads_back { IfOk result (λ n. LoadsBack P (take n buffer.new) cpus self.old.table.tasks) }
    {
        self.write_sheet(cpus, buffer)
    }
}
