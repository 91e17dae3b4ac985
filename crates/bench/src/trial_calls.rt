ghost use Rattle.std.specs.Prelude.{◌≡◌, ℕ, ◌+◌};
ghost use Rattle.task.specs.Tables.{entry_at};
ghost use Rattle.bench.specs.Calls.{running_for, halting, asking_verdict, asking_set, asking_line, Log};
ghost use Rattle.bench.specs.EachCall.{Step};
ghost use Rattle.bench.specs.Judged.{SinceStart, OnlyVerdict, JudgedAnswer};
ghost use Rattle.bench.specs.Law.{Made, Lawful, Law};
ghost use Rattle.bench.specs.Modes.{is_started, verdict_of};
ghost use Rattle.bench.specs.Steps.{view, Starts, RanFor, Lines, plan_for, Begins, decided};

use crate::bench::Bench;
use crate::lines::LINE_LENGTH;
use crate::mode::Mode;
use crate::verdict::Verdict;
use policy::policy::Policy;
use task::checks::check_cpus;
use task::refusal::Refusal;
use trial::cycle::count;
use trial::trial::{Outcome, Trial};

impl<P: Policy> Bench<P> {
    /// The trial that a start would put the bench into.
    fn begin(&self, cpus: u8) -> Result<Trial, Refusal>
        ensures { Begins (is_started self.now.mode) (entry_at self.now.table.tasks) cpus result }
    {
        self.mode.check_open()?;
        check_cpus(cpus)?;
        if count(self.table.tasks()) == 0 {
            return Err(Refusal::NoTasks);
        }
        Trial::start(self.table.tasks(), cpus).ok_or(Refusal::HyperperiodTooLong)
    }

    /// Puts the bench at instant 0, on so many CPUs.
    pub fn start(&mut self, cpus: u8) -> Result<(), Refusal>
        ensures { Starts (view self.old) cpus result (view self.new) }
    {
        let outcome = self.begin(cpus);
        // stays: a match on both, so that what came of it and the mode that it moves stand in one arm.
        match (outcome, &mut self.mode) {
            (Ok(trial), mode @ Mode::Open) => {
                *mode = Mode::Running(trial);
                Ok(())
            }
            // never comes: a trial begins only where the bench is open
            (Ok(_), _) => Err(Refusal::AlreadyStarted),
            (Err(refusal), _) => Err(refusal),
        }
    }

    /// Ends a trial that its outcome decides.
    fn decide(&mut self, outcome: Outcome)
        ensures policy { self.new.policy ≡ self.old.policy }
        ensures table { self.new.table ≡ self.old.table }
        ensures mode { self.new.mode ≡ decided outcome self.old.mode }
    {
        // stays: a match on both, since only a trial that goes on can end, and it ends in the mode that holds it.
        match (outcome, &mut self.mode) {
            (Outcome::Missed(task), Mode::Running(trial)) => {
                let ended = *trial;
                self.mode = Mode::Missed(ended, task, ended.instant());
            }
            (Outcome::Agreed(first, second), Mode::Running(trial)) => {
                let ended = *trial;
                self.mode = Mode::Held(ended, first, second);
            }
            (_, _) => {}
        }
    }

    /// Makes the slots of a run.
    fn advance(&mut self, n: u32) -> Result<Verdict, Refusal>
        ensures { RanFor P.Policy.keyed P.Policy.precedes (view self.old) n result (view self.new) }
    {
        let outcome = match &mut self.mode {
            Mode::Running(trial) => trial.run(&self.policy, self.table.tasks(), n),
            _ => Outcome::Ran,
        };
        self.decide(outcome);
        self.mode.verdict().ok_or(Refusal::NotStarted)
    }

    /// Makes n slots, but stops at the first instant whose verdict is not "running"; none on a decided bench. Answers the
    /// verdict.
    pub fn run(&mut self, n: u32) -> Result<Verdict, Refusal>
        ensures step { RanFor P.Policy.keyed P.Policy.precedes (view self.old) n result (view self.new) }
        ensures judged { (m before : ℕ) → SinceStart (plan_for P.Policy.keyed P.Policy.precedes (view self.old)) (entry_at self.old.table.tasks) m before self.old.mode → JudgedAnswer (plan_for P.Policy.keyed P.Policy.precedes (view self.old)) m (before + n) result }
        ensures law { (p : P) (log : Log) → Made P.Policy.keyed P.Policy.precedes p log (view self.old) → Lawful (P.Policy.keyed p) (P.Policy.precedes p) log (running_for n) result }
    {
        self.advance(n)
    }

    /// Opens the bench again, and keeps the table.
    pub fn halt(&mut self) -> Result<(), Refusal>
        ensures { Step P.Policy.keyed P.Policy.precedes (view self.old) halting result (view self.new) }
    {
        // stays: a match on the mode that is changed, and not a question before it.
        match &mut self.mode {
            Mode::Open => Err(Refusal::NotStarted),
            mode => {
                *mode = Mode::Open;
                Ok(())
            }
        }
    }

    /// The verdict, unless the bench is open.
    fn told(&self) -> Result<Verdict, Refusal>
        ensures { Step P.Policy.keyed P.Policy.precedes (view self.now) asking_verdict result (view self.now) }
    {
        self.mode.verdict().ok_or(Refusal::NotStarted)
    }

    /// The verdict.
    pub fn verdict(&self) -> Result<Verdict, Refusal>
        ensures step { Step P.Policy.keyed P.Policy.precedes (view self.now) asking_verdict result (view self.now) }
        ensures law { (p : P) (log : Log) → Made P.Policy.keyed P.Policy.precedes p log (view self.now) → Lawful (P.Policy.keyed p) (P.Policy.precedes p) log asking_verdict result }
        ensures every_call { Law P.Policy.keyed P.Policy.precedes }
    {
        self.told()
    }

    /// The running set and its count, unless the bench is open.
    fn shown(&self) -> Result<(u32, u32), Refusal>
        ensures { Step P.Policy.keyed P.Policy.precedes (view self.now) asking_set result (view self.now) }
    {
        let set = self.mode.set().ok_or(Refusal::NotStarted)?;
        // stays: a tuple, since the caller takes the word and its count apart at once.
        Ok((set, set.count_ones()))
    }

    /// The running set of the last slot made since the start, a bit for each task, and how many ran: both 0 before any slot.
    pub fn set(&self) -> Result<(u32, u32), Refusal>
        ensures step { Step P.Policy.keyed P.Policy.precedes (view self.now) asking_set result (view self.now) }
        ensures law { (p : P) (log : Log) → Made P.Policy.keyed P.Policy.precedes p log (view self.now) → Lawful (P.Policy.keyed p) (P.Policy.precedes p) log asking_set result }
    {
        self.shown()
    }

    /// Writes the verdict's line.
    fn write_line(&self, buffer: &mut [u8]) -> Result<usize, Refusal>
        ensures { Lines (view self.now) buffer.old buffer.new result }
    {
        let verdict = self.mode.verdict().ok_or(Refusal::NotStarted)?;
        if buffer.len() < LINE_LENGTH {
            return Err(Refusal::BufferTooShort);
        }
        Ok(verdict.write(buffer))
    }

    /// Writes the verdict's line from the buffer's beginning, and answers its length.
    pub fn line(&mut self, buffer: &mut [u8]) -> Result<usize, Refusal>
        ensures step { Lines (view self.old) buffer.old buffer.new result }
        ensures unchanged { self.new ≡ self.old }
        ensures judged { (m n : ℕ) → SinceStart (plan_for P.Policy.keyed P.Policy.precedes (view self.old)) (entry_at self.old.table.tasks) m n self.old.mode → OnlyVerdict (plan_for P.Policy.keyed P.Policy.precedes (view self.old)) m n (verdict_of self.old.mode) }
        ensures law { (p : P) (log : Log) → Made P.Policy.keyed P.Policy.precedes p log (view self.old) → Lawful (P.Policy.keyed p) (P.Policy.precedes p) log (asking_line buffer.old) (record { answer = result; buffer = buffer.new }) }
    {
        self.write_line(buffer)
    }
}
