ghost use Rattle.std.specs.Prelude.{◌≡◌};
ghost use Rattle.task.specs.Names.{is_name};
ghost use Rattle.task.specs.Rules.{outside, bears, cpus_refusal, times_refusal, Answers};
ghost use Rattle.task.specs.Tables.{entries};

use crate::entry::Entry;
use crate::refusal::Refusal;
use crate::task::Task;

// Whether n is 0 or above the limit
fn is_outside(n: u16, limit: u16) -> bool
    ensures { result ≡ outside n limit }
{
    !(1..=limit).contains(&n)
}

/// Whether a number of CPUs is from 1 to 8, and if not, the refusal.
pub fn check_cpus(cpus: u8) -> Result<(), Refusal>
    ensures { Answers (cpus_refusal cpus) result }
{
    if is_outside(u16::from(cpus), 8) {
        return Err(Refusal::CpusOutOfRange);
    }
    Ok(())
}

// Whether the bytes can be a name: each is from 20 to 7E (hexadecimal), and the first is no space
pub(crate) fn fits_name(name: &[u8; 8]) -> bool
    ensures { result ≡ is_name name.now }
{
    name[0] != b' ' && name.iter().all(|b| (0x20..=0x7e).contains(b))
}

// Whether some task bears the name
pub(crate) fn bears_name(tasks: &[Option<Task>; 32], name: &[u8; 8]) -> bool
    ensures { result ≡ bears (entries tasks.now) name.now }
{
    tasks
        .iter()
        .flatten()
        .any(|task| task.figures.name == *name)
}

// The times of an entry, the period first
pub(crate) fn check_times(entry: &Entry) -> Result<(), Refusal>
    ensures { Answers (times_refusal entry.now) result }
{
    if is_outside(entry.period, 60000) {
        return Err(Refusal::PeriodOutOfRange);
    }
    if is_outside(entry.deadline, entry.period) {
        return Err(Refusal::DeadlineOutOfRange);
    }
    if is_outside(entry.runtime, entry.deadline) {
        return Err(Refusal::RuntimeOutOfRange);
    }
    if entry.offset > 1_000_000 {
        return Err(Refusal::OffsetTooLarge);
    }
    Ok(())
}
