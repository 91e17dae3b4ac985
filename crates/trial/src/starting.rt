ghost use Rattle.std.specs.Prelude.{◌≡◌, ℕ, ◌<◌};
ghost use Rattle.task.specs.Tables.{entry_of, entry_at};
ghost use Rattle.policy.specs.Sets.{left_of};
ghost use Rattle.trial.specs.Places.{opens};
ghost use Rattle.trial.specs.Trials.{Starts};

use crate::cycle::{hyperperiod, last_offset};
use crate::trial::Trial;
use task::task::Task;

/// What is left at instant 0 of the job in a place.
fn first_job(place: &Option<Task>) -> u16
    ensures { result ≡ opens (entry_of place.now) 0 0 }
{
    match place {
        Some(task) if task.offset() == 0 => task.runtime(),
        _ => 0,
    }
}

/// What is left at instant 0 of each job.
fn first_jobs(tasks: &[Option<Task>; 32]) -> [u16; 32]
    ensures { (i : ℕ) → i < 32 → left_of result i ≡ opens (entry_at tasks.now i) 0 0 }
{
    std::array::from_fn(
        |i| -> u16
            requires { i < 32 }
            ensures { result ≡ opens (entry_at tasks.entry.now i) 0 0 }
        { first_job(&tasks[i]) },
    )
}

impl Trial {
    /// A trial of the tasks at instant 0, or nothing where their hyperperiod is above the longest.
    pub fn start(tasks: &[Option<Task>; 32], cpus: u8) -> Option<Trial>
        ensures { Starts (entry_at tasks.now) cpus result }
    {
        let span = hyperperiod(tasks)?;
        let start = last_offset(tasks);
        let left = first_jobs(tasks);
        let next = if start == 0 { span } else { start };
        Some(Trial {
            cpus,
            start,
            span,
            instant: 0,
            last: 0,
            next: u64::from(next),
            left,
            saved: left,
            ran: 0,
        })
    }

    /// The instant that the trial is at.
    pub fn instant(&self) -> u64
        ensures { result ≡ self.now.instant }
    {
        self.instant
    }

    /// The tasks that ran in the last slot, a bit for each; 0 before any slot.
    pub fn ran(&self) -> u32
        ensures { result ≡ self.now.ran }
    {
        self.ran
    }
}
