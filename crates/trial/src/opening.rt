ghost use Rattle.std.specs.Prelude.{◌≡◌, ◌-◌, ◌<◌, Some};
ghost use Rattle.policy.specs.Releases.{Released};
ghost use Rattle.trial.specs.Places.{releases, is_due, opens, misses};

use task::task::Task;

/// A task at an instant, and its latest release before then, or its offset where it had released no job.
#[derive(Clone, Copy)]
pub(crate) struct Turn<'a> {
    /// The task.
    pub(crate) task: &'a Task,
    /// Its latest release before the instant.
    pub(crate) released: u64,
    /// The instant.
    pub(crate) instant: u64,
    ghost later: { 0 < instant },
    ghost latest: { Released task.now.figures (instant - 1) released },
}

impl<'a> Turn<'a> {
    /// Whether a job of the task is released.
    pub(crate) fn is_release(&self) -> bool
        ensures { result ≡ releases (Some self.now.task.now.figures) self.now.instant }
    {
        if self.instant <= self.released {
            self.instant == self.released
        } else {
            self.instant - self.released == u64::from(self.task.period())
        }
    }

    /// Whether a job of the task comes to its deadline.
    pub(crate) fn is_deadline(&self) -> bool
        ensures { result ≡ is_due (Some self.now.task.now.figures) self.now.instant }
    {
        self.released < self.instant
            && self.instant - self.released == u64::from(self.task.deadline())
    }

    /// Rules 1 and 2, for the task's job with `left` slots to run.
    pub(crate) fn opens(&self, left: u16) -> u16
        ensures { result ≡ opens (Some self.now.task.now.figures) self.now.instant left }
    {
        if self.is_release() {
            self.task.runtime()
        } else if self.is_deadline() {
            0
        } else {
            left
        }
    }

    /// Whether the task's job, with `left` slots to run, misses its deadline.
    pub(crate) fn misses(&self, left: u16) -> bool
        ensures { result ≡ misses (Some self.now.task.now.figures) self.now.instant left }
    {
        left > 0 && self.is_deadline()
    }

    /// The task's latest release, one at the instant itself included.
    pub(crate) fn renewed(&self) -> u64
        ensures { Released self.now.task.now.figures self.now.instant result }
    {
        if self.released < self.instant
            && self.instant - self.released >= u64::from(self.task.period())
        {
            self.instant
        } else {
            self.released
        }
    }
}
