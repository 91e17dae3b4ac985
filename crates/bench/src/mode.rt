ghost use Rattle.std.specs.Prelude.{◌≡◌, true};
ghost use Rattle.task.specs.declared.refusal.Refusal.TheVariants.{AlreadyStarted};
ghost use Rattle.bench.specs.declared.mode.Mode.TheVariants.{Open};
ghost use Rattle.bench.specs.Modes.{is_started, while_started, verdict_of, set_of};

use crate::verdict::Verdict;
use task::refusal::Refusal;
use trial::trial::Trial;

/// Where a bench stands.
#[derive(Clone, Copy)]
pub enum Mode {
    /// The table may be changed.
    Open,
    /// A trial goes on.
    Running(Trial),
    /// The trial ended: the boundaries at these two instants agree.
    Held(Trial, u64, u64),
    /// The trial ended: the task's job missed its deadline at the instant.
    Missed(Trial, u8, u64),
}

impl Mode {
    /// Refuses a call that wants an open bench, unless it is open.
    pub(crate) fn check_open(&self) -> Result<(), Refusal>
        ensures { elim result [ Ok _ ↦ self.now ≡ Open | Err e ↦ (is_started self.now ≡ true) × (e ≡ AlreadyStarted) ] }
    {
        match self {
            Mode::Open => Ok(()),
            _ => Err(Refusal::AlreadyStarted),
        }
    }

    /// The verdict, unless the bench is open.
    pub(crate) fn verdict(&self) -> Option<Verdict>
        ensures { result ≡ while_started self.now (verdict_of self.now) }
    {
        match self {
            Mode::Open => None,
            Mode::Running(trial) => Some(Verdict::Running {
                instant: trial.instant(),
            }),
            Mode::Held(_, first, second) => Some(Verdict::Holds {
                first: *first,
                second: *second,
            }),
            Mode::Missed(_, task, instant) => Some(Verdict::Missed {
                task: *task,
                instant: *instant,
            }),
        }
    }

    /// The tasks that ran in the last slot, a bit for each, unless the bench is open.
    pub(crate) fn set(&self) -> Option<u32>
        ensures { result ≡ while_started self.now (set_of self.now) }
    {
        match self {
            Mode::Open => None,
            Mode::Running(trial) | Mode::Held(trial, ..) | Mode::Missed(trial, ..) => {
                Some(trial.ran())
            }
        }
    }
}
