ghost use Rattle.std.specs.Prelude.{◌≡◌, Some};
ghost use Rattle.bench.specs.Lines.{verdict_text};
ghost use Rattle.bench.specs.Modes.{is_decided};

use std::fmt;

/// What a bench tells of a table.
#[derive(Clone, Copy, PartialEq, Eq, Debug)]
pub enum Verdict {
    /// No job ever misses its deadline: the boundaries at these two instants agree, and no job missed before.
    Holds { first: u64, second: u64 },
    /// The first miss: the task's number, and the instant of its job's deadline.
    Missed { task: u8, instant: u64 },
    /// Nothing is decided at this instant.
    Running { instant: u64 },
}

impl Verdict {
    /// Whether the verdict is not "running".
    pub fn is_decided(&self) -> bool
        ensures { result ≡ is_decided self.now }
    {
        !matches!(self, Verdict::Running { .. })
    }
}

/// The verdict's line without its end.
impl fmt::Display for Verdict {
    ghost output = { λ v. Some (verdict_text v) };

    fn fmt<W: fmt::Write>(&self, f: &mut fmt::Formatter<W>) -> fmt::Result {
        match self {
            Verdict::Holds { first, second } => write!(f, "HOLDS {first} {second}"),
            Verdict::Missed { task, instant } => write!(f, "MISSED {task} {instant}"),
            Verdict::Running { instant } => write!(f, "RUNNING {instant}"),
        }
    }
}
