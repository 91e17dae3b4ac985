ghost use Rattle.std.specs.Prelude.{◌≡◌};
ghost use Rattle.task.specs.Refusals.{number_of};

/// Why a call is turned down. specs/Refusals.antt gives each case its number.
#[derive(Clone, Copy, PartialEq, Eq, Debug)]
pub enum Refusal {
    /// It has already started.
    AlreadyStarted = 1,
    /// It has not started yet.
    NotStarted = 2,
    /// The number of CPUs is 0 or above 8.
    CpusOutOfRange = 8,
    /// The task number is above 31.
    NumberTooLarge = 9,
    /// Another task has the number.
    NumberTaken = 10,
    /// No task has the number.
    NoSuchTask = 11,
    /// The name begins with a space, or has a byte outside 20 to 7E (hexadecimal).
    BadName = 12,
    /// Another task bears the name.
    NameTaken = 13,
    /// The period is 0 or above 60,000.
    PeriodOutOfRange = 14,
    /// The deadline is 0 or above the period.
    DeadlineOutOfRange = 15,
    /// The runtime is 0 or above the deadline.
    RuntimeOutOfRange = 16,
    /// The offset is above 1,000,000.
    OffsetTooLarge = 17,
    /// There are no tasks.
    NoTasks = 18,
    /// The hyperperiod is too long.
    HyperperiodTooLong = 19,
    /// The threshold is not one that is taken.
    BadThreshold = 20,
    /// The buffer is too short.
    BufferTooShort = 21,
}

impl Refusal {
    /// The number that the refusal goes by.
    pub fn number(&self) -> u8
        ensures { result ≡ number_of self.now }
    {
        *self as u8
    }
}
