ghost use Rattle.std.specs.Prelude.{◌≡◌, ◌≤◌, true, length};
ghost use Rattle.task.specs.Names.{is_name};

use crate::entry::Entry;

/// A task: an entry whose figures are within their bounds. Every value of this type keeps them.
#[derive(Clone, Copy)]
pub struct Task {
    pub(crate) figures: Entry,
    ghost numbered: { figures.number ≤ 31 },
    ghost eight: { length figures.name ≡ 8 },
    ghost named: { is_name figures.name ≡ true },
    ghost ranked: { figures.rank ≤ 255 },
    ghost begins: { figures.offset ≤ 1000000 },
    ghost runs: { 1 ≤ figures.runtime },
    ghost fits: { figures.runtime ≤ figures.deadline },
    ghost constrained: { figures.deadline ≤ figures.period },
    ghost bounded: { figures.period ≤ 60000 },
}

impl Task {
    /// The task number, from 0 to 31.
    pub fn number(&self) -> u8
        ensures { (result ≡ self.now.figures.number) × (result ≤ 31) }
    {
        self.figures.number
    }

    /// The name.
    pub fn name(&self) -> [u8; 8]
        ensures { (result ≡ self.now.figures.name) × (is_name result ≡ true) }
    {
        self.figures.name
    }

    /// The rank.
    pub fn rank(&self) -> u8
        ensures { result ≡ self.now.figures.rank }
    {
        self.figures.rank
    }

    /// O, at most 1,000,000.
    pub fn offset(&self) -> u32
        ensures { (result ≡ self.now.figures.offset) × (result ≤ 1000000) }
    {
        self.figures.offset
    }

    /// C, from 1 to D.
    pub fn runtime(&self) -> u16
        ensures { (result ≡ self.now.figures.runtime) × (1 ≤ result) × (result ≤ 60000) }
    {
        self.figures.runtime
    }

    /// D, from C to T.
    pub fn deadline(&self) -> u16
        ensures { (result ≡ self.now.figures.deadline) × (1 ≤ result) × (result ≤ 60000) }
    {
        self.figures.deadline
    }

    /// T, from D to 60,000.
    pub fn period(&self) -> u16
        ensures { (result ≡ self.now.figures.period) × (1 ≤ result) × (result ≤ 60000) }
    {
        self.figures.period
    }
}
