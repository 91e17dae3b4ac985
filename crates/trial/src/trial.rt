/// One trial of a table: where it stands, and what is left of each job there.
#[derive(Clone, Copy)]
pub struct Trial {
    /// How many CPUs there are.
    pub(crate) cpus: u8,
    /// Omax, the instant of boundary 0.
    pub(crate) start: u32,
    /// P, the hyperperiod.
    pub(crate) span: u32,
    /// How many slots were made.
    pub(crate) instant: u64,
    /// The latest boundary.
    pub(crate) last: u64,
    /// The boundary to come.
    pub(crate) next: u64,
    /// What is left of each task's job.
    // stays: arrays of their own, since a boundary copies the first whole and compares the two.
    pub(crate) left: [u16; 32],
    /// The configuration at the latest boundary.
    pub(crate) saved: [u16; 32],
    /// The tasks that ran in the last slot, a bit for each.
    pub(crate) ran: u32,
}

/// What a run of slots came to.
// stays: three cases side by side. An Option of the last two would be matched in two layers.
#[derive(Clone, Copy, PartialEq, Eq, Debug)]
pub enum Outcome {
    /// Nothing was decided.
    Ran,
    /// The job of this task missed its deadline.
    Missed(u8),
    /// The boundaries at these two instants agree.
    Agreed(u64, u64),
}
