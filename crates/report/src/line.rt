/// The line that is written for a sheet under one policy, with its length, in which its end counts.
#[derive(Clone, Copy, PartialEq, Eq, Debug)]
pub enum Line {
    /// The verdict's line.
    OfVerdict { length: usize },
    /// The line of the fault for which the sheet or the start is refused.
    OfFault { length: usize },
}
