/// What is handed in for a task: figures as they come, within no bounds but those of their types.
#[derive(Clone, Copy)]
pub struct Entry {
    /// The task number.
    pub number: u8,
    /// The name, eight bytes.
    pub name: [u8; 8],
    /// The rank, which the rank policy orders by.
    pub rank: u8,
    /// O: the instant of the first release.
    pub offset: u32,
    /// C: how many slots a job runs.
    pub runtime: u16,
    /// D: how many slots after its release a job has to be finished.
    pub deadline: u16,
    /// T: how many slots lie between two releases.
    pub period: u16,
}
