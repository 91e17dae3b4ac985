ghost use Rattle.task.specs.Tables.{entry_at};
ghost use Rattle.policy.specs.Dispatch.{Asking};
ghost use Rattle.policy.specs.Settled.{asking_prop};

use task::task::Task;

/// The jobs that ask for the slot from an instant, a bit for each task, and how many CPUs there are for them. `released`
/// has the instants that the jobs' ages count from. Each job of the set is a task's, of the age that the task's latest job has.
#[derive(Drop)]
pub struct Slot<'a, P> {
    /// The policy that orders the jobs.
    pub policy: &'a P,
    /// The tasks, each in the place of its number.
    pub tasks: &'a [Option<Task>; 32],
    /// For each place, the instant that the age of its job counts from.
    pub released: &'a [u64; 32],
    /// The active jobs, a bit for each task.
    pub jobs: u32,
    /// The instant that the slot begins at.
    pub instant: u64,
    /// How many CPUs there are.
    pub cpus: u8,
    ghost asking: { Asking (entry_at tasks.now) jobs released.now instant } by { asking_prop (entry_at tasks.now) jobs released.now instant },
}
