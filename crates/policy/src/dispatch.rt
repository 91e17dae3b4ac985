ghost use Rattle.std.specs.Prelude.{◌≡◌, min, count_ones};
ghost use Rattle.schedule.specs.Counting.{count_below};
ghost use Rattle.schedule.specs.Schedule.{active, has_cpu};
ghost use Rattle.task.specs.Tables.{entry_at};
ghost use Rattle.policy.specs.Dispatch.{is_active};
ghost use Rattle.policy.specs.Plans.{plan_of};
ghost use Rattle.policy.specs.Sets.{left_of, word_of};
ghost use Rattle.policy.specs.Slots.{Runs};

use crate::policy::Policy;
use crate::release::latest_releases;
use crate::sets::set_of;
use crate::slot::Slot;
use task::task::Task;

/// The set of the active jobs, a bit for each task.
pub fn active_set(tasks: &[Option<Task>; 32], left: &[u16; 32]) -> u32
    ensures { result ≡ word_of (is_active (entry_at tasks.now) left.now) 32 }
{
    set_of(|i| left[i] > 0 && tasks[i].is_some())
}

impl<P: Policy> Slot<'_, P> {
    /// The set of the jobs that run, a bit for each task: each active job with fewer active jobs before it than there are
    /// CPUs. The jobs of `ran` that are active keep the CPUs, if they are as many as there are CPUs and no other active job
    /// stands before one of them, which one pass tells; and else the choice begins with them, if there are CPUs for all of
    /// them, and goes through the others. The answer is the same for any `ran`: those that ran in the slot before are the best
    /// to hand in. Where there are CPUs for all active jobs nobody need be asked, so that who knows it does not ask.
    pub fn running(&self, ran: u32) -> u32
        ensures { Runs P.Policy.keyed P.Policy.precedes self.now result }
    {
        let kept = self.jobs & ran;
        let (last, count) = self.last_of(kept);
        if self.keeps(kept, &last, count) {
            return kept;
        }
        self.contest(kept, last, count)
    }
}

/// The set of the jobs that run in the slot from `instant`, a bit for each task: each active job with fewer than `cpus`
/// active jobs before it.
pub fn running_set<P: Policy>(
    policy: &P,
    tasks: &[Option<Task>; 32],
    left: &[u16; 32],
    instant: u64,
    cpus: u8,
) -> u32
    ensures set { result ≡ word_of (has_cpu (plan_of (P.Policy.keyed policy.now) (P.Policy.precedes policy.now) (entry_at tasks.now)) cpus instant (left_of left.now)) 32 }
    ensures count { count_ones result ≡ min cpus (count_below 32 (active (plan_of (P.Policy.keyed policy.now) (P.Policy.precedes policy.now) (entry_at tasks.now)) (left_of left.now))) }
{
    let jobs = active_set(tasks, left);
    let released = &latest_releases(tasks, instant);
    let slot = Slot {
        policy,
        tasks,
        released,
        jobs,
        instant,
        cpus,
    };
    if jobs.count_ones() <= u32::from(cpus) {
        return jobs;
    }
    slot.running(0)
}
