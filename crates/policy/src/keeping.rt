ghost use Rattle.std.specs.Prelude.{◌≡◌, true, not, ◌&&◌, nat_lt};
ghost use Rattle.schedule.specs.Counting.{count_below};
ghost use Rattle.policy.specs.Dispatch.{ahead_of, count_ahead};
ghost use Rattle.policy.specs.Members.{has, Within};
ghost use Rattle.policy.specs.Slots.{keys_of, LastTo, Runs};

use crate::choosing::{Job, stands_before};
use crate::policy::Policy;
use crate::slot::Slot;
use crate::walk::members_of;

impl<P: Policy> Slot<'_, P> {
    // Whether fewer active jobs than there are CPUs stand before the job, where `known` of those outside of `rest` do.
    fn few_ahead(&self, job: &Job<P::Key>, known: u8, rest: u32) -> bool
        requires rest { Within rest self.now.jobs }
        requires known { known ≡ count_below 32 (λ j. ahead_of (P.Policy.precedes self.now.policy.now) (keys_of P.Policy.keyed self.now j) j job.now.key job.now.place && not (has rest j)) }
        ensures { result ≡ nat_lt (count_ahead (P.Policy.precedes self.now.policy.now) (keys_of P.Policy.keyed self.now) job.now.key job.now.place) self.now.cpus }
    {
        let tasks = self.tasks; // a name of its own, by which the table's length is known
        let mut ahead = known;
        for j in members_of(rest) {
            if ahead >= self.cpus {
                return false;
            }
            if let Some(task) = &tasks[j]
                && stands_before(self.policy, &self.job_of(task, j), job)
            {
                ahead += 1;
            }
        }
        ahead < self.cpus
    }

    /// Whether the jobs of the set, of which the last and the count are given, are known to run by one pass: they are as many
    /// as there are CPUs, and the last of them has fewer active jobs before it than there are CPUs, which then are the others
    /// of the set.
    pub(crate) fn keeps(&self, set: u32, last: &Option<Job<P::Key>>, count: u8) -> bool
        requires within { Within set self.now.jobs }
        requires last { LastTo P.Policy.keyed P.Policy.precedes self.now set 32 last.now }
        requires count { count ≡ count_below 32 (has set) }
        ensures { result ≡ true → Runs P.Policy.keyed P.Policy.precedes self.now set }
    {
        match last {
            Some(last) if count == self.cpus => {
                self.few_ahead(last, count - 1, self.jobs & !set)
            }
            _ => false,
        }
    }
}
