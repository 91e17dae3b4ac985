ghost use Rattle.std.specs.Prelude.{◌≡◌, ◌+◌, ◌<◌, ◌≤◌, true, ◌⊎◌, None, Some, MatchOption, slice_index};
ghost use Rattle.schedule.specs.Counting.{count_below};
ghost use Rattle.policy.specs.Dispatch.{since};
ghost use Rattle.policy.specs.Members.{has, Within};
ghost use Rattle.policy.specs.Order.{stands_before};
ghost use Rattle.policy.specs.Slots.{keys_of, later_of, LastTo, RunOfMet, RunSoFar, Runs};

use crate::policy::Policy;
use crate::sets::placed;
use crate::slot::Slot;
use crate::walk::members_of;
use task::task::Task;

/// A job in a contest: the number of its task, and its key.
#[derive(Drop)]
pub(crate) struct Job<K> {
    pub(crate) place: usize,
    pub(crate) key: K,
}

// The jobs that run, as far as those of `rest` were gone through, which are all but those it began with: their set, the last
// of them, which the others stand before, and how many CPUs are free.
#[derive(Drop)]
struct Contest<K> {
    rest: u32,
    set: u32,
    last: Option<Job<K>>,
    free: u8,
}

// How many slots there are from `released` to `t`, in 32 bits.
fn age_since(released: u64, t: u64) -> u32
    ensures { result ≡ since released t }
{
    // stays: From has no cut to 32 bits, and TryFrom would have a refusal that never comes.
    (t.saturating_sub(released) % 4_294_967_296) as u32
}

/// Whether job `a` stands before job `b`. As of two keys one is always at or before the other, one comparison tells.
pub(crate) fn stands_before<P: Policy>(policy: &P, a: &Job<P::Key>, b: &Job<P::Key>) -> bool
    ensures { result ≡ stands_before (P.Policy.precedes policy.now) a.now.key a.now.place b.now.key b.now.place }
{
    if a.place < b.place {
        policy.at_or_before(&a.key, &b.key)
    } else {
        !policy.at_or_before(&b.key, &a.key)
    }
}

impl<P: Policy> Slot<'_, P> {
    /// The job of a task that is known to be in the table.
    // stays: `i < 32` is asked again and again, as a type for it would be unpacked wherever a table is read.
    pub(crate) fn job_of(&self, task: &Task, i: usize) -> Job<P::Key>
        requires { i < 32 }
        ensures place { result.place ≡ i }
        ensures key { result.key ≡ P.Policy.keyed self.now.policy.now task.now.figures (since (slice_index self.now.released.now i) self.now.instant) }
    {
        Job {
            place: i,
            key: self
                .policy
                .key(task, age_since(self.released[i], self.instant)),
        }
    }

    // The job of task `i`, if it is active.
    fn job(&self, i: usize) -> Option<Job<P::Key>>
        requires { i < 32 }
        ensures { MatchOption result (keys_of P.Policy.keyed self.now i ≡ None) (λ job. (job.place ≡ i) × (keys_of P.Policy.keyed self.now i ≡ Some job.key)) }
    {
        let tasks = self.tasks; // a name of its own, by which the table's length is known
        match &tasks[i] {
            Some(task) if (self.jobs >> i) % 2 == 1 => Some(self.job_of(task, i)),
            _ => None,
        }
    }

    // Of two jobs the one that the other stands before; the second, where there is no first.
    fn later(&self, a: Option<Job<P::Key>>, b: Job<P::Key>) -> Job<P::Key>
        ensures { result ≡ later_of (P.Policy.precedes self.now.policy.now) a b }
    {
        match a {
            Some(a) if stands_before(self.policy, &b, &a) => a,
            _ => b,
        }
    }

    /// The last of the jobs of the set, which the others stand before, if there are any, and how many they are.
    pub(crate) fn last_of(&self, set: u32) -> (Option<Job<P::Key>>, u8)
        requires { Within set self.now.jobs }
        ensures last { LastTo P.Policy.keyed P.Policy.precedes self.now set 32 result.0 }
        ensures count { result.1 ≡ count_below 32 (has set) }
    {
        let tasks = self.tasks; // a name of its own, by which the table's length is known
        let mut last = None;
        let mut count: u8 = 0;
        for i in members_of(set) {
            if let Some(task) = &tasks[i] {
                last = Some(self.later(last, self.job_of(task, i)));
                count += 1;
            }
        }
        (last, count)
    }

    // One job more: it runs where a CPU is free, or in the place of the last that runs where it stands before that one. Where
    // just the jobs below it had been gone through, just those up to it have been afterwards.
    fn admit(&self, contest: Contest<P::Key>, job: Job<P::Key>) -> Contest<P::Key>
        requires place { job.place < 32 }
        requires rest { has contest.rest job.place ≡ true }
        requires key { keys_of P.Policy.keyed self.now job.place ≡ Some job.key }
        requires so_far { RunOfMet P.Policy.keyed P.Policy.precedes self.now job.place contest }
        ensures so_far { RunOfMet P.Policy.keyed P.Policy.precedes self.now (job.place + 1) result }
        ensures rest { result.rest ≡ contest.rest }
        ensures in_turn { RunSoFar P.Policy.keyed P.Policy.precedes self.now job.place contest → RunSoFar P.Policy.keyed P.Policy.precedes self.now (job.place + 1) result }
    {
        let place = job.place;
        if contest.free > 0 {
            return Contest {
                rest: contest.rest,
                set: placed(contest.set, place, true),
                last: Some(self.later(contest.last, job)),
                free: contest.free - 1,
            };
        }
        match &contest.last {
            Some(last) if stands_before(self.policy, &job, last) => {
                let others = placed(contest.set, last.place, false);
                let (second, _) = self.last_of(others);
                Contest {
                    rest: contest.rest,
                    set: placed(others, place, true),
                    last: Some(self.later(second, job)),
                    free: 0,
                }
            }
            _ => contest,
        }
    }

    // A choice that begins with the jobs of the set, of which the last and the count are given, if there are CPUs for all of
    // them, and else with none. Where it begins with none no job has been gone through, and the rest are all jobs.
    fn begin(&self, kept: u32, last: Option<Job<P::Key>>, count: u8) -> Contest<P::Key>
        requires kept { Within kept self.now.jobs }
        requires last { LastTo P.Policy.keyed P.Policy.precedes self.now kept 32 last }
        requires count { count ≡ count_below 32 (has kept) }
        ensures so_far { RunOfMet P.Policy.keyed P.Policy.precedes self.now 0 result }
        ensures rest { Within result.rest self.now.jobs }
        ensures none { (kept ≡ 0) ⊎ (self.now.cpus < count) → RunSoFar P.Policy.keyed P.Policy.precedes self.now 0 result × Within self.now.jobs result.rest }
    {
        if count > self.cpus {
            return Contest {
                rest: self.jobs,
                set: 0,
                last: None,
                free: self.cpus,
            };
        }
        Contest {
            rest: self.jobs & !kept,
            set: kept,
            last,
            free: self.cpus - count,
        }
    }

    /// The set of the jobs that run, chosen by going through the jobs once, but for those of `kept`, of which the last and the
    /// count are given: the choice begins with them, if there are CPUs for all of them.
    pub(crate) fn contest(&self, kept: u32, last: Option<Job<P::Key>>, count: u8) -> u32
        requires kept { Within kept self.now.jobs }
        requires last { LastTo P.Policy.keyed P.Policy.precedes self.now kept 32 last }
        requires count { count ≡ count_below 32 (has kept) }
        ensures { Runs P.Policy.keyed P.Policy.precedes self.now result }
    {
        let mut contest = self.begin(kept, last, count);
        for i in members_of(contest.rest) {
            if let Some(job) = self.job(i) {
                contest = self.admit(contest, job);
            }
        }
        contest.set
    }
}
