ghost use Rattle.std.specs.Prelude.{◌≡◌, ℕ, ◌<◌, ◌≤◌, true, Decides, count_ones};
ghost use Rattle.schedule.specs.Schedule.{has_cpu};
ghost use Rattle.task.specs.Tables.{entry_at};
ghost use Rattle.policy.specs.Plans.{plan_of};
ghost use Rattle.policy.specs.Dispatch.{is_active};
ghost use Rattle.policy.specs.Members.{has};
ghost use Rattle.policy.specs.Sets.{left_of, word_of};
ghost use Rattle.trial.specs.Trials.{Equal, missing, Runs};
ghost use Rattle.trial.specs.Slots.{SameInstants, Watched, Ticked, Passes, Marked};

use crate::active::finished_jobs;
use crate::calendar::Calendar;
use crate::trial::{Outcome, Trial};
use crate::watch::Watch;
use crate::working::work;
use policy::policy::Policy;
use policy::slot::Slot;
use policy::walk::members_of;
use task::task::Task;

/// No trial comes undecided to this instant.
pub const LAST_INSTANT: u64 = 1_000_000_000_000_000;

impl Trial {
    /// The jobs that run in the slot from the trial's instant, a bit for each task. Where there are CPUs for all active jobs the
    /// policy is asked nothing.
    fn choose<P: Policy>(&self, policy: &P, watch: &Watch) -> u32
        requires { Watched watch.now.tasks.now self.now watch.now }
        ensures { result ≡ word_of (has_cpu (plan_of (P.Policy.keyed policy.now) (P.Policy.precedes policy.now) (entry_at watch.now.tasks.now)) self.now.cpus self.now.instant (left_of self.now.left)) 32 }
    {
        if watch.few {
            return watch.active();
        }
        let slot = Slot {
            policy,
            tasks: watch.tasks,
            released: &watch.calendar.released,
            jobs: watch.active(),
            instant: self.instant,
            cpus: self.cpus,
        };
        slot.running(self.ran)
    }

    /// Rule 3: the slot from the trial's instant.
    fn tick<P: Policy>(&mut self, policy: &P, watch: &mut Watch)
        requires instant { self.old.instant < 1000000000000000 }
        requires watched { Watched watch.old.tasks.now self.old watch.old }
        ensures ticked { Ticked (plan_of (P.Policy.keyed policy.now) (P.Policy.precedes policy.now) (entry_at watch.old.tasks.now)) self.old self.new }
        ensures watch { SameInstants watch.old watch.new }
        ensures active { (i : ℕ) → i < 32 → has watch.new.calendar.active i ≡ is_active (entry_at watch.old.tasks.now) self.new.left i }
        ensures few { Decides watch.new.few (count_ones watch.new.calendar.active ≤ self.old.cpus) }
    {
        self.ran = self.choose(policy, watch);
        if work(&mut self.left, self.ran) {
            watch.calendar.active &= !finished_jobs(&self.left, self.ran);
            watch.few = watch.fits(self.cpus);
        }
        self.instant += 1;
    }

    /// One slot and the instant after it. Answers the tasks with a job that comes to its deadline there, a bit for each.
    fn pass<P: Policy>(&mut self, policy: &P, watch: &mut Watch) -> u32
        requires instant { self.old.instant < 1000000000000000 }
        requires watched { Watched watch.old.tasks.now self.old watch.old }
        ensures passes { Passes (plan_of (P.Policy.keyed policy.now) (P.Policy.precedes policy.now) (entry_at watch.old.tasks.now)) self.old result self.new }
        ensures missed { (i : ℕ) → i < 32 → has result i ≡ true → has watch.new.calendar.missed i ≡ missing (plan_of (P.Policy.keyed policy.now) (P.Policy.precedes policy.now) (entry_at watch.old.tasks.now)) self.old i }
        ensures watched { Watched watch.old.tasks.now self.new watch.new }
    {
        self.tick(policy, watch);
        if self.instant < watch.calm {
            return 0;
        }
        let due = watch.arrive(&mut self.left);
        watch.few = watch.fits(self.cpus);
        due
    }

    /// Whether what is left is what was left at the latest boundary.
    fn agrees(&self) -> bool
        ensures { Decides result (Equal self.now.left self.now.saved) }
    {
        self.left == self.saved
    }

    /// Makes the trial's instant its latest boundary.
    fn keep(&mut self)
        requires { self.old.next ≤ 1000000000000000 }
        ensures { Marked self.old self.new }
    {
        self.saved = self.left;
        self.last = self.next;
        self.next += u64::from(self.span);
    }

    /// Up to `n` slots, left at the first instant that decides.
    pub fn run<P: Policy>(&mut self, policy: &P, tasks: &[Option<Task>; 32], n: u32) -> Outcome
        ensures { Runs (plan_of (P.Policy.keyed policy.now) (P.Policy.precedes policy.now) (entry_at tasks.now)) self.old n result self.new }
    {
        // so that the instant after this one is a number, too
        if self.instant >= LAST_INSTANT {
            return Outcome::Ran;
        }
        let mut outcome = Outcome::Ran;
        let calendar = Calendar::new(tasks, self.instant, &self.left);
        let few = calendar.fits(self.cpus);
        let mut watch = Watch {
            tasks,
            calendar,
            since: self.instant,
            calm: self.instant + 1,
            few,
        };
        let most = (LAST_INSTANT - self.instant).min(u64::from(n));
        'slots: for _ in 0..most {
            let due = self.pass(policy, &mut watch);
            for i in members_of(due) {
                if watch.missed(i) {
                    outcome = Outcome::Missed(i as u8);
                    break 'slots;
                }
            }
            if self.instant == self.next {
                if u64::from(self.start) < self.next && self.agrees() {
                    outcome = Outcome::Agreed(self.last, self.next);
                    break 'slots;
                }
                self.keep();
            }
        }
        outcome
    }
}
