ghost use Rattle.std.specs.Prelude.{◌≡◌, ℕ, ◌<◌, ◌≤◌, Decides, count_ones, slice_index, length};
ghost use Rattle.task.specs.Tables.{entry_at};
ghost use Rattle.policy.specs.Dispatch.{is_active};
ghost use Rattle.policy.specs.Members.{has};
ghost use Rattle.policy.specs.Releases.{Latest};
ghost use Rattle.policy.specs.Sets.{left_of, word_of};
ghost use Rattle.trial.specs.Calendars.{Soonest};
ghost use Rattle.trial.specs.Places.{is_due, opens, misses, CalmUntil};
ghost use Rattle.trial.specs.Settled.{latest_prop, calm_prop, grouped_prop, soonest_prop};

use crate::calendar::Calendar;
use task::task::Task;

/// What is known of the instants from one event to the next, so that a slot need not find it anew.
#[derive(Drop)]
pub(crate) struct Watch<'a> {
    /// The tasks, each in the place of its number.
    pub(crate) tasks: &'a [Option<Task>; 32],
    /// What is kept of each place.
    pub(crate) calendar: Calendar,
    /// The instant that the watch began at.
    pub(crate) since: u64,
    /// After that and before this instant no job is released and none comes to its deadline.
    pub(crate) calm: u64,
    /// Whether there are CPUs for all active jobs, so that all of them run.
    pub(crate) few: bool,
    ghost sized: { length tasks.now ≡ 32 },
    ghost onward: { since < calm },
    ghost latest: { (i : ℕ) → i < 32 → Latest (entry_at tasks.now i) since (slice_index calendar.released i) } by { latest_prop tasks.now since calendar.released },
    ghost calm_is: { (i : ℕ) → i < 32 → CalmUntil (entry_at tasks.now i) since (slice_index calendar.events i) } by { calm_prop tasks.now since calendar.events },
    ghost grouped: { (g : ℕ) → g < 4 → Soonest calendar.soonest calendar.events g } by { grouped_prop calendar.soonest calendar.events },
    ghost soonest: { (g : ℕ) → g < 4 → calm ≤ slice_index calendar.soonest g } by { soonest_prop calm calendar.soonest },
}

impl Watch<'_> {
    /// The active jobs, a bit for each task.
    pub(crate) fn active(&self) -> u32
        ensures { result ≡ self.now.calendar.active }
    {
        self.calendar.active
    }

    /// Whether there are CPUs for all active jobs.
    pub(crate) fn fits(&self, cpus: u8) -> bool
        ensures { Decides result (count_ones self.now.calendar.active ≤ cpus) }
    {
        self.calendar.fits(cpus)
    }

    /// Whether task `i`'s job missed its deadline at the latest event.
    pub(crate) fn missed(&self, i: usize) -> bool
        requires { i < 32 }
        ensures { result ≡ has self.now.calendar.missed i }
    {
        (self.calendar.missed >> i) % 2 == 1
    }

    /// Rules 1 and 2 at the end of the calm instants, for every job, and on to the next event. Answers the tasks with a job
    /// that comes to its deadline there, a bit for each.
    pub(crate) fn arrive(&mut self, left: &mut [u16; 32]) -> u32
        requires early { self.old.calm ≤ 1000000000000000 }
        requires active { (i : ℕ) → i < 32 → has self.old.calendar.active i ≡ is_active (entry_at self.old.tasks.now) left.old i }
        ensures due { result ≡ word_of (λ i. is_due (entry_at self.old.tasks.now i) self.old.calm) 32 }
        ensures missed { (i : ℕ) → i < 32 → has self.new.calendar.missed i ≡ misses (entry_at self.old.tasks.now i) self.old.calm (left_of left.old i) }
        ensures left { (i : ℕ) → i < 32 → left_of left.new i ≡ opens (entry_at self.old.tasks.now i) self.old.calm (left_of left.old i) }
        ensures active { (i : ℕ) → i < 32 → has self.new.calendar.active i ≡ is_active (entry_at self.old.tasks.now) left.new i }
        ensures tasks { self.new.tasks.now ≡ self.old.tasks.now }
        ensures since { self.new.since ≡ self.old.calm }
    {
        let t = self.calm;
        let due = self.calendar.arrive(self.tasks, t, left);
        self.since = t;
        self.calm = self.calendar.next();
        due
    }
}
