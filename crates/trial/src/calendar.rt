ghost use Rattle.std.specs.Prelude.{◌≡◌, ◌≢◌, ℕ, ◌+◌, ◌-◌, ◌<◌, ◌≤◌, false, Decides, count_ones, slice_index};
ghost use Rattle.task.specs.Tables.{entry_at};
ghost use Rattle.policy.specs.Dispatch.{is_active};
ghost use Rattle.policy.specs.Members.{has};
ghost use Rattle.policy.specs.Releases.{Latest};
ghost use Rattle.policy.specs.Sets.{left_of, word_of};
ghost use Rattle.trial.specs.Places.{is_due};
ghost use Rattle.trial.specs.Calendars.{Awaits, Arrived, Stays, InGroup, Soonest};

use crate::arriving::arrive_at;
use policy::dispatch::active_set;
use policy::release::latest_releases;
use policy::sets::placed;
use task::task::Task;

/// What is kept of each place from event to event: an event is an instant at which a job is released or comes to its
/// deadline.
#[derive(Drop)]
pub(crate) struct Calendar {
    /// For each place, the instant that the age of its latest job counts from.
    // stays: an array beside the tasks, since the tasks are lent and these instants are kept.
    pub(crate) released: [u64; 32],
    /// For each place, an instant up to which no job of its task is released and none comes to its deadline.
    pub(crate) events: [u64; 32],
    /// For each group of eight places, the first of their events, so that an event need not look at every place.
    pub(crate) soonest: [u64; 4],
    /// The active jobs, a bit for each task.
    pub(crate) active: u32,
    /// The tasks with a job that came to its deadline at the latest event, a bit for each.
    pub(crate) due: u32,
    /// Those of them whose jobs missed it, a bit for each task.
    pub(crate) missed: u32,
}

impl Calendar {
    /// The calendar of an instant, which knows nothing of the next.
    pub(crate) fn new(tasks: &[Option<Task>; 32], t: u64, left: &[u16; 32]) -> Calendar
        requires { t < 1000000000000000 }
        ensures latest { (i : ℕ) → i < 32 → Latest (entry_at tasks.now i) t (slice_index result.released i) }
        ensures events { (i : ℕ) → i < 32 → slice_index result.events i ≡ t + 1 }
        ensures soonest { (g : ℕ) → g < 4 → slice_index result.soonest g ≡ t + 1 }
        ensures active { (i : ℕ) → i < 32 → has result.active i ≡ is_active (entry_at tasks.now) left.now i }
    {
        Calendar {
            released: latest_releases(tasks, t),
            events: [t + 1; 32],
            soonest: [t + 1; 4],
            active: active_set(tasks, left),
            due: 0,
            missed: 0,
        }
    }

    /// Whether there are CPUs for all active jobs.
    pub(crate) fn fits(&self, cpus: u8) -> bool
        ensures { Decides result (count_ones self.now.active ≤ cpus) }
    {
        self.active.count_ones() <= u32::from(cpus)
    }

    /// Rules 1 and 2 at `t` for a place with an event there.
    fn arrive_place(&mut self, tasks: &[Option<Task>; 32], t: u64, i: usize, left: &mut [u16; 32])
        requires place { i < 32 }
        requires early { t ≤ 1000000000000000 }
        requires later { 0 < t }
        requires latest { Latest (entry_at tasks.now i) (t - 1) (slice_index self.old.released i) }
        ensures arrived { Arrived (entry_at tasks.now) t (left_of left.old i) self.new left.new i }
        ensures others { (k : ℕ) → k < 32 → k ≢ i → Stays self.old left.old self.new left.new k }
        ensures soonest { self.new.soonest ≡ self.old.soonest }
    {
        let arrival = arrive_at(&tasks[i], self.released[i], t, left[i]);
        left[i] = arrival.left;
        self.released[i] = arrival.released;
        self.events[i] = arrival.event;
        self.active = placed(self.active, i, arrival.active);
        self.due = placed(self.due, i, arrival.due);
        self.missed = placed(self.missed, i, arrival.late);
    }

    /// Rules 1 and 2 at `t` for the places of a group.
    fn arrive_group(&mut self, tasks: &[Option<Task>; 32], t: u64, g: usize, left: &mut [u16; 32])
        requires group { g < 4 }
        requires early { t ≤ 1000000000000000 }
        requires later { 0 < t }
        requires awaits { (i : ℕ) → InGroup g i → Awaits (entry_at tasks.now) t self.old left.old i }
        requires none_due { (i : ℕ) → InGroup g i → has self.old.due i ≡ false }
        requires none_missed { (i : ℕ) → InGroup g i → has self.old.missed i ≡ false }
        ensures arrived { (i : ℕ) → InGroup g i → Arrived (entry_at tasks.now) t (left_of left.old i) self.new left.new i }
        ensures others { (i : ℕ) → i < 32 → (InGroup g i → ⊥) → Stays self.old left.old self.new left.new i }
        ensures soonest { Soonest self.new.soonest self.new.events g }
        ensures later { t < slice_index self.new.soonest g }
        ensures groups { (h : ℕ) → h < 4 → h ≢ g → slice_index self.new.soonest h ≡ slice_index self.old.soonest h }
    {
        let mut soonest = u64::MAX;
        for i in 8 * g..8 * g + 8 {
            if self.events[i] <= t {
                self.arrive_place(tasks, t, i, left);
            }
            soonest = soonest.min(self.events[i]);
        }
        self.soonest[g] = soonest;
    }

    /// Rules 1 and 2 at `t` for every place. Answers the tasks with a job that comes to its deadline there, a bit for each.
    pub(crate) fn arrive(&mut self, tasks: &[Option<Task>; 32], t: u64, left: &mut [u16; 32]) -> u32
        requires early { t ≤ 1000000000000000 }
        requires later { 0 < t }
        requires awaits { (i : ℕ) → i < 32 → Awaits (entry_at tasks.now) t self.old left.old i }
        requires soonest { (g : ℕ) → g < 4 → Soonest self.old.soonest self.old.events g }
        ensures arrived { (i : ℕ) → i < 32 → Arrived (entry_at tasks.now) t (left_of left.old i) self.new left.new i }
        ensures soonest { (g : ℕ) → g < 4 → Soonest self.new.soonest self.new.events g }
        ensures later { (g : ℕ) → g < 4 → t < slice_index self.new.soonest g }
        ensures due { result ≡ word_of (λ i. is_due (entry_at tasks.now i) t) 32 }
    {
        self.due = 0;
        self.missed = 0;
        for g in 0..4 {
            if self.soonest[g] <= t {
                self.arrive_group(tasks, t, g, left);
            }
        }
        self.due
    }

    /// The next event.
    pub(crate) fn next(&self) -> u64
        ensures soonest { (g : ℕ) → g < 4 → result ≤ slice_index self.now.soonest g }
        ensures later { (t : ℕ) → t < 18446744073709551615 → ((g : ℕ) → g < 4 → t < slice_index self.now.soonest g) → t < result }
    {
        let mut next = u64::MAX;
        for soonest in &self.soonest {
            next = next.min(*soonest);
        }
        next
    }
}
