ghost use Rattle.std.specs.Prelude.{ℕ, ◌<◌, slice_index};
ghost use Rattle.task.specs.Tables.{entry_of, entry_at};
ghost use Rattle.policy.specs.Releases.{Latest};

use crate::age::age;
use task::task::Task;

// The instant of the latest release in a place at `t`, or the offset where no job was released yet; 0 where there is no task.
fn latest_release(place: &Option<Task>, t: u64) -> u64
    ensures { Latest (entry_of place.now) t result }
{
    match place {
        Some(task) => {
            let offset = u64::from(task.offset());
            if t < offset {
                offset
            } else {
                t - u64::from(age(task, t))
            }
        }
        // stays: 0, since an Option would be unpacked for each job of a slot.
        None => 0,
    }
}

/// For each place, the instant that the age of its latest job at `t` counts from.
pub fn latest_releases(tasks: &[Option<Task>; 32], t: u64) -> [u64; 32]
    ensures { (i : ℕ) → i < 32 → Latest (entry_at tasks.now i) t (slice_index result i) }
{
    std::array::from_fn(
        |i| -> u64
            requires { i < 32 }
            ensures { Latest (entry_at tasks.entry.now i) t result }
        { latest_release(&tasks[i], t) },
    )
}
