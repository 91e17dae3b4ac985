ghost use Rattle.std.specs.Prelude.{ℕ, ◌<◌, ◌≤◌, Some};
ghost use Rattle.policy.specs.Releases.{Released};
ghost use Rattle.trial.specs.Places.{Calm};

use task::task::Task;

/// An instant after `t` before which the task releases no job and no job of it comes to its deadline.
pub(crate) fn next_of(task: &Task, released: u64, t: u64) -> u64
    requires early { t ≤ 1000000000000000 }
    requires latest { Released task.now.figures t released }
    ensures after { t < result }
    ensures calm { (u : ℕ) → t < u → u < result → Calm (Some task.now.figures) u }
{
    if t < released {
        return released;
    }
    let deadline = released + u64::from(task.deadline());
    if t < deadline {
        return deadline;
    }
    released + u64::from(task.period())
}
