ghost use Rattle.std.specs.Prelude.{◌≡◌, Some};
ghost use Rattle.policy.specs.Ages.{age_of};

use task::task::Task;

/// How many slots the task's latest job is old at `t`.
pub fn age(task: &Task, t: u64) -> u32
    ensures { result ≡ age_of (Some task.now.figures) t }
{
    (t.saturating_sub(u64::from(task.offset())) % u64::from(task.period())) as u32
}
