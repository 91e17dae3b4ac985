ghost use Rattle.std.specs.Prelude.{◌≡◌, true, int_le};
ghost use Rattle.policy.specs.Keys.{time_to_deadline};
ghost use Rattle.policy.specs.Numbers.{int_total, int_transitive};

use crate::policy::Policy;
use task::task::Task;

/// Earliest deadline first: the key is D − age, and the smaller is before.
#[derive(Clone, Copy, Debug, PartialEq, Eq)]
pub struct Deadline;

impl Policy for Deadline {
    type Key = i64;

    ghost keyed = { λ _. time_to_deadline };

    ghost precedes = { λ _. int_le };

    ghost total = { λ _. int_total };

    ghost transitive = { λ _. int_transitive };

    fn key(&self, task: &Task, age: u32) -> i64 {
        i64::from(task.deadline()) - i64::from(age)
    }

    fn at_or_before(&self, a: &i64, b: &i64) -> bool {
        *a <= *b
    }
}
