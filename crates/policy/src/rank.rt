ghost use Rattle.std.specs.Prelude.{◌≡◌, true, refl, nat_le};
ghost use Rattle.policy.specs.Keys.{rank_of};
ghost use Rattle.policy.specs.Numbers.{nat_total, nat_transitive};

use crate::policy::Policy;
use task::task::Task;

/// Fixed priorities: the key is the task's rank, and the smaller is before.
#[derive(Clone, Copy, Debug, PartialEq, Eq)]
pub struct Rank;

impl Policy for Rank {
    type Key = u8;

    ghost keyed = { λ _. rank_of };

    ghost precedes = { λ _ a b. nat_le a b };

    ghost total = { λ _. nat_total };

    ghost transitive = { λ _. nat_transitive };

    fn key(&self, task: &Task, _age: u32) -> u8 {
        task.rank()
    }

    fn at_or_before(&self, a: &u8, b: &u8) -> bool {
        *a <= *b
    }
}
