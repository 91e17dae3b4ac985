ghost use Rattle.std.specs.Prelude.{◌≡◌};
ghost use Rattle.policy.specs.Keys.{is_heavy, heavy_key, heavy_first};
ghost use Rattle.policy.specs.Groups.{grouped_total, grouped_transitive};

use crate::heavy::{HeavyFirst, Threshold, Weighed};
use crate::policy::Policy;
use task::task::Task;

impl Threshold {
    /// Whether the task is heavy: C × b > a × T.
    pub fn is_heavy(&self, task: &Task) -> bool
        ensures { result ≡ is_heavy self.now.a self.now.b task.now.figures }
    {
        u32::from(task.runtime()) * self.b > self.a * u32::from(task.period())
    }
}

impl<P: Policy> Policy for HeavyFirst<P> {
    type Key = Weighed<P::Key>;

    ghost keyed = { λ s. heavy_key s.threshold.a s.threshold.b (P.Policy.keyed s.below) };

    ghost precedes = { λ s. heavy_first (P.Policy.precedes s.below) };

    ghost total = { λ p a b. grouped_total (P.Policy.precedes p.below) (P.Policy.total p.below) a.heavy a.below b.heavy b.below };

    ghost transitive = { λ p a b c. grouped_transitive (P.Policy.precedes p.below) (P.Policy.transitive p.below) a.heavy a.below b.heavy b.below c.heavy c.below };

    fn key(&self, task: &Task, age: u32) -> Weighed<P::Key> {
        Weighed {
            heavy: self.threshold.is_heavy(task),
            below: self.below.key(task, age),
        }
    }

    fn at_or_before(&self, a: &Weighed<P::Key>, b: &Weighed<P::Key>) -> bool {
        if a.heavy == b.heavy {
            self.below.at_or_before(&a.below, &b.below)
        } else {
            a.heavy
        }
    }
}
