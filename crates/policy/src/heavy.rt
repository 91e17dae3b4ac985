ghost use Rattle.std.specs.Prelude.{◌≡◌, ◌≤◌, MatchResult};
ghost use Rattle.task.specs.declared.refusal.Refusal.TheVariants.{BadThreshold};

use task::refusal::Refusal;

/// A key of the policy below, with whether the job's task is heavy.
// stays: a pair. Every key has both parts, and two variants would only name the same part twice.
#[derive(Debug, PartialEq, Eq, Drop)]
pub struct Weighed<K> {
    /// Whether the job's task is heavy.
    pub heavy: bool,
    /// The key under the policy below.
    pub below: K,
}

/// A threshold a/b, with 1 ≤ b ≤ 1,000 and a ≤ b.
#[derive(Clone, Copy, Debug, PartialEq, Eq)]
pub struct Threshold {
    pub(crate) a: u32,
    pub(crate) b: u32,
    ghost divides: { 1 ≤ b },
    ghost small: { b ≤ 1000 },
    ghost part: { a ≤ b },
}

impl Threshold {
    /// The threshold a/b, or refusal 20.
    pub fn new(a: u32, b: u32) -> Result<Threshold, Refusal>
        ensures { MatchResult result (λ t. (t.a ≡ a) × (t.b ≡ b)) (λ e. (e ≡ BadThreshold) × (((1 ≤ b) × (b ≤ 1000) × (a ≤ b)) → ⊥)) }
    {
        if !(1..=1000).contains(&b) || a > b {
            return Err(Refusal::BadThreshold);
        }
        Ok(Threshold { a, b })
    }
}

/// Heavy tasks first: a layer over any policy, and again a policy.
#[derive(Debug, PartialEq, Eq, Drop)]
pub struct HeavyFirst<P> {
    /// From which part of its period on a task is heavy.
    pub threshold: Threshold,
    /// What decides among heavy tasks, and among light ones.
    pub below: P,
}
