ghost use Rattle.std.specs.Prelude.{◌≡◌, ℕ, Bool, true, ◌⊎◌};
ghost use Rattle.task.specs.declared.entry.Entry.{Entry};

use task::task::Task;

/// A policy: a key for each pair of a task and an age, and a relation "at or before" on keys. Asked for a key or for the
/// order of two, it answers by these alone. Of two keys one is always at or before the other, and the relation goes on
/// through a third.
pub trait Policy {
    /// Keys may be of any kind.
    type Key: Drop;

    ghost keyed: { Self → Entry → ℕ → Self.Key };

    ghost precedes: { Self → Self.Key → Self.Key → Bool };

    /// The key of a job of the task, `age` slots after its release.
    fn key(&self, task: &Task, age: u32) -> Self::Key
        ensures { result ≡ keyed self.now task.now.figures age };

    /// Whether key `a` is at or before key `b`.
    fn at_or_before(&self, a: &Self::Key, b: &Self::Key) -> bool
        ensures { result ≡ precedes self.now a.now b.now };

    ghost total: { (p : Self) (a b : Self.Key) → (precedes p a b ≡ true) ⊎ (precedes p b a ≡ true) };

    ghost transitive: { (p : Self) (a b c : Self.Key) → precedes p a b ≡ true → precedes p b c ≡ true → precedes p a c ≡ true };
}
