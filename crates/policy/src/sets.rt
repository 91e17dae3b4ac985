ghost use Rattle.std.specs.Prelude.{◌≡◌, ℕ, ◌<◌, Bool, cond, ◌==◌};
ghost use Rattle.policy.specs.Members.{has};
ghost use Rattle.policy.specs.Sets.{word_of};

/// The set with place `i` in it, or without it; there is no place from 32 on.
pub fn placed(set: u32, i: usize, member: bool) -> u32
    ensures { (k : ℕ) → k < 32 → has result k ≡ cond (k == i) member (has set k) }
{
    if i >= 32 {
        set
    } else if member {
        set | (1 << i)
    } else {
        set & !(1 << i)
    }
}

/// The set of the tasks whose places pass the test, a bit for each.
pub(crate) fn set_of<F: Fn(usize) -> bool>(test: F) -> u32
    requires { (i : ℕ) → i < 32 → F.pre test i }
    ensures { (passes : ℕ → Bool) → ((i : ℕ) (told : Bool) → i < 32 → F.post test i told → told ≡ passes i) → result ≡ word_of passes 32 }
{
    let mut set: u32 = 0;
    // stays: over the numbers, since the test takes a number and there is no slice to go over.
    for i in 0..32 {
        if test(i) {
            set |= 1 << i;
        }
    }
    set
}
