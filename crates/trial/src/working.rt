ghost use Rattle.std.specs.Prelude.{◌≡◌, ℕ, ◌<◌, true, false};
ghost use Rattle.policy.specs.Members.{has};
ghost use Rattle.policy.specs.Sets.{left_of};
ghost use Rattle.trial.specs.Slots.{worked};

use policy::walk::members_of;

/// Each job of the set `ran` loses 1. Answers whether one of them has nothing left then.
pub(crate) fn work(left: &mut [u16; 32], ran: u32) -> bool
    requires { (i : ℕ) → i < 32 → has ran i ≡ true → 0 < left_of left.old i }
    ensures left { (i : ℕ) → i < 32 → left_of left.new i ≡ worked ran left.old i }
    ensures none_finished { result ≡ false → (i : ℕ) → i < 32 → has ran i ≡ true → 0 < left_of left.new i }
{
    let mut finished = false;
    for i in members_of(ran) {
        let rest = left[i] - 1;
        left[i] = rest;
        if rest == 0 {
            finished = true;
        }
    }
    finished
}
