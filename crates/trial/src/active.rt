ghost use Rattle.std.specs.Prelude.{◌≡◌};
ghost use Rattle.policy.specs.Sets.{word_of};
ghost use Rattle.trial.specs.Slots.{is_finished};

use policy::walk::members_of;

/// The jobs of the set `ran` that have nothing left, a bit for each task.
pub(crate) fn finished_jobs(left: &[u16; 32], ran: u32) -> u32
    ensures { result ≡ word_of (is_finished ran left.now) 32 }
{
    let mut set: u32 = 0;
    for i in members_of(ran) {
        if left[i] == 0 {
            set |= 1 << i;
        }
    }
    set
}
