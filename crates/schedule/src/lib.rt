//! The endless schedule of periodic tasks on identical CPUs: definitions (specs/) and theorems over plain numbers.
//! The crate holds no state and no code that runs. The contract of the one function below names the theorems, so that the
//! crate is refused without their proofs; specs/Claims.antt says in a sentence what each one means.

#![tactic(auto)]

ghost use Rattle.schedule.specs.Claims.{HyperperiodIsLeast, LastOffsetIsLargest, AtMostMRun, LessStaysLessOverASlot, LessStaysLessAtAnInstant, Growth, SomeBoundariesAgree, Repetition, NoMissLasts, Sustainability, OneVerdict, SettledVerdictsPromise, OneSettledVerdict};

/// The theorems of the endless schedule.
pub fn theorems()
    ensures hyperperiod_is_least { HyperperiodIsLeast }
    ensures last_offset_is_largest { LastOffsetIsLargest }
    ensures at_most_m_run { AtMostMRun }
    ensures less_stays_less_over_a_slot { LessStaysLessOverASlot }
    ensures less_stays_less_at_an_instant { LessStaysLessAtAnInstant }
    ensures growth { Growth }
    ensures some_boundaries_agree { SomeBoundariesAgree }
    ensures repetition { Repetition }
    ensures no_miss_lasts { NoMissLasts }
    ensures sustainability { Sustainability }
    ensures one_verdict { OneVerdict }
    ensures settled_verdicts_promise { SettledVerdictsPromise }
    ensures one_settled_verdict { OneSettledVerdict }
{}
