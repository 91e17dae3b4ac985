use crate::answer::{Answer, BUFFER_LENGTH};
use crate::denied::Denied;
use crate::perform::perform;
use crate::script::{Base, Call, Ratio, Setup};
use bench::bench::Bench;
use policy::deadline::Deadline;
use policy::heavy::{HeavyFirst, Threshold};
use policy::rank::Rank;
use task::refusal::Refusal;

/// A bench of one of the policies.
// stays: an enum, since a function may not hand out a Box of a dyn trait that it makes.
#[derive(Drop)]
pub enum AnyBench {
    /// Earliest deadline first.
    ByDeadline(Bench<Deadline>),
    /// Fixed priorities.
    ByRank(Bench<Rank>),
    /// Heavy tasks first, over deadline.
    HeavyByDeadline(Bench<HeavyFirst<Deadline>>),
    /// Heavy tasks first, over rank.
    HeavyByRank(Bench<HeavyFirst<Rank>>),
    /// Heavy tasks first by two thresholds, over deadline.
    TwiceByDeadline(Bench<HeavyFirst<HeavyFirst<Deadline>>>),
    /// Heavy tasks first by two thresholds, over rank.
    TwiceByRank(Bench<HeavyFirst<HeavyFirst<Rank>>>),
}

impl Ratio {
    /// The layer with this threshold over a policy.
    fn over<P: Drop>(&self, below: P) -> Result<HeavyFirst<P>, Refusal> {
        let threshold = Threshold::new(self.a, self.b)?;
        Ok(HeavyFirst { threshold, below })
    }
}

impl AnyBench {
    /// A new bench with this policy.
    pub fn new(setup: Setup) -> Result<AnyBench, Refusal> {
        let bench = match setup {
            Setup::Plain(Base::Deadline) => AnyBench::ByDeadline(Bench::new(Deadline)),
            Setup::Plain(Base::Rank) => AnyBench::ByRank(Bench::new(Rank)),
            Setup::Layered(ratio, Base::Deadline) => {
                AnyBench::HeavyByDeadline(Bench::new(ratio.over(Deadline)?))
            }
            Setup::Layered(ratio, Base::Rank) => {
                AnyBench::HeavyByRank(Bench::new(ratio.over(Rank)?))
            }
            Setup::Twice(outer, inner, Base::Deadline) => {
                AnyBench::TwiceByDeadline(Bench::new(outer.over(inner.over(Deadline)?)?))
            }
            Setup::Twice(outer, inner, Base::Rank) => {
                AnyBench::TwiceByRank(Bench::new(outer.over(inner.over(Rank)?)?))
            }
        };
        Ok(bench)
    }

    /// Makes the call, and gives what the bench answers. What it writes, it writes into the buffer.
    pub fn perform<'a>(
        &mut self,
        call: &Call,
        buffer: &'a mut [u8; BUFFER_LENGTH],
    ) -> Result<Answer<'a>, Denied> {
        match self {
            AnyBench::ByDeadline(bench) => perform(bench, call, buffer),
            AnyBench::ByRank(bench) => perform(bench, call, buffer),
            AnyBench::HeavyByDeadline(bench) => perform(bench, call, buffer),
            AnyBench::HeavyByRank(bench) => perform(bench, call, buffer),
            AnyBench::TwiceByDeadline(bench) => perform(bench, call, buffer),
            AnyBench::TwiceByRank(bench) => perform(bench, call, buffer),
        }
    }
}
