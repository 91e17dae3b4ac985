ghost use Rattle.examples.specs.Client.{ByLaw, Told, LawTells};

use bench::bench::Bench;
use bench::verdict::Verdict;
use policy::deadline::Deadline;
use sheet::fault::LoadFault;
use task::entry::Entry;
use task::refusal::Refusal;

/// The first of the client's three tasks.
const FIRST: Entry = Entry {
    number: 0,
    name: *b"A       ",
    rank: 0,
    offset: 0,
    runtime: 2,
    deadline: 3,
    period: 3,
};

/// The third of them, which it enters late.
const THIRD: Entry = Entry {
    number: 2,
    name: *b"C       ",
    rank: 2,
    offset: 1,
    runtime: 3,
    deadline: 6,
    period: 6,
};

/// A sheet of the first and the second, for two CPUs.
const SHEET: &[u8] = b"CP\x02\
    TK\x00A       \x00\x00\x00\x00\x00\x00\x02\x00\x03\x00\x03\
    TK\x01B       \x01\x00\x00\x00\x04\x00\x03\x00\x04\x00\x04\
    EN";

/// What the client was answered, call by call.
#[derive(Clone, Copy, Debug, PartialEq, Eq)]
pub struct Answered {
    /// To the entry of the first task.
    pub entered: Result<(), Refusal>,
    /// To the same entry again.
    pub again: Result<(), Refusal>,
    /// To the load of the sheet.
    pub loaded: Result<u8, LoadFault>,
    /// To the first start.
    pub started: Result<(), Refusal>,
    /// To a run after it.
    pub ran: Result<Verdict, Refusal>,
    /// To another run after that.
    pub ran_on: Result<Verdict, Refusal>,
    /// To the entry of the third task while the bench is started.
    pub early: Result<(), Refusal>,
    /// To the halt.
    pub halted: Result<(), Refusal>,
    /// To the entry of the third task after it.
    pub added: Result<(), Refusal>,
    /// To the second start.
    pub restarted: Result<(), Refusal>,
    /// To the first run after it.
    pub first_run: Result<Verdict, Refusal>,
    /// To the second run after it.
    pub second_run: Result<Verdict, Refusal>,
    /// To the question.
    pub verdict: Result<Verdict, Refusal>,
}

/// A client of the bench. It fills the table by an entry and by a sheet, has it judged, adds a task, and has it judged anew;
/// and what it is told in the end it knows by the law of the bench alone.
pub fn start_twice() -> Answered
    ensures law { ByLaw result }
    ensures told { Told result }
    ensures by_law_alone { LawTells }
{
    let mut bench = Bench::new(Deadline);
    let entered = bench.enter(FIRST);
    let again = bench.enter(FIRST);
    let loaded = bench.load(SHEET);
    let started = bench.start(2);
    let ran = bench.run(10);
    let ran_on = bench.run(6);
    let early = bench.enter(THIRD);
    let halted = bench.halt();
    let added = bench.enter(THIRD);
    let restarted = bench.start(2);
    let first_run = bench.run(28);
    let second_run = bench.run(12);
    let verdict = bench.verdict();
    Answered {
        entered,
        again,
        loaded,
        started,
        ran,
        ran_on,
        early,
        halted,
        added,
        restarted,
        first_run,
        second_run,
        verdict,
    }
}
