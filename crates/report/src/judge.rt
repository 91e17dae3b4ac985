ghost use Rattle.std.specs.Prelude.{◌≡◌, ◌≢◌};
ghost use Rattle.bench.specs.declared.mode.Mode.TheVariants.{Open};
ghost use Rattle.bench.specs.Judged.{GivenRuns};
ghost use Rattle.bench.specs.Modes.{is_decided, verdict_of};
ghost use Rattle.bench.specs.Steps.{view, plan_for, with_mode, GoesOn};
ghost use Rattle.report.specs.Prints.{Prints};
ghost use Rattle.report.specs.Prepares.{Prepares};

use crate::line::Line;
use bench::bench::Bench;
use bench::fault::Fault;
use bench::lines::{LINE_LENGTH, fault_line};
use policy::policy::Policy;
use task::refusal::Refusal;

/// How many runs a sheet is given at most.
pub const RUNS: u32 = 1_000;

/// How many slots a run makes at most.
pub const SLOTS: u32 = 1_000_000;

/// Loads the sheet into an open bench and starts it on the sheet's CPUs.
fn prepare<P: Policy>(bench: &mut Bench<P>, sheet: &[u8]) -> Result<(), Fault>
    requires { bench.old.mode ≡ Open }
    ensures { Prepares sheet.now (view bench.old) result (view bench.new) }
{
    let cpus = bench.load(sheet)?;
    bench.start(cpus)?;
    Ok(())
}

/// Gives a bench one run, and answers whether no other is wanted.
fn give_run<P: Policy>(bench: &mut Bench<P>) -> bool
    ensures view { view bench.new ≡ with_mode (view bench.old) bench.new.mode }
    ensures run { (bench.old.mode ≢ Open) → GoesOn (plan_for P.Policy.keyed P.Policy.precedes (view bench.old)) bench.old.mode 1000000 bench.new.mode × (result ≡ is_decided (verdict_of bench.new.mode)) }
{
    match bench.run(SLOTS) {
        Ok(verdict) => verdict.is_decided(),
        Err(_) => true,
    }
}

/// Gives a started bench its runs, and stops when it is decided.
fn give_runs<P: Policy>(bench: &mut Bench<P>)
    ensures view { view bench.new ≡ with_mode (view bench.old) bench.new.mode }
    ensures runs { (bench.old.mode ≢ Open) → GivenRuns (plan_for P.Policy.keyed P.Policy.precedes (view bench.old)) bench.old.mode 1000000000 bench.new.mode }
{
    for _ in 0..RUNS {
        if give_run(bench) {
            return;
        }
    }
}

/// Judges a sheet under a policy: writes the line to be printed from the buffer's beginning, and answers which it is, with
/// its length. Only a buffer that is too short is refused, and nothing is written then.
pub fn judge<P: Policy + Drop>(policy: P, sheet: &[u8], line: &mut [u8]) -> Result<Line, Refusal>
    ensures { Prints (P.Policy.keyed policy) (P.Policy.precedes policy) sheet.now line.old line.new result }
{
    if line.len() < LINE_LENGTH {
        return Err(Refusal::BufferTooShort);
    }
    let mut bench = Bench::new(policy);
    if let Err(fault) = prepare(&mut bench, sheet) {
        let length = fault_line(&fault, line)?;
        return Ok(Line::OfFault { length });
    }
    give_runs(&mut bench);
    let length = bench.line(line)?;
    Ok(Line::OfVerdict { length })
}
