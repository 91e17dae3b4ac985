//! Judges the timing sheet on standard input, and prints its verdicts.

#![tactic(auto)]

use report::print::print_report;
use std::process::ExitCode;
use streams::ending::end_program;

fn main(rt: HostRuntime) -> ExitCode {
    let printed = print_report(rt.stdin(), &mut rt.stdout());
    end_program(&rt, "strapverdict", printed)
}
