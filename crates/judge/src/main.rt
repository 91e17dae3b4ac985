//! Judges the timing sheets on standard input, each a line of hex digits, and prints for each what `strapverdict` prints. A
//! line that spells no sheet is answered with `unreadable`.

#![tactic(auto)]

/// What is printed for the lines of an input.
mod lines;
/// The sheet that a line spells.
mod spelling;

use lines::judge_lines;
use std::io::{BufReader, BufWriter};
use std::process::ExitCode;
use streams::ending::end_program;
use streams::failure::Failure;

/// Judges the lines of standard input.
fn judge(rt: &HostRuntime) -> Result<(), Failure> {
    let input = BufReader::new(rt.alloc(), rt.stdin()).map_err(Failure::on_reading)?;
    let mut output = BufWriter::new(rt.alloc(), rt.stdout()).map_err(|_| Failure::Memory)?;
    judge_lines(input, &mut output, rt.alloc())
}

fn main(rt: HostRuntime) -> ExitCode {
    end_program(&rt, "judge", judge(&rt))
}
