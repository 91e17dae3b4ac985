ghost use Rattle.std.specs.Prelude.{◌≡◌, ◌+◌, ◌≤◌, length};
ghost use Rattle.report.specs.Reports.{Report, OneText};
ghost use Rattle.report.specs.Writes.{WritesLine, WritesReport};

use crate::judge::judge;
use crate::line::Line;
use arrayvec::ArrayVec;
use policy::deadline::Deadline;
use policy::heavy::{HeavyFirst, Threshold};
use policy::policy::Policy;
use policy::rank::Rank;

/// How many bytes a report has at most: those of four lines.
pub const REPORT_LENGTH: usize = 192;

/// The line of a fault was written, which has this length with its end. No other line follows it.
#[derive(Clone, Copy)]
struct Faulted {
    length: usize,
}

/// Judges a sheet under a policy, writes the line at `at`, and answers where a verdict's line ends.
// stays: a place in a lent buffer, as in `sheet::buffer`.
fn judge_at<P: Policy + Drop>(
    policy: P,
    sheet: &[u8],
    text: &mut [u8],
    at: usize,
) -> Result<usize, Faulted>
    requires { at + 48 ≤ length text.old }
    ensures { WritesLine (P.Policy.keyed policy) (P.Policy.precedes policy) sheet.now at text.old text.new result }
{
    match judge(policy, sheet, &mut text[at..]).unwrap() {
        Line::OfVerdict { length } => Ok(at + length),
        Line::OfFault { length } => Err(Faulted { length }),
    }
}

/// Writes the verdicts of a sheet from the buffer's beginning, and answers where they end, or the line of the first fault.
fn write_verdicts(sheet: &[u8], text: &mut [u8]) -> Result<usize, Faulted>
    requires { 192 ≤ length text.old }
    ensures { WritesReport sheet.now text.old text.new result }
{
    let threshold = Threshold::new(1, 2).unwrap();
    let end = judge_at(Deadline, sheet, text, 0)?;
    let end = judge_at(Rank, sheet, text, end)?;
    let below = Deadline;
    let end = judge_at(HeavyFirst { threshold, below }, sheet, text, end)?;
    let below = Rank;
    judge_at(HeavyFirst { threshold, below }, sheet, text, end)
}

/// What is printed for a sheet: its verdicts under deadline, rank, heavy-first 1/2 over deadline and heavy-first 1/2 over
/// rank, a line each, or one line for the fault for which it is refused.
pub fn report_text(sheet: &[u8]) -> ArrayVec<u8, REPORT_LENGTH>
    ensures text { Report sheet.now result.items }
    ensures one_text { OneText }
{
    let mut lines = [0u8; REPORT_LENGTH];
    let end = match write_verdicts(sheet, &mut lines) {
        Ok(end) => end,
        Err(Faulted { length }) => length,
    };
    let mut text = ArrayVec::from(lines);
    text.truncate(end);
    text
}
