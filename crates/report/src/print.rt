ghost use Rattle.std.specs.Prelude.{◌≡◌, OnOk, IfErr, IfSome, take};
ghost use Rattle.report.specs.Reports.{ReportIsAppended};
ghost use Rattle.streams.specs.Failures.{OfReading};

use crate::report::report_text;
use std::io::{Read, Write};
use streams::failure::Failure;
use streams::reading::read_start;

/// How many bytes of an input are read: a longer input has the same first fault.
pub const SHEET_LENGTH: usize = 4096;

/// Reads a sheet, up to the end of the input or to so many bytes, and prints its report. Where the input cannot be read,
/// nothing is printed.
pub fn print_report<R: Read + Drop, W: Write>(input: R, output: &mut W) -> Result<(), Failure>
    ensures report { OnOk result (IfSome (R.Read.remaining input) (λ bytes. ReportIsAppended (take 4096 bytes) (W.Write.contents output.old) (W.Write.contents output.new))) }
    ensures unread { IfErr result (λ f. OfReading f → output.new ≡ output.old) }
{
    let sheet = read_start::<R, SHEET_LENGTH>(input)?;
    let text = report_text(sheet.as_slice());
    output.write_all(text.as_slice()).map_err(Failure::Output)
}
