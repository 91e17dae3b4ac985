ghost use Rattle.std.specs.Prelude.{IfSome};
ghost use Rattle.std.specs.Io.Buffered.{writer_contents, writer_buffer};
ghost use Rattle.judge.specs.Printing.{WritesText, PrintsLine, PrintsRead, PrintsLines, Flushed, OneOutput};

use crate::spelling::read_sheet;
use report::report::report_text;
use std::alloc::Global;
use std::io;
use std::io::{BufRead, BufWriter, Write};
use streams::failure::Failure;

/// Writes a text.
fn write_text<W: Write>(text: &[u8], output: &mut W) -> Result<(), Failure>
    ensures { WritesText text.now (W.contents output.old) (W.contents output.new) result }
{
    output.write_all(text).map_err(Failure::Output)
}

/// Writes what is printed for a line.
fn write_line<W: Write>(line: &[u8], output: &mut W, heap: Global) -> Result<(), Failure>
    ensures { PrintsLine line.now (W.contents output.old) (W.contents output.new) result }
{
    match read_sheet(line, heap)? {
        Some(sheet) => write_text(report_text(sheet.as_slice()).as_slice(), output),
        None => write_text(b"unreadable\n", output),
    }
}

/// Writes what is printed for a line, if it could be read.
fn write_read<W: Write>(
    line: io::Result<Vec<u8>>,
    output: &mut W,
    heap: Global,
) -> Result<(), Failure>
    ensures { PrintsRead line (W.contents output.old) (W.contents output.new) result }
{
    let line = line.map_err(Failure::on_reading)?;
    write_line(line.as_slice(), output, heap)
}

/// Writes what is printed for each line, in order.
fn write_lines<R: BufRead + Drop, W: Write>(
    input: R,
    output: &mut W,
    heap: Global,
) -> Result<(), Failure>
    ensures { IfSome (R.remaining input) (λ bytes. PrintsLines bytes (W.contents output.old) (W.contents output.new) result) }
{
    for line in input.split(heap, b'\n') {
        write_read(line, output, heap)?;
    }
    Ok(())
}

/// Writes what is printed for each line, in order, and holds nothing back: where the input fails or memory lacks, what is
/// printed for the lines before is written.
pub fn judge_lines<R: BufRead + Drop, W: Write + Drop>(
    input: R,
    output: &mut BufWriter<W>,
    heap: Global,
) -> Result<(), Failure>
    ensures text { IfSome (R.remaining input) (λ bytes. PrintsLines bytes (writer_contents W.contents output.old) (writer_contents W.contents output.new) result) }
    ensures flushed { Flushed (writer_buffer output.new) result }
    ensures one_output { OneOutput }
{
    let outcome = write_lines(input, output, heap);
    output.flush().map_err(Failure::Output)?;
    outcome
}
