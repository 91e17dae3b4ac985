//! Makes the calls of a script on standard input, a line each, and prints what the bench answers to each.
//!
//!     bench POLICY                      ok, or refused K; POLICY is deadline, rank or heavy A B POLICY, two layers at most
//!     enter NUMBER NAME RANK O C D T    ok, or refused K; NAME is 16 hex digits
//!     withdraw NUMBER                   ok, or refused K
//!     load HEX                          ok CPUS, or refused S K PLACE, or refused T K PLACE; HEX is - for no bytes
//!     save CPUS LENGTH                  ok LENGTH HEX, or refused K
//!     start CPUS                        ok, or refused K
//!     run N                             HOLDS A B, MISSED TASK INSTANT or RUNNING INSTANT, or refused K
//!     halt                              ok, or refused K
//!     verdict                           as run
//!     set                               ok WORD COUNT, or refused K
//!     line LENGTH                       ok LENGTH TEXT, or refused K
//!
//! A LENGTH that is handed in is the buffer's, and one that is answered is of what was written. A line that is no call, or
//! a call before there is a bench, is answered with "unreadable". Blank lines and lines that begin with # are skipped.

#![tactic(auto)]

ghost use Rattle.std.specs.Io.Buffered.{writer_buffer};
ghost use Rattle.replay.specs.Printing.{Flushed};

mod answer;
mod benches;
mod denied;
mod perform;
mod script;
mod session;
mod words;

use denied::apart;
use session::Session;
use std::io::{BufRead, BufReader, BufWriter, Write};
use std::process::ExitCode;
use streams::ending::end_program;
use streams::failure::Failure;

/// Does what a line asks for, and prints the answer, if there is one, at once. Lack of memory ends the script.
fn replay_line<W: Write + Drop>(
    line: &[u8],
    session: &mut Session,
    out: &mut BufWriter<W>,
) -> Result<(), Failure>
    ensures flushed { Flushed (writer_buffer out.old) (writer_buffer out.new) result }
{
    let printed = match apart(session.answer(line))? {
        Ok(None) => Ok(()),
        Ok(Some(answer)) => writeln!(out, "{answer}"),
        Err(denied) => writeln!(out, "{denied}"),
    };
    printed.map_err(Failure::Output)?;
    out.flush().map_err(Failure::Output)
}

/// Goes through the lines of a script. A carriage return at the end of a line does not count.
fn replay(rt: &HostRuntime) -> Result<(), Failure> {
    let mut out = BufWriter::new(rt.alloc(), rt.stdout()).map_err(|_| Failure::Memory)?;
    let mut session = Session::new(rt.alloc());
    let script = BufReader::new(rt.alloc(), rt.stdin()).map_err(Failure::on_reading)?;
    for line in script.split(rt.alloc(), b'\n') {
        let line = line.map_err(Failure::on_reading)?;
        let line = line.as_slice();
        let line = line.strip_suffix(b"\r").unwrap_or(line);
        replay_line(line, &mut session, &mut out)?;
    }
    Ok(())
}

fn main(rt: HostRuntime) -> ExitCode {
    end_program(&rt, "replay", replay(&rt))
}
