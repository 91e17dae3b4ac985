ghost use Rattle.std.specs.Prelude.{◌≡◌};
ghost use Rattle.std.specs.Process.{exit_status};
ghost use Rattle.streams.specs.Failures.{status_of};

use crate::failure::Failure;
use std::process::ExitCode;

/// Ends a program: tells a failure on standard error, after the program's name, and answers the exit status, which is 0, or
/// 1 after a failure.
pub fn end_program<R: Eprint>(rt: &R, program: &str, outcome: Result<(), Failure>) -> ExitCode
    ensures { exit_status result ≡ status_of outcome }
{
    match outcome {
        Ok(()) => ExitCode::SUCCESS,
        Err(failure) => {
            // Where standard error cannot be written either, the exit status alone tells it.
            let _ = rt.eprintln(format_args!("{program}: {failure}"));
            ExitCode::FAILURE
        }
    }
}
