ghost use Rattle.std.specs.Prelude.{◌≡◌};
ghost use Rattle.std.specs.IoError.{error_kind};
ghost use Rattle.streams.specs.Failures.{memory_or, on_reading, words_of};
ghost use Rattle.streams.specs.declared.failure.Failure.TheVariants.{Memory};

use std::alloc::AllocError;
use std::io::ErrorKind;
use std::{fmt, io};

/// Why a program cannot go on.
#[derive(Clone, Copy, Debug)]
pub enum Failure {
    /// Standard input cannot be read.
    Input(io::Error),
    /// Standard output cannot be written.
    Output(io::Error),
    /// There is not enough memory.
    Memory,
}

/// Lack of memory where the error is that, or else the failure that is given.
fn memory_or(e: io::Error, other: Failure) -> Failure
    ensures { result ≡ memory_or (error_kind e) other }
{
    match e.kind() {
        ErrorKind::OutOfMemory => Failure::Memory,
        _ => other,
    }
}

impl Failure {
    /// What an error of a read from standard input is.
    pub fn on_reading(e: io::Error) -> Failure
        ensures { result ≡ on_reading e }
    {
        memory_or(e, Failure::Input(e))
    }

    /// The failure in plain words.
    pub fn words(&self) -> &str
        ensures { result.now ≡ words_of self.now }
    {
        match self {
            Failure::Input(_) => "standard input cannot be read",
            Failure::Output(_) => "standard output cannot be written",
            Failure::Memory => "there is not enough memory",
        }
    }
}

/// The failure in plain words, and what the system says of it.
impl fmt::Display for Failure {
    fn fmt<W: fmt::Write>(&self, f: &mut fmt::Formatter<W>) -> fmt::Result {
        let words = self.words();
        match self {
            Failure::Input(e) | Failure::Output(e) => write!(f, "{words}: {e}"),
            Failure::Memory => write!(f, "{words}"),
        }
    }
}

/// Lack of memory stays what it is.
impl From<AllocError> for Failure {
    ghost from_gives = { λ _ r. r ≡ Memory };

    fn from(_e: AllocError) -> Failure {
        Failure::Memory
    }
}
