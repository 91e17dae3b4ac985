ghost use Rattle.std.specs.Prelude.{◌≡◌};
ghost use Rattle.replay.specs.declared.denied.Denied.TheVariants.{Call, Sheet, Memory};
ghost use Rattle.replay.specs.Denials.{of_digits, apart_of};

use hex::FromHexError;
use sheet::fault::LoadFault;
use std::alloc::AllocError;
use std::fmt;
use task::refusal::Refusal;

/// Why what a line asks for is not done.
#[derive(Drop)]
pub enum Denied {
    /// The line is no call, or there is no bench to call.
    Unreadable,
    /// The call is refused.
    Call(Refusal),
    /// The sheet is not loaded.
    Sheet(LoadFault),
    /// There is no memory for it.
    Memory(AllocError),
}

/// What is printed for it.
impl fmt::Display for Denied {
    fn fmt<W: fmt::Write>(&self, f: &mut fmt::Formatter<W>) -> fmt::Result {
        match self {
            Denied::Unreadable => write!(f, "unreadable"),
            Denied::Call(refusal) => write!(f, "refused {}", refusal.number()),
            Denied::Sheet(fault) => write!(f, "refused {fault}"),
            Denied::Memory(e) => write!(f, "{e}"),
        }
    }
}

/// A refusal stays what it is.
impl From<Refusal> for Denied {
    ghost from_gives = { λ e r. r ≡ Call e };

    fn from(e: Refusal) -> Denied {
        Denied::Call(e)
    }
}

/// The fault of a load stays what it is.
impl From<LoadFault> for Denied {
    ghost from_gives = { λ e r. r ≡ Sheet e };

    fn from(e: LoadFault) -> Denied {
        Denied::Sheet(e)
    }
}

/// Lack of memory stays what it is.
impl From<AllocError> for Denied {
    ghost from_gives = { λ e r. r ≡ Memory e };

    fn from(e: AllocError) -> Denied {
        Denied::Memory(e)
    }
}

/// A word that spells no bytes makes its line unreadable.
impl From<FromHexError> for Denied {
    ghost from_gives = { λ e r. r ≡ of_digits e };

    fn from(e: FromHexError) -> Denied {
        match e {
            FromHexError::OutOfMemory => Denied::Memory(AllocError),
            _ => Denied::Unreadable,
        }
    }
}

/// Lack of memory by itself, and what else came of a line as it was.
pub fn apart<T>(told: Result<T, Denied>) -> Result<Result<T, Denied>, AllocError>
    ensures { result ≡ apart_of told }
{
    match told {
        Err(Denied::Memory(e)) => Err(e),
        told => Ok(told),
    }
}
