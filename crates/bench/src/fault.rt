ghost use Rattle.std.specs.Prelude.{◌≡◌};
ghost use Rattle.bench.specs.declared.fault.Fault.TheVariants.{Load, Start};

use sheet::fault::LoadFault;
use task::refusal::Refusal;

/// Why a sheet is not judged.
#[derive(Clone, Copy, PartialEq, Eq, Debug)]
pub enum Fault {
    /// The sheet was not loaded.
    Load(LoadFault),
    /// The bench was not started.
    Start(Refusal),
}

/// The fault of a load stays what it is.
impl From<LoadFault> for Fault {
    ghost from_gives = { λ e r. r ≡ Load e };

    fn from(e: LoadFault) -> Fault {
        Fault::Load(e)
    }
}

/// The refusal of a start stays what it is.
impl From<Refusal> for Fault {
    ghost from_gives = { λ e r. r ≡ Start e };

    fn from(e: Refusal) -> Fault {
        Fault::Start(e)
    }
}
