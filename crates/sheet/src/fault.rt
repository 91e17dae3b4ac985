ghost use Rattle.std.specs.Prelude.{◌≡◌, Some};
ghost use Rattle.sheet.specs.declared.fault.LoadFault.TheVariants.{Sheet, Refused};
ghost use Rattle.sheet.specs.Faults.{sheet_number_of, fault_number, fault_place, fault_text};

use std::fmt;
use task::refusal::Refusal;

/// What can be wrong with the form of a sheet. specs/Faults.antt gives each case its number.
#[derive(Clone, Copy, PartialEq, Eq, Debug)]
pub enum SheetFault {
    /// Fewer than two bytes remain where a record is due.
    NoMark = 3,
    /// The two bytes are no record's mark.
    UnknownMark = 4,
    /// The first record is no CP, or a later one is.
    OutOfOrder = 5,
    /// The bytes end within the record.
    CutShort = 6,
    /// Bytes follow the last record, EN.
    Trailing = 7,
}

impl SheetFault {
    /// The number that the fault goes by.
    pub fn number(&self) -> u8
        ensures { result ≡ sheet_number_of self.now }
    {
        *self as u8
    }
}

/// Why a sheet is not loaded: a fault of its form, or a refusal of what a record says, and the place of that in the bytes.
#[derive(Clone, Copy, PartialEq, Eq, Debug)]
pub enum LoadFault {
    /// The sheet has a fault of its form at the place.
    Sheet { fault: SheetFault, place: usize },
    /// The record at the place is refused.
    Refused { refusal: Refusal, place: usize },
}

impl LoadFault {
    /// The number that the fault or the refusal goes by.
    pub fn number(&self) -> u8
        ensures { result ≡ fault_number self.now }
    {
        match self {
            LoadFault::Sheet { fault, .. } => fault.number(),
            LoadFault::Refused { refusal, .. } => refusal.number(),
        }
    }

    /// The place in the bytes, counted from 0.
    pub fn place(&self) -> usize
        ensures { result ≡ fault_place self.now }
    {
        match self {
            LoadFault::Sheet { place, .. } | LoadFault::Refused { place, .. } => *place,
        }
    }
}

/// S for a fault of the form or T for a refusal, the number, and the place.
impl fmt::Display for LoadFault {
    ghost output = { λ f. Some (fault_text f) };

    fn fmt<W: fmt::Write>(&self, f: &mut fmt::Formatter<W>) -> fmt::Result {
        let layer = match self {
            LoadFault::Sheet { .. } => 'S',
            LoadFault::Refused { .. } => 'T',
        };
        write!(f, "{layer} {} {}", self.number(), self.place())
    }
}

/// A fault of the form of a sheet, and its place.
#[derive(Clone, Copy, PartialEq, Eq, Debug)]
pub struct Misread {
    /// The fault.
    pub fault: SheetFault,
    /// The place in the bytes.
    pub place: usize,
}

/// A refusal, and the place of the record that is refused.
// stays: a struct of both, since From takes one value only.
#[derive(Clone, Copy, PartialEq, Eq, Debug)]
pub struct Placed {
    /// The refusal.
    pub refusal: Refusal,
    /// The place in the bytes.
    pub place: usize,
}

/// A fault of the form stays what it is, at its place.
impl From<Misread> for LoadFault {
    ghost from_gives = { λ e r. r ≡ Sheet e.fault e.place };

    fn from(e: Misread) -> LoadFault {
        LoadFault::Sheet {
            fault: e.fault,
            place: e.place,
        }
    }
}

/// A refusal stays what it is, at its place.
impl From<Placed> for LoadFault {
    ghost from_gives = { λ e r. r ≡ Refused e.refusal e.place };

    fn from(e: Placed) -> LoadFault {
        LoadFault::Refused {
            refusal: e.refusal,
            place: e.place,
        }
    }
}
