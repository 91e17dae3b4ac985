use crate::denied::Denied;
use crate::words::{clamped, exact, hex_digits};
use hex::FromHex;
use std::alloc::Global;
use std::str::FromStr;
use task::entry::Entry;

/// What a line asks for.
#[derive(Drop)]
pub enum Request {
    /// A new bench with this policy.
    New(Setup),
    /// A call of the bench.
    Perform(Call),
}

/// What a new bench orders its jobs by. Thresholds are not judged yet.
#[derive(Clone, Copy, PartialEq, Eq, Debug)]
pub enum Setup {
    /// A base alone.
    Plain(Base),
    /// Heavy tasks first, over a base.
    Layered(Ratio, Base),
    /// Heavy tasks first by the first threshold, then by the second, over a base.
    Twice(Ratio, Ratio, Base),
}

/// A policy without layers.
#[derive(Clone, Copy, PartialEq, Eq, Debug)]
pub enum Base {
    /// Earliest deadline first.
    Deadline,
    /// Fixed priorities.
    Rank,
}

/// The policy that a word names.
impl FromStr for Base {
    type Err = Denied;

    fn from_str(word: &str) -> Result<Base, Denied> {
        match word {
            "deadline" => Ok(Base::Deadline),
            "rank" => Ok(Base::Rank),
            _ => Err(Denied::Unreadable),
        }
    }
}

/// A threshold a/b as it comes.
#[derive(Clone, Copy, PartialEq, Eq, Debug)]
pub struct Ratio {
    /// What stands above the line.
    pub a: u32,
    /// What stands below it.
    pub b: u32,
}

/// A call of a bench, with what is handed in; a buffer is given by its length.
#[derive(Drop)]
pub enum Call {
    /// Add a task.
    Enter(Entry),
    /// Remove the task with this number.
    Withdraw { number: u8 },
    /// Replace the table by the sheet's.
    Load { sheet: Vec<u8> },
    /// Write the table as a sheet.
    Save { cpus: u8, length: usize },
    /// Put the bench at instant 0.
    Start { cpus: u8 },
    /// Make slots.
    Run { slots: u32 },
    /// Open the bench again.
    Halt,
    /// Tell the verdict.
    Verdict,
    /// Tell the running set.
    Set,
    /// Write the verdict's line.
    Line { length: usize },
}

/// What the words of a line ask for.
pub fn read_request(words: &[&str], heap: Global) -> Result<Request, Denied> {
    match words {
        ["bench", policy @ ..] => Ok(Request::New(read_setup(policy)?)),
        ["enter", figures @ ..] => Ok(Request::Perform(Call::Enter(read_entry(figures)?))),
        ["load", sheet] => Ok(Request::Perform(Call::Load {
            sheet: read_sheet(sheet, heap)?,
        })),
        _ => Ok(Request::Perform(read_call(words)?)),
    }
}

/// The policy that the words name.
fn read_setup(words: &[&str]) -> Result<Setup, Denied> {
    match words {
        [below] => Ok(Setup::Plain(below.parse()?)),
        ["heavy", a, b, below] => Ok(Setup::Layered(read_ratio(a, b)?, below.parse()?)),
        ["heavy", a, b, "heavy", c, d, below] => Ok(Setup::Twice(
            read_ratio(a, b)?,
            read_ratio(c, d)?,
            below.parse()?,
        )),
        _ => Err(Denied::Unreadable),
    }
}

/// The threshold of two numbers.
fn read_ratio(a: &str, b: &str) -> Result<Ratio, Denied> {
    Ok(Ratio {
        a: clamped(a, u32::MAX)?,
        b: clamped(b, u32::MAX)?,
    })
}

/// The figures of a task.
fn read_entry(words: &[&str]) -> Result<Entry, Denied> {
    let [number, name, rank, offset, runtime, deadline, period] = words else {
        return Err(Denied::Unreadable);
    };
    Ok(Entry {
        number: clamped(number, u8::MAX)?,
        name: FromHex::from_hex(*name)?,
        rank: exact(rank)?,
        offset: clamped(offset, u32::MAX)?,
        runtime: clamped(runtime, u16::MAX)?,
        deadline: clamped(deadline, u16::MAX)?,
        period: clamped(period, u16::MAX)?,
    })
}

/// The sheet that a word spells; a hyphen spells the one without bytes.
fn read_sheet(word: &str, heap: Global) -> Result<Vec<u8>, Denied> {
    match word {
        "-" => Ok(Vec::new(heap)),
        _ => Ok(hex::decode(heap, hex_digits(word)?)?),
    }
}

/// A call of numbers alone.
fn read_call(words: &[&str]) -> Result<Call, Denied> {
    match words {
        ["withdraw", number] => Ok(Call::Withdraw {
            number: clamped(number, u8::MAX)?,
        }),
        ["save", cpus, length] => Ok(Call::Save {
            cpus: clamped(cpus, u8::MAX)?,
            length: clamped(length, usize::MAX)?,
        }),
        ["start", cpus] => Ok(Call::Start {
            cpus: clamped(cpus, u8::MAX)?,
        }),
        ["run", slots] => Ok(Call::Run {
            slots: exact(slots)?,
        }),
        ["halt"] => Ok(Call::Halt),
        ["verdict"] => Ok(Call::Verdict),
        ["set"] => Ok(Call::Set),
        ["line", length] => Ok(Call::Line {
            length: clamped(length, usize::MAX)?,
        }),
        _ => Err(Denied::Unreadable),
    }
}
