use bench::verdict::Verdict;
use std::fmt;

/// How many bytes a buffer has at most: more than any sheet or line, so that a longer one is used alike.
pub const BUFFER_LENGTH: usize = 1024;

/// What a call that is made gives back. A sheet and a line stand in the buffer that is lent to the call.
#[derive(Clone, Copy)]
pub enum Answer<'a> {
    /// Nothing.
    Done,
    /// The sheet is loaded, and names so many CPUs.
    Loaded { cpus: u8 },
    /// The sheet that the table is saved as.
    Saved(&'a [u8]),
    /// The verdict.
    Told(Verdict),
    /// The running set, a bit for each task, and how many they are.
    Ran { word: u32, count: u32 },
    /// The verdict's line, with its end.
    Written(&'a [u8]),
}

/// What is printed for it.
impl fmt::Display for Answer<'_> {
    fn fmt<W: fmt::Write>(&self, f: &mut fmt::Formatter<W>) -> fmt::Result {
        match self {
            Answer::Done => write!(f, "ok"),
            Answer::Loaded { cpus } => write!(f, "ok {cpus}"),
            Answer::Saved(sheet) => show_sheet(sheet, f),
            Answer::Told(verdict) => write!(f, "{verdict}"),
            Answer::Ran { word, count } => write!(f, "ok {word:08X} {count}"),
            Answer::Written(line) => show_line(line, f),
        }
    }
}

/// Shows a sheet's length and its bytes.
fn show_sheet<W: fmt::Write>(sheet: &[u8], f: &mut fmt::Formatter<W>) -> fmt::Result {
    write!(f, "ok {} ", sheet.len())?;
    for b in sheet {
        write!(f, "{b:02X}")?;
    }
    Ok(())
}

/// Shows a line's length, with its end, and its text without the end.
fn show_line<W: fmt::Write>(line: &[u8], f: &mut fmt::Formatter<W>) -> fmt::Result {
    write!(f, "ok {} ", line.len())?;
    for b in line.strip_suffix(b"\n").unwrap_or(line) {
        write!(f, "{}", char::from(*b))?;
    }
    Ok(())
}
