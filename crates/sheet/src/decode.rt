ghost use Rattle.std.specs.Prelude.{◌≡◌, ◌+◌, ◌^◌, ◌<◌, ◌≤◌, true, false, List, ◌++◌, length, take, drop, Some, None, Ok, Err, Option};
ghost use Rattle.task.specs.declared.entry.Entry.{Entry as Raw};
ghost use Rattle.task.specs.Rules.{cpus_refusal, no_tasks};
ghost use Rattle.sheet.specs.Format.{cp, entry_in};
ghost use Rattle.sheet.specs.Faults.{fault_at};
ghost use Rattle.sheet.specs.Reading.{Misreads, Next};
ghost use Rattle.sheet.specs.Decoding.{Answer, seen, Decodes};

use crate::fault::{LoadFault, Misread, Placed, SheetFault};
use task::checks::check_cpus;
use task::entry::Entry;
use task::refusal::Refusal;
use task::table::Table;

// N of the twenty bytes after a mark TK, from a place on
fn field<const N: usize>(bytes: &[u8; 20], at: usize) -> [u8; N]
    requires { at + N ≤ 20 }
    ensures { result ≡ take N (drop at bytes.now) }
{
    *bytes[at..at + N].first_chunk::<N>().unwrap()
}

// The entry that follows a mark TK, and what comes after it
fn read_entry(body: &[u8]) -> Option<(Entry, &[u8])>
    ensures { elim result [ None ↦ length body.now < 20 | Some q ↦ (20 ≤ length body.now) × (q.0 ≡ entry_in body.now) × (q.1.now ≡ drop 20 body.now) ] }
{
    let (record, rest) = body.split_first_chunk::<20>()?;
    let entry = Entry {
        number: record[0],
        name: field(record, 1),
        rank: record[9],
        offset: u32::from_be_bytes(field(record, 10)),
        runtime: u16::from_be_bytes(field(record, 14)),
        deadline: u16::from_be_bytes(field(record, 16)),
        period: u16::from_be_bytes(field(record, 18)),
    };
    Some((entry, rest))
}

// The first record, CP: the number of CPUs, and what comes after it
fn opening(bytes: &[u8]) -> Result<(u8, &[u8]), LoadFault>
    ensures { elim result [ Ok q ↦ (bytes.now ≡ cp q.0 ++ q.1.now) × (cpus_refusal q.0 ≡ None) | Err f ↦ fault_at true no_tasks 0 bytes.now ≡ Some f ] }
{
    // stays: a slice pattern takes the mark and the rest apart in one step, so that no place is indexed.
    let fault = match bytes {
        [b'C', b'P', cpus, rest @ ..] => {
            check_cpus(*cpus).map_err(|refusal| Placed { refusal, place: 0 })?;
            return Ok((*cpus, rest));
        }
        [b'C', b'P'] => SheetFault::CutShort,
        [b'T', b'K', ..] | [b'E', b'N', ..] => SheetFault::OutOfOrder,
        [_, _, ..] => SheetFault::UnknownMark,
        _ => SheetFault::NoMark,
    };
    Err(LoadFault::Sheet { fault, place: 0 })
}

// A later record at the place, TK or the last, EN: None there, and else the entry, and what comes after it
fn next_task(bytes: &[u8], place: usize) -> Result<Option<(Entry, &[u8])>, Misread>
    requires { place + length bytes.now < 2 ^ 64 }
    ensures { elim result [ Ok o ↦ Next place bytes.now o | Err m ↦ ((t : List (Option Raw)) → Misreads false t place bytes.now m) ] }
{
    // stays: slice patterns, as in `opening`.
    let fault = match bytes {
        [b'T', b'K', body @ ..] => match read_entry(body) {
            Some((entry, rest)) => return Ok(Some((entry, rest))),
            None => SheetFault::CutShort,
        },
        [b'E', b'N'] => return Ok(None),
        [b'E', b'N', ..] => {
            return Err(Misread {
                fault: SheetFault::Trailing,
                place: place + 2,
            });
        }
        [b'C', b'P', ..] => SheetFault::OutOfOrder,
        [_, _, ..] => SheetFault::UnknownMark,
        _ => SheetFault::NoMark,
    };
    Err(Misread { fault, place })
}

// The records one after another, each entry into the table that those before it made
fn read_records(bytes: &[u8]) -> Result<(u8, Table), LoadFault>
    ensures { Decodes bytes.now (seen result) }
{
    let (cpus, mut rest) = opening(bytes)?;
    let mut table = Table::new();
    loop {
        let place = bytes.len() - rest.len();
        let Some((entry, after)) = next_task(rest, place)? else {
            return Ok((cpus, table));
        };
        table
            .enter(entry)
            .map_err(|refusal| Placed { refusal, place })?;
        rest = after;
    }
}

/// The number of CPUs and the table that a sheet tells, or the fault of its first bad record. No more than the first 4,096 bytes matter.
pub fn decode(bytes: &[u8]) -> Result<(u8, Table), LoadFault>
    ensures answer { Decodes bytes.now (seen result) }
    ensures only { (q : Answer) → Decodes bytes.now q → q ≡ seen result }
    ensures prefix { Decodes (take 4096 bytes.now) (seen result) }
{
    read_records(bytes)
}
