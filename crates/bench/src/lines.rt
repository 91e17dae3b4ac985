ghost use Rattle.std.specs.Prelude.{◌≡◌, ◌≤◌, length};
ghost use Rattle.bench.specs.Lines.{verdict_line, fault_line, room_refusal, WritesLine};
ghost use Rattle.sheet.specs.Buffers.{BeginsWith};

use crate::fault::Fault;
use crate::text::put_line;
use crate::verdict::Verdict;
use sheet::fault::LoadFault;
use task::refusal::Refusal;

/// How many bytes a buffer for a line has at least.
pub const LINE_LENGTH: usize = 48;

impl Verdict {
    /// Writes the verdict's line from the buffer's beginning.
    // stays: not by Display, whose contract does not say that it succeeds, as a line must.
    pub(crate) fn write(&self, buffer: &mut [u8]) -> usize
        requires { 48 ≤ length buffer.old }
        ensures short { result ≤ 48 }
        ensures text { BeginsWith (verdict_line self.now) buffer.old buffer.new result }
    {
        match self {
            Verdict::Holds { first, second } => put_line(buffer, b"HOLDS", &[*first, *second]),
            Verdict::Missed { task, instant } => {
                put_line(buffer, b"MISSED", &[u64::from(*task), *instant])
            }
            Verdict::Running { instant } => put_line(buffer, b"RUNNING", &[*instant]),
        }
    }
}

impl Fault {
    /// Writes the fault's line from the buffer's beginning.
    // stays: not by Display, as above.
    fn write(&self, buffer: &mut [u8]) -> usize
        requires { 48 ≤ length buffer.old }
        ensures short { result ≤ 48 }
        ensures text { BeginsWith (fault_line self.now) buffer.old buffer.new result }
    {
        match self {
            Fault::Load(fault) => {
                let word = match fault {
                    LoadFault::Sheet { .. } => b"REFUSED S",
                    LoadFault::Refused { .. } => b"REFUSED T",
                };
                // stays: `as`, since no From takes a usize to a u64.
                put_line(
                    buffer,
                    word,
                    &[u64::from(fault.number()), fault.place() as u64],
                )
            }
            Fault::Start(refusal) => {
                put_line(buffer, b"REFUSED B", &[u64::from(refusal.number())])
            }
        }
    }
}

/// Writes a fault's line from the buffer's beginning and answers its length; it needs no bench.
pub fn fault_line(fault: &Fault, buffer: &mut [u8]) -> Result<usize, Refusal>
    ensures { WritesLine (room_refusal (length buffer.old)) (fault_line fault.now) buffer.old buffer.new result }
{
    if buffer.len() < LINE_LENGTH {
        return Err(Refusal::BufferTooShort);
    }
    Ok(fault.write(buffer))
}
