ghost use Rattle.std.specs.Prelude.{◌≡◌, ◌+◌, ◌≤◌, length, take, IfOk, Ok};
ghost use Rattle.std.specs.List.{flat_map};
ghost use Rattle.task.specs.Tables.{entries};
ghost use Rattle.sheet.specs.Format.{tk};
ghost use Rattle.sheet.specs.Buffers.{Written};
ghost use Rattle.sheet.specs.Encoding.{listed, Encodes};
ghost use Rattle.sheet.specs.Decoding.{Decodes};

use task::checks::check_cpus;
use task::refusal::Refusal;
use task::table::Table;
use task::task::Task;

// Writes the bytes at `at`, where there is room for all of them, and answers where they end
fn put(buffer: &mut [u8], at: usize, bytes: &[u8]) -> usize
    requires { at + length bytes.now ≤ length buffer.old }
    ensures { Written at bytes.now buffer.old buffer.new result }
{
    let end = at + bytes.len();
    buffer[at..end].copy_from_slice(bytes);
    end
}

// Writes the record of a task at `at`, and answers where it ends
fn put_task(buffer: &mut [u8], at: usize, task: &Task) -> usize
    requires { at + 22 ≤ length buffer.old }
    ensures written { Written at (tk task.now.figures) buffer.old buffer.new result }
    ensures next { result ≡ at + 22 }
{
    let at = put(buffer, at, &[b'T', b'K', task.number()]);
    let at = put(buffer, at, &task.name());
    let at = put(buffer, at, &[task.rank()]);
    let at = put(buffer, at, &task.offset().to_be_bytes());
    let at = put(buffer, at, &task.runtime().to_be_bytes());
    let at = put(buffer, at, &task.deadline().to_be_bytes());
    put(buffer, at, &task.period().to_be_bytes())
}

// Writes the records of the tasks at `at` in rising task numbers, and answers where they end
fn put_tasks(buffer: &mut [u8], at: usize, tasks: &[Option<Task>; 32]) -> usize
    requires { at + 704 ≤ length buffer.old }
    ensures written { Written at (flat_map tk (listed (entries tasks.now))) buffer.old buffer.new result }
    ensures next { result ≤ at + 704 }
{
    let mut end = at;
    for task in tasks.iter().flatten() {
        end = put_task(buffer, end, task);
    }
    end
}

// Writes the table as a sheet from the buffer's beginning
fn write_sheet(table: &Table, cpus: u8, buffer: &mut [u8]) -> Result<usize, Refusal>
    ensures { Encodes (entries table.now.tasks) cpus buffer.old buffer.new result }
{
    check_cpus(cpus)?;
    if buffer.len() < 709 {
        return Err(Refusal::BufferTooShort);
    }
    let at = put(buffer, 0, &[b'C', b'P', cpus]);
    let at = put_tasks(buffer, at, table.tasks());
    Ok(put(buffer, at, b"EN"))
}

/// Writes the table as a sheet from the buffer's beginning, its tasks in rising numbers, and answers the sheet's length; or refuses, and leaves every byte as it was. What was written decodes to the CPUs and the table again.
pub fn encode(table: &Table, cpus: u8, buffer: &mut [u8]) -> Result<usize, Refusal>
    ensures written { Encodes (entries table.now.tasks) cpus buffer.old buffer.new result }
    ensures loads_back { IfOk result (λ n. Decodes (take n buffer.new) (Ok (cpus, entries table.now.tasks))) }
{
    write_sheet(table, cpus, buffer)
}
