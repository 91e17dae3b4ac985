use crate::answer::{Answer, BUFFER_LENGTH};
use crate::denied::Denied;
use crate::script::Call;
use bench::bench::Bench;
use policy::policy::Policy;
use task::refusal::Refusal;

/// Makes the call, and gives what the bench answers. What it writes, it writes into the buffer.
pub fn perform<'a, P: Policy>(
    bench: &mut Bench<P>,
    call: &Call,
    buffer: &'a mut [u8; BUFFER_LENGTH],
) -> Result<Answer<'a>, Denied> {
    let answer = match call {
        Call::Enter(entry) => {
            bench.enter(*entry)?;
            Answer::Done
        }
        Call::Withdraw { number } => {
            bench.withdraw(*number)?;
            Answer::Done
        }
        Call::Load { sheet } => {
            let cpus = bench.load(sheet.as_slice())?;
            Answer::Loaded { cpus }
        }
        Call::Save { cpus, length } => {
            Answer::Saved(written(buffer, *length, |room| bench.save(*cpus, room))?)
        }
        Call::Start { cpus } => {
            bench.start(*cpus)?;
            Answer::Done
        }
        Call::Run { slots } => Answer::Told(bench.run(*slots)?),
        Call::Halt => {
            bench.halt()?;
            Answer::Done
        }
        Call::Verdict => Answer::Told(bench.verdict()?),
        Call::Set => {
            let (word, count) = bench.set()?;
            Answer::Ran { word, count }
        }
        Call::Line { length } => {
            Answer::Written(written(buffer, *length, |room| bench.line(room))?)
        }
    };
    Ok(answer)
}

/// What the writer writes into so many bytes of the buffer.
fn written<'a, F: FnOnce(&mut [u8]) -> Result<usize, Refusal>>(
    buffer: &'a mut [u8; BUFFER_LENGTH],
    length: usize,
    write: F,
) -> Result<&'a [u8], Refusal>
    requires { F.IsAlwaysCallable write }
{
    let room = &mut buffer[..length.min(BUFFER_LENGTH)];
    let end = write(room)?;
    Ok(&room[..end.min(room.len())])
}
