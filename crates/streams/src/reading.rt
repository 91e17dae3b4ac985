ghost use Rattle.std.specs.Prelude.{◌≡◌, take, IfOk, IfSome, IfErr};
ghost use Rattle.streams.specs.Failures.{OfReading};

use crate::failure::Failure;
use arrayvec::ArrayVec;
use std::io;
use std::io::Read;

/// Reads up to the end or to so many bytes, without the heap, so that no input is turned down for memory.
pub fn read_start<R: Read + Drop, const N: usize>(input: R) -> Result<ArrayVec<u8, N>, Failure>
    ensures start { IfOk result (λ read. IfSome (R.Read.remaining input) (λ bytes. read.items ≡ take N bytes)) }
    ensures failure { IfErr result OfReading }
{
    let mut read = ArrayVec::new();
    io::copy(&mut input.take(N as u64), &mut read).map_err(Failure::on_reading)?;
    Ok(read)
}
