ghost use Rattle.std.specs.Prelude.{◌≤◌, length};
ghost use Rattle.bench.specs.Lines.{line_of};
ghost use Rattle.sheet.specs.Buffers.{BeginsWith};

use itoa::Buffer;
use sheet::buffer::put_all;

/// Writes a line from the buffer's beginning: a word, and numbers in decimal with a space before each.
pub(crate) fn put_line(buffer: &mut [u8], word: &[u8], numbers: &[u64]) -> usize
    requires { length (line_of word.now numbers.now) ≤ length buffer.old }
    ensures { BeginsWith (line_of word.now numbers.now) buffer.old buffer.new result }
{
    let mut end = put_all(buffer, 0, &[word]);
    for n in numbers {
        end = put_all(buffer, end, &[b" ", Buffer::new().format(*n).as_bytes()]);
    }
    put_all(buffer, end, &[b"\n"])
}
