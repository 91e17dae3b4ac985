ghost use Rattle.std.specs.Prelude.{◌+◌, ◌-◌, ◌≤◌, length, take};
ghost use Rattle.sheet.specs.Buffers.{Written, joined};

// Writes the bytes at `at`, as many as there is room for, and answers where they end
// stays: a place in and an end out. Functions that take a struct of both would also have to say that it holds the same bytes still, and as many.
fn put(buffer: &mut [u8], at: usize, bytes: &[u8]) -> usize
    ensures { Written at (take (length buffer.old - at) bytes.now) buffer.old buffer.new result }
{
    if at >= buffer.len() {
        return at;
    }
    let end = at + (buffer.len() - at).min(bytes.len());
    buffer[at..end].copy_from_slice(&bytes[..end - at]);
    end
}

/// Writes the pieces one after another from `at` on, as far as the buffer goes, and answers where they end.
pub fn put_all(buffer: &mut [u8], at: usize, pieces: &[&[u8]]) -> usize
    ensures fits { at + length (joined pieces.now) ≤ length buffer.old → Written at (joined pieces.now) buffer.old buffer.new result }
    ensures cut { Written at (take (length buffer.old - at) (joined pieces.now)) buffer.old buffer.new result }
{
    let mut end = at;
    for piece in pieces {
        end = put(buffer, end, piece);
    }
    end
}
