ghost use Rattle.std.specs.Prelude.{◌≡◌, IfOk, vec_items};
ghost use Rattle.std.specs.List.{list_all};
ghost use Rattle.std.specs.Option.{option_map};
ghost use Rattle.std.specs.Io.BufRead.{strip_last};
ghost use Rattle.hex.specs.Hex.{is_hex_digit};
ghost use Rattle.judge.specs.Spelling.{is_hyphen, sheet_of};

use hex::FromHexError;
use std::alloc::{AllocError, Global};

/// A line without a carriage return at its end, if there is one.
fn without_return(line: &[u8]) -> &[u8]
    ensures { result.now ≡ strip_last 13 line.now }
{
    match line {
        [front @ .., b'\r'] => front,
        _ => line,
    }
}

/// Whether a word is a hyphen alone.
fn is_hyphen(word: &[u8]) -> bool
    ensures { result ≡ is_hyphen word.now }
{
    matches!(word, [b'-'])
}

/// Whether a word has hex digits alone, of either case.
fn is_hex(word: &[u8]) -> bool
    ensures { result ≡ list_all is_hex_digit word.now }
{
    word.iter().all(|b| b.is_ascii_hexdigit())
}

/// The sheet that a line spells, two hex digits for each byte and a hyphen for the sheet without bytes; none for any other line.
pub fn read_sheet(line: &[u8], heap: Global) -> Result<Option<Vec<u8>>, AllocError>
    ensures { IfOk result (λ sheet. option_map vec_items sheet ≡ sheet_of line.now) }
{
    let word = without_return(line);
    if is_hyphen(word) {
        return Ok(Some(Vec::new(heap)));
    }
    // No memory is taken for a line with another character.
    if !is_hex(word) {
        return Ok(None);
    }
    match hex::decode(heap, word) {
        Ok(sheet) => Ok(Some(sheet)),
        Err(e) => match e {
            FromHexError::OutOfMemory => Err(AllocError),
            _ => Ok(None),
        },
    }
}
