use crate::denied::Denied;
use std::alloc::Global;
use std::str::{FromStr, from_utf8};

/// The words of a line, which spaces separate. A line that is no text has none to read.
pub fn split_words(line: &[u8], heap: Global) -> Result<Vec<&str>, Denied> {
    let Ok(text) = from_utf8(line) else {
        return Err(Denied::Unreadable);
    };
    let words = text
        .split(' ')
        .filter(|word| !word.is_empty())
        .collect(heap)?;
    Ok(words)
}

/// The word, where it has only decimal digits: a sign makes no number here.
fn digits(word: &str) -> Result<&str, Denied> {
    if word.bytes().all(|b| b.is_ascii_digit()) {
        Ok(word)
    } else {
        Err(Denied::Unreadable)
    }
}

/// The word, where it has only hex digits, so that no memory is taken for any other.
pub(crate) fn hex_digits(word: &str) -> Result<&str, Denied> {
    if word.bytes().all(|b| b.is_ascii_hexdigit()) {
        Ok(word)
    } else {
        Err(Denied::Unreadable)
    }
}

/// The number that a word spells. One above the largest of its type counts as the largest, which is taken or refused alike.
pub fn clamped<T: FromStr + Drop>(word: &str, largest: T) -> Result<T, Denied>
where
    T::Err: Drop,
{
    Ok(digits(word)?.parse().unwrap_or(largest))
}

/// The number that a word spells. No bench can be handed one above the largest of its type, so that it makes no call.
pub fn exact<T: FromStr>(word: &str) -> Result<T, Denied>
where
    T::Err: Drop,
{
    digits(word)?.parse().map_err(|_| Denied::Unreadable)
}
