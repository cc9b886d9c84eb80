//! Words, and why they or memory fail.

use std::io::{self, ErrorKind};

/// Returns the error for invalid words.
pub(crate) fn no_words() -> io::Error {
    io::Error::from(ErrorKind::InvalidInput)
}

/// Returns the error for lack of memory.
pub(crate) fn out_of_memory() -> io::Error {
    io::Error::from(ErrorKind::OutOfMemory)
}

/// Parses a number.
///
/// Errors: InvalidInput if the word is not a number.
pub(crate) fn number_of(word: &str) -> io::Result<u64> {
    match word.parse::<u64>() {
        Ok(number) => Ok(number),
        Err(_) => Err(no_words()),
    }
}
