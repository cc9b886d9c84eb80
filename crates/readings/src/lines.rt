//! The lines of input and output.

use hex::FromHexError;
use std::alloc::Global;
use std::io::{self, ErrorKind};

/// Returns the error for an invalid line.
pub(crate) fn no_row() -> io::Error {
    io::Error::from(ErrorKind::InvalidData)
}

/// Returns the error for lack of memory.
pub(crate) fn out_of_memory() -> io::Error {
    io::Error::from(ErrorKind::OutOfMemory)
}

/// Decodes hex digits.
///
/// Errors: InvalidData if they are not hex digits; lack of memory.
pub(crate) fn bytes_of(alloc: Global, digits: &str) -> io::Result<Vec<u8>> {
    match hex::decode(alloc, digits) {
        Ok(bytes) => Ok(bytes),
        Err(FromHexError::OutOfMemory) => Err(out_of_memory()),
        Err(_) => Err(no_row()),
    }
}

/// Returns a line of output: a text, and the written bytes in hex digits.
///
/// Errors: lack of memory.
pub(crate) fn line_of(alloc: Global, told: &str, written: &[u8]) -> io::Result<String> {
    let digits = hex::encode(alloc, written)?;
    Ok(format!(in alloc; "{told} | {digits}")?)
}
