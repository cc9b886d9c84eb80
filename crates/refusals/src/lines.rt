//! The words of a line, and the errors for an invalid one.

ghost use Rattle.std.specs.Prelude.{IfOk};
ghost use Rattle.ups_life.specs.Settings.{IsMoment};

use hex::FromHexError;
use std::alloc::Global;
use std::io::{self, ErrorKind};
use ups_life::{MAX_MOMENT, StepUid};
use ups_pdu::{Ae, Uid};

/// Returns the error for an invalid line.
pub(crate) fn no_course() -> io::Error {
    io::Error::from(ErrorKind::InvalidData)
}

/// Decodes hex digits.
///
/// Errors: InvalidData if they are not hex digits; lack of memory.
pub(crate) fn bytes_of(alloc: Global, digits: &str) -> io::Result<Vec<u8>> {
    match hex::decode(alloc, digits) {
        Ok(bytes) => Ok(bytes),
        Err(FromHexError::OutOfMemory) => Err(io::Error::from(ErrorKind::OutOfMemory)),
        Err(_) => Err(no_course()),
    }
}

/// Parses a number.
///
/// Errors: InvalidData if the text is not a number up to 65,535.
pub(crate) fn number_of(text: &str) -> io::Result<u16> {
    match text.parse::<u16>() {
        Ok(number) => Ok(number),
        Err(_) => Err(no_course()),
    }
}

/// Parses a moment, in seconds since 1970-01-01 UTC.
///
/// Errors: InvalidData if the text is not a moment.
pub(crate) fn moment_of(text: &str) -> io::Result<u64>
    ensures { IfOk result IsMoment }
{
    match text.parse::<u64>() {
        Ok(moment) if moment <= MAX_MOMENT => Ok(moment),
        _ => Err(no_course()),
    }
}

/// Returns bytes as a text.
///
/// Errors: InvalidData if they are none.
pub(crate) fn text_of(bytes: &[u8]) -> io::Result<&str> {
    match std::str::from_utf8(bytes) {
        Ok(text) => Ok(text),
        Err(_) => Err(no_course()),
    }
}

/// Returns the error for lack of memory.
pub(crate) fn lacking() -> io::Error {
    io::Error::from(ErrorKind::OutOfMemory)
}

/// Returns the title with these letters.
///
/// Errors: InvalidData if they are not a title.
pub(crate) fn title_of(letters: &[u8]) -> io::Result<Ae> {
    match Ae::of(letters) {
        Some(title) => Ok(title),
        None => Err(no_course()),
    }
}

/// Returns the step with the UID of these letters.
///
/// Errors: InvalidData if they are not the UID of a step.
pub(crate) fn step_of(letters: &[u8]) -> io::Result<StepUid> {
    match Uid::of(letters) {
        Some(uid) => StepUid::of(uid).ok_or(no_course()),
        None => Err(no_course()),
    }
}
