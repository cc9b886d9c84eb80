//! Parts of messages: UIDs, titles, tags.

use crate::lines::{line_of, no_row};
use std::alloc::Global;
use std::io;
use ups_assoc::{SopClass, data_follows};
use ups_dataset::dictionary::DICTIONARY;
use ups_dataset::{Tag, vr_of};
use ups_pdu::{Ae, Uid, be_u32_at, without_padding};

/// Returns a line that says whether bytes encode a UID, with the UID.
pub(crate) fn uid_line(alloc: Global, bytes: &[u8]) -> io::Result<String> {
    match Uid::of(bytes) {
        Some(uid) => line_of(alloc, "a UID", uid.as_bytes()),
        None => line_of(alloc, "none", b""),
    }
}

/// Returns a line that says whether bytes encode a title, with the title.
pub(crate) fn title_line(alloc: Global, bytes: &[u8]) -> io::Result<String> {
    match Ae::of(bytes) {
        Some(title) => line_of(alloc, "a title", title.as_bytes()),
        None => line_of(alloc, "none", b""),
    }
}

/// Returns a line with bytes without the padding after them.
pub(crate) fn padded_line(alloc: Global, bytes: &[u8]) -> io::Result<String> {
    line_of(alloc, "bytes", without_padding(bytes))
}

/// Returns a line with the letters of the value representation that the dictionary gives the tag with this number.
///
/// Errors: InvalidData if there is no number of four bytes; lack of memory.
pub(crate) fn tag_line(alloc: Global, bytes: &[u8]) -> io::Result<String> {
    let Some((number, _)) = be_u32_at(bytes) else {
        return Err(no_row());
    };
    let tag = Tag {
        group: (number >> 16) as u16,
        element: (number & 0xffff) as u16,
    };
    line_of(alloc, "letters", &vr_of(tag).letters())
}

/// Returns a line with the number of attributes in the dictionary.
pub(crate) fn dictionary_line(alloc: Global) -> io::Result<String> {
    let told = format!(in alloc; "{} attributes", DICTIONARY.len())?;
    line_of(alloc, told.as_str(), b"")
}

/// Returns a line with the SOP class of a UID, and its registered UID.
///
/// Errors: InvalidData if the bytes are not a UID; lack of memory.
pub(crate) fn class_line(alloc: Global, bytes: &[u8]) -> io::Result<String> {
    let Some(uid) = Uid::of(bytes) else {
        return Err(no_row());
    };
    match SopClass::of(&uid) {
        Some(class) => {
            let told = format!(in alloc; "{class:?}")?;
            line_of(alloc, told.as_str(), class.registered().text())
        }
        None => line_of(alloc, "none", b""),
    }
}

/// Returns a line that says whether the bytes of a command set announce a data set.
pub(crate) fn announcing_line(alloc: Global, bytes: &[u8]) -> io::Result<String> {
    let told = if data_follows(bytes) { "yes" } else { "no" };
    line_of(alloc, told, b"")
}
