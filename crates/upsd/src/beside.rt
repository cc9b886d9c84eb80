//! The terms of a running server, in a file beside its store: there a check reads them, which can't have the store's lock.

use std::alloc::{AllocError, AllocFailed};
use std::fs::{self, OpenOptions};
use std::io::{self, ErrorKind, Read, Write};
use std::os::unix::fs::OpenOptionsExt;
use thiserror::Error;

/// The maximum size of the file, in bytes: a thousand peers take 23,000.
const MAX_BESIDE: usize = 65_536;

/// Who may read the file: only its owner, as with the store.
const MODE: u32 = 0o600;

/// Why the terms of a running server are not known.
#[derive(Clone, Copy, Debug, Error)]
pub(crate) enum BesideFault {
    /// The system can't open or read the file: it is missing if the server is of a version that writes none.
    #[error("{0}")]
    Unread(io::Error),
    /// It is a link, or has other text than a server writes.
    #[error("it is not what a server writes")]
    Unreadable,
    /// Memory ran out.
    #[error("out of memory")]
    Memory,
}

impl From<AllocError> for BesideFault {
    fn from(_e: AllocError) -> BesideFault {
        BesideFault::Memory
    }
}

impl<T: Drop> From<AllocFailed<T>> for BesideFault {
    fn from(_e: AllocFailed<T>) -> BesideFault {
        BesideFault::Memory
    }
}

impl From<io::Error> for BesideFault {
    fn from(error: io::Error) -> BesideFault {
        if error.kind() == ErrorKind::OutOfMemory {
            return BesideFault::Memory;
        }
        BesideFault::Unread(error)
    }
}

/// What a running server told of itself.
#[derive(Drop)]
pub(crate) struct Beside {
    /// The port that its command line names.
    pub(crate) port: u16,
    /// The text of its terms.
    pub(crate) terms: String,
}

/// Returns the path of the file beside a store.
///
/// Errors: lack of memory.
pub(crate) fn path_beside(rt: &HostRuntime, store: &str) -> Result<String, AllocError> {
    format!(in rt.alloc(); "{store}-terms")
}

/// Removes a file if it is there.
///
/// Errors: those of the system.
fn remove(rt: &HostRuntime, path: &str) -> io::Result<()> {
    match fs::remove_file(rt, path) {
        Err(error) if error.kind() != ErrorKind::NotFound => Err(error),
        _ => Ok(()),
    }
}

/// Writes a new file, which only its owner reads, and returns once the disk has it.
///
/// Errors: those of the system; AlreadyExists if it is there.
fn write_new(rt: &HostRuntime, path: &str, text: &str) -> io::Result<()> {
    let mut file = OpenOptions::new()
        .write(true)
        .create_new(true)
        .mode(MODE)
        .open(rt, path)?;
    file.write_all(text.as_bytes())?;
    file.sync_all()
}

/// Writes the port and the terms of a server that begins into the file beside its store. The file is made anew under another
/// name, and then takes its name, so that no link is followed, and nobody reads a part of it.
///
/// Errors: those of the system; OutOfMemory. The file is as it was then.
pub(crate) fn write_beside(
    rt: &HostRuntime,
    store: &str,
    port: u16,
    terms: &str,
) -> io::Result<()> {
    let path = path_beside(rt, store)?;
    let new = format!(in rt.alloc(); "{path}.new")?;
    let text = format!(in rt.alloc(); "port={port}\n{terms}")?;
    remove(rt, &new)?;
    write_new(rt, &new, &text)?;
    fs::rename(rt, new.as_str(), path.as_str())
}

/// Returns the text of the file at a path, which is no link.
///
/// Errors: Unread; Unreadable; Memory.
fn text_at(rt: &HostRuntime, path: &str) -> Result<String, BesideFault> {
    if !fs::symlink_metadata(rt, path)?.is_file() {
        return Err(BesideFault::Unreadable);
    }
    let mut bytes = Vec::new(rt.alloc());
    let mut file = fs::open(rt, path)?.take(MAX_BESIDE as u64);
    file.read_to_end(&mut bytes)?;
    match String::from_utf8(bytes) {
        Ok(text) => Ok(text),
        Err(_) => Err(BesideFault::Unreadable),
    }
}

/// Returns the port in the first line of a text, and the text behind it, or None if it tells no port.
fn port_in(text: &str) -> Option<(u16, &str)> {
    let (line, terms) = text.split_once('\n')?;
    let port = line.strip_prefix("port=")?.parse().ok()?;
    Some((port, terms))
}

/// Reads what the server that has a store told of itself in the file beside it.
///
/// Errors: Unread; Unreadable; Memory.
pub(crate) fn read_beside(rt: &HostRuntime, store: &str) -> Result<Beside, BesideFault> {
    let path = path_beside(rt, store)?;
    let text = text_at(rt, &path)?;
    match port_in(&text) {
        Some((port, terms)) => Ok(Beside {
            port,
            terms: terms.to_string(rt.alloc())?,
        }),
        None => Err(BesideFault::Unreadable),
    }
}
