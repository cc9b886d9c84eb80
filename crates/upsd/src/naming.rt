//! The file of peers that a command line names.

use crate::ending::ExitStatus;
use std::alloc::{AllocError, AllocFailed, Global};
use std::fs;
use std::io::{self, ErrorKind, Read};
use thiserror::Error;
use ups_args::{PeerLine, command, peer_line};
use ups_life::MAX_PEERS;

/// The maximum size of a file of peers, in bytes.
const MAX_SIZE: usize = 1_048_576;

/// Why a file of peers is refused.
#[derive(Clone, Copy, Debug, Error)]
pub(crate) enum PeersFault {
    /// The system can't open or read it.
    #[error("it can't be read: {0}")]
    Unread(io::Error),
    /// It has more than 1,048,576 bytes.
    #[error("it has more than 1048576 bytes")]
    TooLarge,
    /// It is not UTF-8.
    #[error("it is not UTF-8")]
    NoText,
    /// The line with this number, from 1, neither names a peer, nor is it blank, nor does it begin with `#`.
    #[error("line {0} is no PEER: AE=host:port or AE=host:port,lock")]
    Line(usize),
    /// It names too many peers.
    #[error("more than 1,000 PEERs are named")]
    TooMany,
    /// Memory ran out.
    #[error("out of memory")]
    Memory,
}

impl From<AllocError> for PeersFault {
    fn from(_e: AllocError) -> Self {
        PeersFault::Memory
    }
}

impl<T: Drop> From<AllocFailed<T>> for PeersFault {
    fn from(_e: AllocFailed<T>) -> Self {
        PeersFault::Memory
    }
}

/// Returns the bytes of a file, or one more than the maximum size of them.
///
/// Errors: those of the system; OutOfMemory.
fn bytes_of(rt: &HostRuntime, path: &str) -> io::Result<Vec<u8>> {
    let mut bytes = Vec::new(rt.alloc());
    let mut file = fs::open(rt, path)?.take(MAX_SIZE as u64 + 1);
    file.read_to_end(&mut bytes)?;
    Ok(bytes)
}

/// Returns the text of a file of peers.
///
/// Errors: Unread; TooLarge; NoText; Memory.
pub(crate) fn text_of(rt: &HostRuntime, path: &str) -> Result<String, PeersFault> {
    let bytes = match bytes_of(rt, path) {
        Ok(bytes) => bytes,
        Err(error) if error.kind() == ErrorKind::OutOfMemory => return Err(PeersFault::Memory),
        Err(error) => return Err(PeersFault::Unread(error)),
    };
    if bytes.len() > MAX_SIZE {
        return Err(PeersFault::TooLarge);
    }
    match String::from_utf8(bytes) {
        Ok(text) => Ok(text),
        Err(_) => Err(PeersFault::NoText),
    }
}

/// Returns the words in the lines of a text that name peers.
///
/// Errors: Line for the first line that says something else; TooMany; Memory.
fn words_in(alloc: Global, text: &str) -> Result<Vec<String>, PeersFault> {
    let mut words = Vec::new(alloc);
    for (at, line) in text.lines().enumerate() {
        match peer_line(line) {
            PeerLine::Nothing => {}
            PeerLine::Peer(_) if words.len() == MAX_PEERS => return Err(PeersFault::TooMany),
            PeerLine::Peer(word) => words.push(word.to_string(alloc)?)?,
            PeerLine::Other => return Err(PeersFault::Line(at.saturating_add(1))),
        }
    }
    Ok(words)
}

/// Returns the path after `--peers`, or None if it is not among the words, or they can't be parsed.
///
/// Errors: lack of memory.
fn path_in<'a>(alloc: Global, words: &'a [String]) -> Result<Option<&'a str>, AllocError> {
    let Ok(matches) = command(alloc)?.try_get_matches_from(words) else {
        return Ok(None);
    };
    match matches.subcommand() {
        Some((_, matches)) => Ok(matches.get_str("peers")),
        None => Ok(None),
    }
}

/// Returns the words of the file of peers at a path, if there is one; or returns how the program ends, after printing why
/// the file is refused.
///
/// Errors: lack of memory.
fn words_of_file(
    rt: &HostRuntime,
    path: Option<&str>,
) -> Result<Result<Vec<String>, ExitStatus>, AllocError> {
    let alloc = rt.alloc();
    let Some(path) = path else {
        return Ok(Ok(Vec::new(alloc)));
    };
    let found = match text_of(rt, path) {
        Ok(text) => words_in(alloc, &text),
        Err(fault) => Err(fault),
    };
    match found {
        Ok(found) => Ok(Ok(found)),
        Err(PeersFault::Memory) => Err(AllocError),
        Err(fault) => {
            let _ = eprintln!(rt; "upsd: --peers {path}: {fault}");
            Ok(Err(ExitStatus::Usage))
        }
    }
}

/// Returns whether one of the words is `--`, behind which no word is an option.
fn have_end_of_options(words: &[String]) -> bool {
    words.iter().any(|word| word.as_str() == "--")
}

/// Adds the words of a file of peers to those of a command line, behind the end of its options.
///
/// Errors: lack of memory.
fn add_words(
    alloc: Global,
    words: &mut Vec<String>,
    mut found: Vec<String>,
) -> Result<(), AllocError> {
    if found.is_empty() {
        return Ok(());
    }
    if !have_end_of_options(words) {
        words.push("--".to_string(alloc)?)?;
    }
    words.append(&mut found)
}

/// The words of a command line, and behind them those of the file that `--peers` names.
#[derive(Drop)]
pub(crate) struct NamedWords {
    words: Vec<String>,
    /// How many of them are those of the command line.
    own: usize,
    /// The path of the file, if one is named.
    path: Option<String>,
}

impl NamedWords {
    /// Returns the words.
    pub(crate) fn as_slice(&self) -> &[String] {
        &self.words
    }

    /// Returns the path of the file, if one is named.
    pub(crate) fn path(&self) -> Option<&str> {
        self.path.as_ref().map(String::as_str)
    }

    /// Returns the words as they would be if the file had this text.
    ///
    /// Errors: those of `words_in`.
    pub(crate) fn with_text(&self, alloc: Global, text: &str) -> Result<Vec<String>, PeersFault> {
        let found = words_in(alloc, text)?;
        let mut words = Vec::new(alloc);
        for word in self.words.iter().take(self.own) {
            words.push(word.clone()?)?;
        }
        add_words(alloc, &mut words, found)?;
        Ok(words)
    }
}

/// Returns the words of a command line, and behind them those of the file that `--peers` names; or returns how the
/// program ends, after printing why the file is refused.
///
/// Errors: lack of memory.
pub(crate) fn with_peers(
    rt: &HostRuntime,
    mut words: Vec<String>,
) -> Result<Result<NamedWords, ExitStatus>, AllocError> {
    let alloc = rt.alloc();
    let path = match path_in(alloc, &words)? {
        Some(path) => Some(path.to_string(alloc)?),
        None => None,
    };
    let found = match words_of_file(rt, path.as_ref().map(String::as_str))? {
        Ok(found) => found,
        Err(status) => return Ok(Err(status)),
    };
    let own = words.len();
    add_words(alloc, &mut words, found)?;
    Ok(Ok(NamedWords { words, own, path }))
}
