//! The commands of a peer that sends requests, as its time limits see them.

use std::alloc::Global;
use ups_assoc::data_follows;

/// The number of bytes of a command above which no more are kept. The element that decides comes within some hundred.
const MOST: usize = 4_096;

/// What learns of the commands that come on a connection.
pub(crate) trait CommandListener {
    /// Takes bytes of a command, which may be its last ones. Returns whether these are, and the command announces a data
    /// set (PS3.7 annex E.1).
    fn hear(&mut self, bytes: &[u8], is_last: bool) -> bool;
}

/// The requests of a peer, by the fragments of their commands. Only the time limits depend on them.
#[derive(Drop)]
pub(crate) struct Requests {
    /// The fragments of a command that is not complete yet.
    command: Vec<u8>,
}

impl Requests {
    /// Creates the state without requests.
    pub(crate) fn new(alloc: Global) -> Requests {
        Requests {
            command: Vec::new(alloc),
        }
    }

    // Takes bytes of a command that comes in several pieces. Returns whether it is complete and announces a data set.
    #[cold]
    fn hear_part(&mut self, bytes: &[u8], is_last: bool) -> bool {
        if self.command.len() <= MOST {
            let _ = self.command.extend_from_slice(bytes);
        }
        if !is_last {
            return false;
        }
        let is_announced = data_follows(self.command.as_slice());
        self.command.clear();
        is_announced
    }
}

impl CommandListener for Requests {
    fn hear(&mut self, bytes: &[u8], is_last: bool) -> bool {
        if is_last && self.command.is_empty() {
            return data_follows(bytes);
        }
        self.hear_part(bytes, is_last)
    }
}
