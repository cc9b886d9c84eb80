//! The responses of a watcher to its reports, as the log sees them.

use crate::requests::CommandListener;
use std::alloc::Global;
use ups_assoc::data_follows;
use ups_dimse::{Command, read_command};
use ups_log::{Failures, is_failure};

/// The number of bytes of a command above which no more are kept. A response to a report has no more than some hundred.
const MOST: usize = 4_096;

/// The responses of a watcher, by the fragments of their commands. Only the log depends on them.
#[derive(Drop)]
pub(crate) struct Responses {
    alloc: Global,
    /// The fragments of a command that is not complete yet.
    command: Vec<u8>,
    failures: Failures,
}

impl Responses {
    /// Creates the state without responses.
    pub(crate) fn new(alloc: Global) -> Responses {
        Responses {
            alloc,
            command: Vec::new(alloc),
            failures: Failures::none(),
        }
    }

    /// Returns the failures so far.
    pub(crate) fn failures(&self) -> Failures {
        self.failures
    }

    /// Notes the response of a complete command.
    fn note(&mut self) {
        let Ok(command) = read_command(self.alloc, self.command.as_slice()) else {
            return;
        };
        let Command::Response(response) = &command else {
            return;
        };
        if is_failure(response.status) {
            self.failures.count = self.failures.count.saturating_add(1);
            self.failures.last = response.status;
        }
    }
}

impl CommandListener for Responses {
    fn hear(&mut self, bytes: &[u8], is_last: bool) -> bool {
        if self.command.len() <= MOST {
            let _ = self.command.extend_from_slice(bytes);
        }
        if !is_last {
            return false;
        }
        self.note();
        let is_announced = data_follows(self.command.as_slice());
        self.command.clear();
        is_announced
    }
}
