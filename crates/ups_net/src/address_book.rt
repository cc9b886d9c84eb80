//! Who names the watchers of a server while it runs.

use ups_peers::Watcher;

/// What names the watchers of a server while it runs, such as a file that its operators write.
pub trait AddressBook: Drop {
    /// Returns the watchers as they are named now, if that differs from the last look, and can be read.
    fn look(&mut self) -> Option<Vec<Watcher>>;
}

/// An address book without an address: each watcher listens where it did at the start.
#[derive(Clone, Copy, Debug, PartialEq, Eq)]
pub struct NoBook;

impl AddressBook for NoBook {
    fn look(&mut self) -> Option<Vec<Watcher>> {
        None
    }
}
