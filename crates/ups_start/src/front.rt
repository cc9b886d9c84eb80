//! The front of a store: the requests in it that are committed.

ghost use Rattle.std.specs.Prelude.{◌≡◌, IfSome};
ghost use Rattle.ups_start.specs.Front.{front_with};

use std::alloc::Global;
use ups_journal::Record;
use ups_store::digest_after;

/// The committed requests of a store, or its drafts, by their number and their digest, with which it is compared when it is
/// reopened.
#[derive(Clone, Copy, Debug, PartialEq, Eq)]
pub struct Front {
    /// Their number.
    pub(crate) count: u64,
    /// Their digest.
    pub(crate) digest: u64,
}

impl Front {
    /// Returns the front of no requests.
    pub(crate) fn empty() -> Front
        ensures { result ≡ record { count = 0; digest = 0 } }
    {
        Front {
            count: 0,
            digest: 0,
        }
    }

    /// Returns the front with these records behind it, or None if they are too many.
    pub(crate) fn with(self, records: &[Record<Global>]) -> Option<Front>
        ensures { IfSome result (λ front. front ≡ front_with self records.now) }
    {
        let count = self.count.checked_add(records.len() as u64)?;
        Some(Front {
            count,
            digest: digest_after(self.digest, records),
        })
    }
}
