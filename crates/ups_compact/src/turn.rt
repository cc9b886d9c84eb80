//! What becomes of a history that is compacted while it grows.

use std::alloc::Allocator;
use ups_life::Entry;

/// A turn of a history: an entry is added to it, or it is compacted.
#[derive(Drop)]
pub enum Turn<A: Allocator + Copy> {
    /// The entry is added.
    Entered(Entry<A>),
    /// It is compacted.
    Compacted {
        /// The number of the caller, who acknowledges for each watcher what is no longer pending.
        caller: u32,
        /// When, in seconds since 1970-01-01 UTC.
        moment: u64,
    },
}
