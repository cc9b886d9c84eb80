//! Where values are dropped that take long to drop.

use std::alloc::Global;
use ups_compact::KeptSteps;
use ups_manager::Manager;

/// What a compaction no longer needs. With many steps it takes long to drop.
#[derive(Drop)]
pub enum Waste {
    /// A manager that has entered records.
    Manager(Manager<Global>),
    /// The steps of which the compaction loses nothing.
    Steps(KeptSteps<Global>),
}

/// Disposes of what a compaction no longer needs.
pub trait Disposer {
    /// Drops it, here or in a thread of its own.
    fn dispose(&self, waste: Waste);
}

/// Drops what a compaction no longer needs at once.
#[derive(Clone, Copy, Debug, PartialEq, Eq)]
pub struct DropHere;

impl Disposer for DropHere {
    fn dispose(&self, _waste: Waste) {}
}
