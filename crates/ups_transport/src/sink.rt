//! The end of a connection on which bytes are written.

use crate::wire_fault::WireFault;
use std::alloc::Global;
use std::time::Duration;
use ups_ledger::{CommitDue, Committed, Keeping, Noted};

/// The end of a connection on which bytes are written: those behind which as many entries are committed as they rest on,
/// and an A-ABORT, which rests on none. Nothing else can be written on it.
///
/// An association is served over any sink. So what holds then of what has left a sink that tells it, holds of all that
/// leaves a socket, too.
pub trait Sink: Drop {
    ghost use Rattle.std.specs.Prelude.{◌≡◌, ◌≤◌, List, All, Option, None, length, IfOk};
    ghost use Rattle.ups_transport.specs.Leaving.{Departed, IsAborting, LeavesMore, LeavesOnce};

    /// What has left at each write, oldest first, if the sink tells.
    ghost left: { Self → Option (List Departed) } = { λ _. None };

    /// Makes a write wait for `limit`, or a little longer; None is no limit.
    ///
    /// # Errors
    ///
    /// If the connection fails.
    fn set_limit(&mut self, limit: Option<Duration>) -> Result<(), WireFault>
        ensures same { left self.new ≡ left self.old };

    /// Writes once, while at least as many entries are committed as are due. Returns how many of the bytes left.
    ///
    /// # Errors
    ///
    /// If the connection fails; nothing has left then.
    fn write_backed<D: Noted, K: Keeping>(
        &mut self,
        due: &CommitDue<D>,
        committed: &Committed<K>,
        bytes: &[u8],
    ) -> Result<usize, WireFault>
        requires backed { due.now.seen.total ≤ committed.now.count }
        ensures most { IfOk result (λ count. count ≤ length bytes.now) }
        ensures leaves { LeavesOnce (left self.old) due.now.seen.total committed.now.count bytes.now result (left self.new) };

    /// Writes an A-ABORT by the service provider (PS3.8 section 9.3.8), as far as the connection takes it at once.
    ///
    /// # Errors
    ///
    /// If memory runs out, or the connection fails.
    fn write_abort(&mut self, alloc: Global) -> Result<(), WireFault>
        ensures leaves { (more : List Departed) × LeavesMore (left self.old) more (left self.new) × All IsAborting more };
}
