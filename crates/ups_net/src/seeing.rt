//! A service that knows the place of its answers in the history.

use std::alloc::Global;
use std::sync::Wait;
use ups_ledger::{Noted, Withheld};
use ups_service::{Service, SharedService};
use ups_turn::Fixed;

/// A service that tells how many accepted requests are behind its last answer.
pub(crate) trait Seeing: Service<Global> {
    ghost use Rattle.std.specs.Prelude.{◌≡◌, length};

    /// Returns the number of accepted requests that it has seen.
    fn entries_seen(&self) -> u64
        ensures { result ≡ length (Self.seen self.now).history };
}

impl<'a, F: Fixed, D: Noted, M: SharedService<Global>, R: Wait> Seeing
    for Withheld<'a, F, D, M, R> {
    fn entries_seen(&self) -> u64 {
        self.seen()
    }
}
