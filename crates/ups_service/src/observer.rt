//! The observer of the history that callers share.

use std::alloc::Allocator;
use ups_history::History;

/// An observer of a history, which takes from it what it needs.
pub trait Observer<A: Allocator + Copy> {
    ghost use Rattle.std.specs.Prelude.{List};
    ghost use Rattle.ups_life.specs.declared.entry.Entry.{Entry};

    /// Relates the observer before, the accepted requests, oldest first, and the observer after.
    ghost observed: { Self → List (Entry A) → Self → Type 0 };

    /// Observes a history.
    fn observe(&mut self, history: &History<A>)
        ensures { observed self.old history.now.entries self.new };
}
