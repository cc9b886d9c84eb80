//! The clock of an association whose answers are the same in every run.

use ups_session::Gate;

/// A clock that always returns 1970-01-01, 00:00 UTC.
#[derive(Drop)]
pub(crate) struct Epoch;

impl Gate for Epoch {
    ghost use Rattle.ups_pipe.specs.Piping.{epoch};

    ghost told = { λ _. epoch };

    fn now(&mut self) -> u64 {
        0
    }

    fn before_write(&mut self) {}

    fn after_write(&mut self) {}
}
