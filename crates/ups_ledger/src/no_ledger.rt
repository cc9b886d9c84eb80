//! The ledger that keeps nothing.

ghost use Rattle.std.specs.Prelude.{◌≡◌};

use crate::fault::LedgerFault;
use crate::ledger::Ledger;
use std::alloc::Global;
use ups_journal::Record;

/// A ledger without room, for when nothing is kept.
#[derive(Drop)]
pub struct NoLedger;

impl Ledger for NoLedger {
    ghost use Rattle.std.specs.Prelude.{◌≡◌, [], List};

    ghost kept = { λ _. [] };

    ghost told = { λ _. 0 };

    ghost is_sound = { λ _. Unit {0} };

    ghost is_honest = { λ _. Unit {0} };

    ghost is_first = { λ _. Unit {0} };

    ghost recovers = { λ _ rs. rs ≡ [] };

    fn run(&self) -> u64 {
        0
    }

    fn append(&mut self, _records: &[Record<Global>]) -> Result<(), LedgerFault> {
        Err(LedgerFault::Full)
    }

    fn tidy(&mut self) {}
}
