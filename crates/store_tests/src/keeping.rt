//! The ledger in the files of a bench.

use crate::place::BenchPlace;
use std::alloc::Global;
use ups_journal::Record;
use ups_lasting::DraftLedger;
use ups_ledger::LedgerFault;
use ups_start::{LedgerNaming, StoreLedger};

/// The ledger with drafts in the files of a bench. It is a type of its own: with the place as a type parameter, the proof of
/// a course exceeds the prover's limit of steps.
#[derive(Drop)]
pub(crate) struct BenchStore<'a> {
    ledger: StoreLedger<'a, BenchPlace<'a>>,
}

impl<'a> DraftLedger for BenchStore<'a> {
    ghost kept = { λ l. ⟦<StoreLedger<'a, BenchPlace<'a>> as DraftLedger>⟧.kept l.ledger };

    ghost drafts = { λ l. ⟦<StoreLedger<'a, BenchPlace<'a>> as DraftLedger>⟧.drafts l.ledger };

    ghost told = { λ l. ⟦<StoreLedger<'a, BenchPlace<'a>> as DraftLedger>⟧.told l.ledger };

    ghost is_sound = { λ l. ⟦<StoreLedger<'a, BenchPlace<'a>> as DraftLedger>⟧.is_sound l.ledger };

    ghost is_honest = { λ l. ⟦<StoreLedger<'a, BenchPlace<'a>> as DraftLedger>⟧.is_honest l.ledger };

    ghost is_first = { λ l. ⟦<StoreLedger<'a, BenchPlace<'a>> as DraftLedger>⟧.is_first l.ledger };

    ghost recovers = { λ l. ⟦<StoreLedger<'a, BenchPlace<'a>> as DraftLedger>⟧.recovers l.ledger };

    ghost settled = { λ l. ⟦<StoreLedger<'a, BenchPlace<'a>> as DraftLedger>⟧.settled l.ledger };

    fn run(&self) -> u64 {
        self.ledger.run()
    }

    fn len(&self) -> u64 {
        self.ledger.len()
    }

    fn is_up(&self) -> bool {
        self.ledger.is_up()
    }

    fn append(&mut self, records: &[Record<Global>]) -> Result<(), LedgerFault> {
        self.ledger.append(records)
    }

    fn tidy(&mut self) {
        self.ledger.tidy();
    }

    fn read(&mut self, from: u64, most: usize) -> Result<Vec<Record<Global>, Global>, LedgerFault> {
        self.ledger.read(from, most)
    }

    fn clear(&mut self, most: u32) -> Result<bool, LedgerFault> {
        self.ledger.clear(most)
    }

    fn draft(&mut self, records: &[Record<Global>]) -> Result<(), LedgerFault> {
        self.ledger.draft(records)
    }

    fn exchange(&mut self) -> Result<(), LedgerFault> {
        self.ledger.exchange()
    }

    fn settle(&mut self) -> Result<bool, LedgerFault> {
        self.ledger.settle()
    }
}

/// Gives the ledger in the files of a bench its name.
pub(crate) struct BenchNaming;

impl<'a> LedgerNaming<StoreLedger<'a, BenchPlace<'a>>, BenchStore<'a>> for BenchNaming {
    fn named(&self, ledger: StoreLedger<'a, BenchPlace<'a>>) -> BenchStore<'a> {
        BenchStore { ledger }
    }
}
