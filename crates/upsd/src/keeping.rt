//! The ledger of a server of this program.

use crate::place::ServerPlace;
use std::alloc::Global;
use ups_journal::Record;
use ups_lasting::{DraftLedger, LastingLedger};
use ups_ledger::{Disposer, Ledger, LedgerFault, Tending};
use ups_start::{LedgerNaming, StoreLedger};

/// The ledger with drafts of a server, in a store in a file. It is a type of its own, as [`ServerLedger`] is: with the
/// place as a type parameter, the proof of a server exceeds the prover's limit of steps.
#[derive(Drop)]
pub(crate) struct ServerStore<'a> {
    ledger: StoreLedger<'a, ServerPlace<'a>>,
}

impl<'a> DraftLedger for ServerStore<'a> {
    ghost kept = { λ l. ⟦<StoreLedger<'a, ServerPlace<'a>> as DraftLedger>⟧.kept l.ledger };

    ghost drafts = { λ l. ⟦<StoreLedger<'a, ServerPlace<'a>> as DraftLedger>⟧.drafts l.ledger };

    ghost told = { λ l. ⟦<StoreLedger<'a, ServerPlace<'a>> as DraftLedger>⟧.told l.ledger };

    ghost is_sound = { λ l. ⟦<StoreLedger<'a, ServerPlace<'a>> as DraftLedger>⟧.is_sound l.ledger };

    ghost is_honest = { λ l. ⟦<StoreLedger<'a, ServerPlace<'a>> as DraftLedger>⟧.is_honest l.ledger };

    ghost is_first = { λ l. ⟦<StoreLedger<'a, ServerPlace<'a>> as DraftLedger>⟧.is_first l.ledger };

    ghost recovers = { λ l. ⟦<StoreLedger<'a, ServerPlace<'a>> as DraftLedger>⟧.recovers l.ledger };

    ghost settled = { λ l. ⟦<StoreLedger<'a, ServerPlace<'a>> as DraftLedger>⟧.settled l.ledger };

    fn run(&self) -> u64 {
        self.ledger.run()
    }

    fn len(&self) -> u64 {
        self.ledger.len()
    }

    fn is_up(&self) -> bool {
        self.ledger.is_up()
    }

    fn append(&mut self, records: &[Record<Global>]) -> Result<(), LedgerFault> {
        self.ledger.append(records)
    }

    fn tidy(&mut self) {
        self.ledger.tidy();
    }

    fn read(&mut self, from: u64, most: usize) -> Result<Vec<Record<Global>, Global>, LedgerFault> {
        self.ledger.read(from, most)
    }

    fn clear(&mut self, most: u32) -> Result<bool, LedgerFault> {
        self.ledger.clear(most)
    }

    fn draft(&mut self, records: &[Record<Global>]) -> Result<(), LedgerFault> {
        self.ledger.draft(records)
    }

    fn exchange(&mut self) -> Result<(), LedgerFault> {
        self.ledger.exchange()
    }

    fn settle(&mut self) -> Result<bool, LedgerFault> {
        self.ledger.settle()
    }
}

/// Gives the ledger in a server's store its name.
pub(crate) struct ServerNaming;

impl<'a> LedgerNaming<StoreLedger<'a, ServerPlace<'a>>, ServerStore<'a>> for ServerNaming {
    fn named(&self, ledger: StoreLedger<'a, ServerPlace<'a>>) -> ServerStore<'a> {
        ServerStore { ledger }
    }
}

/// The ledger of all accepted requests of a server, over that in its store.
#[derive(Drop)]
pub(crate) struct ServerLedger<'a> {
    pub(crate) ledger: LastingLedger<ServerStore<'a>>,
}

impl<'a> Ledger for ServerLedger<'a> {
    ghost kept = { λ l. ⟦<LastingLedger<ServerStore<'a>> as Ledger>⟧.kept l.ledger };

    ghost told = { λ l. ⟦<LastingLedger<ServerStore<'a>> as Ledger>⟧.told l.ledger };

    ghost is_sound = { λ l. ⟦<LastingLedger<ServerStore<'a>> as Ledger>⟧.is_sound l.ledger };

    ghost is_honest = { λ l. ⟦<LastingLedger<ServerStore<'a>> as Ledger>⟧.is_honest l.ledger };

    ghost is_first = { λ l. ⟦<LastingLedger<ServerStore<'a>> as Ledger>⟧.is_first l.ledger };

    ghost recovers = { λ l. ⟦<LastingLedger<ServerStore<'a>> as Ledger>⟧.recovers l.ledger };

    fn run(&self) -> u64 {
        self.ledger.run()
    }

    fn append(&mut self, records: &[Record<Global>]) -> Result<(), LedgerFault> {
        self.ledger.append(records)
    }

    fn tidy(&mut self) {
        self.ledger.tidy();
    }

    fn tend<B: Disposer>(
        &mut self,
        moment: u64,
        at: u64,
        disposer: &B,
    ) -> Result<Tending, LedgerFault> {
        self.ledger.tend(moment, at, disposer)
    }
}
