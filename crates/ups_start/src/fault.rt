//! The errors of a start on a store.

ghost use Rattle.std.specs.Prelude.{◌≡◌, false};
ghost use Rattle.ups_ledger.specs.declared.fault.LedgerFault.TheVariants.{Full};
ghost use Rattle.ups_start.specs.Faults.{ledger_fault_of};

use thiserror::Error;
use ups_ledger::LedgerFault;
use ups_restore::{CompactFault, RestoreFault};
use ups_store::{OpenFault, StoreFault};
use ups_terms::Difference;

/// Why a start on a store failed. No request is lost: the file keeps its requests, or has those that replace them.
#[derive(Clone, Copy, Debug, PartialEq, Eq, Error)]
pub enum StartFault {
    /// The file was not opened.
    #[error("{0}")]
    Open(OpenFault),
    /// Its requests could not be read.
    #[error("{0}")]
    Read(StoreFault),
    /// It could not be written.
    #[error("{0}")]
    Write(StoreFault),
    /// A request could not be entered again.
    #[error("{0}")]
    Restore(RestoreFault),
    /// Its requests could not be replaced by those of a shorter history.
    #[error("its requests could not be replaced: {0}")]
    Compact(CompactFault),
    /// The terms of the service are not those of the last run: this is what they lack.
    #[error("the terms of the service are not those of the last run: {0}")]
    Terms(Difference),
    /// The terms that the last run noted can't be read.
    #[error("the terms that the last run noted are unreadable")]
    UnreadableTerms,
    /// Memory ran out.
    #[error("out of memory")]
    Memory,
}

/// Returns the `LedgerFault` for a fault of the store.
pub(crate) fn fault_of(fault: StoreFault) -> LedgerFault
    ensures { result ≡ ledger_fault_of fault }
{
    match fault {
        StoreFault::Memory | StoreFault::Full | StoreFault::TooLarge | StoreFault::TooMany => {
            LedgerFault::Full
        }
        StoreFault::Disk | StoreFault::Damaged | StoreFault::NotRequest | StoreFault::Short => {
            LedgerFault::Write
        }
        StoreFault::Shut => LedgerFault::Shut,
    }
}

/// Returns the `LedgerFault` for a fault of a call. Full says that nothing has changed, so a fault that has shut the store is
/// told as Write.
pub(crate) fn fault_of_append(fault: StoreFault, is_shut: bool) -> LedgerFault
    ensures { result ≡ Full → is_shut ≡ false }
{
    let fault = fault_of(fault);
    if is_shut && fault == LedgerFault::Full {
        return LedgerFault::Write;
    }
    fault
}
