//! Replacing the requests of a store by those of a manager.

ghost use Rattle.std.specs.Prelude.{◌≡◌, [], true, length, map, IfOk, IsTrue};
ghost use Rattle.sqlite_trees.specs.View.{IsClean};
ghost use Rattle.ups_journal.specs.Columns.{recorded};
ghost use Rattle.ups_store.specs.Digest.{digest_of};
ghost use Rattle.ups_store.specs.Shown.{requests_shown, requests};
ghost use Rattle.ups_start.specs.Started.{said};
ghost use Rattle.ups_store.specs.Rewriting.{seen, written_anew};

use crate::beginning::StartedRun;
use crate::fault::{StartFault, fault_of};
use sqlite_trees::store::Store;
use std::alloc::Global;
use ups_journal::{Record, RecordingFault};
use ups_ledger::{Ledger, LedgerFault};
use ups_manager::Manager;
use ups_restore::{CompactFault, put_history};
use ups_store::{Rewrite, Run, StoreFault, digest_after};

/// A rewrite of the requests of a store, as a ledger that begins empty. Nothing is committed before everything is put.
#[derive(Drop)]
pub struct Anew<S: Store> {
    rewrite: Rewrite<S>,
    /// The number of the run.
    run: u64,
    /// The number of records that were put.
    count: u64,
    /// Their digest.
    digest: u64,
    /// Whether no call has failed.
    is_whole: bool,
    ghost counted: { is_whole ≡ true → IsClean (seen rewrite) → length (said (written_anew rewrite)) ≡ count },
    ghost digested: { is_whole ≡ true → IsClean (seen rewrite) → digest ≡ digest_of (said (written_anew rewrite)) },
}

impl<S: Store + Drop> Anew<S> {
    ghost use Rattle.ups_start.specs.Anew.{put_so_far, IsPutting};

    /// Begins to replace the requests of a store in which a run has begun.
    ///
    /// Errors: Write.
    pub(crate) fn begin(begun: StartedRun<S>) -> Result<Anew<S>, StartFault>
        ensures empty { IfOk result (λ anew. IsPutting anew → put_so_far anew ≡ []) }
        ensures clean { IfOk result (λ anew. IsPutting anew → IsClean (requests_shown begun.store)) }
    {
        let StartedRun {
            store,
            run,
            digest: _,
        } = begun;
        let mut rewrite = store.rewrite();
        match rewrite.begin() {
            Ok(()) => Ok(Anew {
                rewrite,
                run,
                count: 0,
                digest: 0,
                is_whole: true,
            }),
            Err(fault) => Err(StartFault::Write(fault)),
        }
    }

    /// Commits: the store then has exactly what was put.
    ///
    /// Errors: Write.
    pub(crate) fn commit(self, about: &Run<'_>) -> Result<StartedRun<S>, StartFault>
        ensures replaced { IfOk result (λ b. IsClean (requests_shown b.store) → said (requests b.store) ≡ put_so_far self) }
        ensures sound { IfOk result (λ b. IsClean (requests_shown b.store) → IsPutting self) }
        ensures is_open { IfOk result (λ b. IsClean (requests_shown b.store) → IsTrue (requests_shown b.store).is_open) }
    {
        if !self.is_whole {
            return Err(StartFault::Write(StoreFault::Shut));
        }
        let Anew {
            mut rewrite,
            run,
            count: _,
            digest,
            is_whole: _,
        } = self;
        if let Err(fault) = rewrite.commit(run, about) {
            return Err(StartFault::Write(fault));
        }
        match rewrite.finish() {
            Some(store) => Ok(StartedRun { store, run, digest }),
            None => Err(StartFault::Write(StoreFault::Shut)),
        }
    }
}

impl<S: Store + Drop> Ledger for Anew<S> {
    ghost use Rattle.std.specs.Prelude.{⊤};
    ghost use Rattle.ups_start.specs.Anew.{put_so_far, IsPutting};

    ghost kept = { λ l. put_so_far l };

    ghost told = { λ l. l.count };

    ghost is_sound = { λ l. IsPutting l };

    ghost is_honest = { λ l. IsClean (seen l.rewrite) };

    ghost is_first = { λ _. ⊤ };

    ghost recovers = { λ _ _. ⊥ };

    fn run(&self) -> u64 {
        self.run
    }

    fn append(&mut self, records: &[Record<Global>]) -> Result<(), LedgerFault> {
        if !self.is_whole {
            return Err(LedgerFault::Shut);
        }
        let Some(count) = self.count.checked_add(records.len() as u64) else {
            return Err(LedgerFault::Full);
        };
        self.is_whole = false;
        match self.rewrite.put(self.run, records) {
            Ok(()) => {
                self.count = count;
                self.digest = digest_after(self.digest, records);
                self.is_whole = true;
                Ok(())
            }
            Err(fault) => Err(fault_of(fault)),
        }
    }

    fn tidy(&mut self) {}
}

/// Replaces the requests of the store by those of a manager.
///
/// Errors: Write; Compact if an entry can't be recorded. The store keeps its requests, or may have the new ones if the
/// commit failed.
pub(crate) fn rewritten<S: Store + Drop>(
    alloc: Global,
    begun: StartedRun<S>,
    about: &Run<'_>,
    manager: &Manager<Global>,
) -> Result<StartedRun<S>, StartFault>
    ensures kept { IfOk result (λ b. IsClean (requests_shown b.store) → said (requests b.store) ≡ map recorded manager.now.history) }
    ensures is_open { IfOk result (λ b. IsClean (requests_shown b.store) → IsTrue (requests_shown b.store).is_open) }
    ensures clean { IfOk result (λ b. IsClean (requests_shown b.store) → IsClean (requests_shown begun.store)) }
{
    let mut anew = Anew::begin(begun)?;
    let Some(history) = manager.whole() else {
        return Err(StartFault::Compact(CompactFault::Recording(RecordingFault::Gone)));
    };
    match put_history(alloc, history, &mut anew) {
        Ok(()) => anew.commit(about),
        Err(fault) => Err(StartFault::Compact(fault)),
    }
}
