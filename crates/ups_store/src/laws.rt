//! The requests that remain after a crash.

ghost use Rattle.std.specs.Prelude.{◌≡◌, ◌⊎◌, ◌++◌, [], false, map, IsTrue, IfOk};
ghost use Rattle.sqlite_trees.specs.View.{IsClean};
ghost use Rattle.ups_store.specs.Rows.{stored_in_run, table_in, IsNumbered};
ghost use Rattle.ups_store.specs.Shown.{requests_shown, requests, drafts, shown_by, all_of, given_out};

use crate::fault::StoreFault;
use crate::reading::Replay;
use crate::reopening::reopened;
use crate::runs::Run;
use crate::store::RequestStore;
use sqlite_trees::store::{Alter, Reopen};
use std::alloc::Global;
use ups_journal::Record;

/// Crashes now, and opens the store again.
fn crash_and_reopen<S: Reopen + Alter + Drop>(
    alloc: Global,
    store: RequestStore<S>,
) -> Result<Replay<S>, StoreFault>
    requires { IsClean (requests_shown store) → IsTrue (requests_shown store).is_numbered }
    ensures first { IfOk result (λ r. given_out r ≡ []) }
    ensures clean { IfOk result (λ r. IsClean (shown_by r) → IsClean (requests_shown store)) }
    ensures outcome { IfOk result (λ r. IsClean (shown_by r) → S.Store.recovers store.store (shown_by r).committed) }
{
    reopened(alloc, store.into_store())
}

/// Appends records, and crashes during or after that. The next open finds all requests that were committed, followed by
/// the records or by nothing; once the append has returned `Ok`, it finds the records. Its rows are requests, so
/// reading them never returns NotRequest.
pub fn append_then_crash<S: Reopen + Alter + Drop>(
    alloc: Global,
    mut store: RequestStore<S>,
    run: u64,
    records: &[Record<Global>],
) -> Result<(bool, Replay<S>), StoreFault>
    requires { IsTrue (requests_shown store).is_open }
    ensures first { IfOk result (λ r. given_out r.1 ≡ []) }
    ensures outcome { IfOk result (λ r. IsClean (shown_by r.1) → (all_of r.1 ≡ requests store ++ map (stored_in_run run) records.now) ⊎ ((r.0 ≡ false) × (all_of r.1 ≡ requests store))) }
    ensures numbered { IfOk result (λ r. IsClean (shown_by r.1) → IsNumbered ((shown_by r.1).committed (table_in (shown_by r.1).committed))) }
{
    let done = store.append(run, records).is_ok();
    let again = crash_and_reopen(alloc, store)?;
    Ok((done, again))
}

/// Exchanges the draft for the requests, and crashes during or after that. The next open finds all requests that were
/// committed, or exactly those of the draft; once the exchange has returned `Ok`, it finds those of the draft. Its rows
/// are requests, so reading them never returns NotRequest.
pub fn exchange_then_crash<S: Reopen + Alter + Drop>(
    alloc: Global,
    mut store: RequestStore<S>,
    number: u64,
    run: &Run<'_>,
) -> Result<(bool, Replay<S>), StoreFault>
    requires { IsTrue (requests_shown store).is_open }
    ensures first { IfOk result (λ r. given_out r.1 ≡ []) }
    ensures outcome { IfOk result (λ r. IsClean (shown_by r.1) → (all_of r.1 ≡ drafts store) ⊎ ((r.0 ≡ false) × (all_of r.1 ≡ requests store))) }
    ensures numbered { IfOk result (λ r. IsClean (shown_by r.1) → IsNumbered ((shown_by r.1).committed (table_in (shown_by r.1).committed))) }
{
    let done = store.exchange(number, run).is_ok();
    let again = crash_and_reopen(alloc, store)?;
    Ok((done, again))
}
