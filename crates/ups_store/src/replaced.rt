//! The requests that remain after a crash while they were being replaced.

ghost use Rattle.std.specs.Prelude.{◌≡◌, ◌⊎◌, [], false, map, IsTrue, IfOk};
ghost use Rattle.sqlite_trees.specs.View.{IsClean};
ghost use Rattle.ups_store.specs.Rows.{stored_in_run, table_in, IsNumbered};
ghost use Rattle.ups_store.specs.Held.{HasTables};
ghost use Rattle.ups_store.specs.Shown.{requests_shown, requests, shown_by, all_of, given_out};
ghost use Rattle.ups_store.specs.Rewriting.{seen, records_of};

use crate::fault::StoreFault;
use crate::reading::Replay;
use crate::reopening::reopened;
use crate::rewriting::Rewrite;
use crate::runs::Run;
use crate::store::RequestStore;
use sqlite_trees::store::{Alter, Reopen};
use std::alloc::Global;
use ups_journal::Record;

/// Crashes now, and opens the store again.
fn crash_and_reopen<S: Reopen + Alter + Drop>(
    alloc: Global,
    rewrite: Rewrite<S>,
) -> Result<Replay<S>, StoreFault>
    requires { IsClean (seen rewrite) → HasTables (seen rewrite) }
    ensures first { IfOk result (λ r. given_out r ≡ []) }
    ensures clean { IfOk result (λ r. IsClean (shown_by r) → IsClean (seen rewrite)) }
    ensures outcome { IfOk result (λ r. IsClean (shown_by r) → S.Store.recovers rewrite.store (shown_by r).committed) }
{
    reopened(alloc, rewrite.into_store())
}

/// Replaces all requests, group by group, and crashes during or after that. The next open finds all requests that were
/// committed, or exactly the records of all groups; once the commit has returned `Ok`, it finds the records. Its rows
/// are requests, so reading them never returns NotRequest.
pub fn rewrite_then_crash<S: Reopen + Alter + Drop>(
    alloc: Global,
    store: RequestStore<S>,
    entered_in: u64,
    groups: &[Vec<Record<Global>>],
    number: u64,
    run: &Run<'_>,
) -> Result<(bool, Replay<S>), StoreFault>
    requires { IsTrue (requests_shown store).is_open }
    ensures first { IfOk result (λ r. given_out r.1 ≡ []) }
    ensures outcome { IfOk result (λ r. IsClean (shown_by r.1) → (all_of r.1 ≡ map (stored_in_run entered_in) (records_of groups.now)) ⊎ ((r.0 ≡ false) × (all_of r.1 ≡ requests store))) }
    ensures numbered { IfOk result (λ r. IsClean (shown_by r.1) → IsNumbered ((shown_by r.1).committed (table_in (shown_by r.1).committed))) }
{
    let mut rewrite = store.rewrite();
    let done = rewrite.replace(entered_in, groups, number, run).is_ok();
    let again = crash_and_reopen(alloc, rewrite)?;
    Ok((done, again))
}
