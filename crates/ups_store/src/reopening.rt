//! The table of requests of a store that was just opened, and opening one that has crashed.

ghost use Rattle.std.specs.Prelude.{◌≡◌, [], IsTrue, IfOk};
ghost use Rattle.sqlite_trees.specs.View.{IsClean};
ghost use Rattle.ups_store.specs.Held.{AreTables};
ghost use Rattle.ups_store.specs.Rows.{table_in};
ghost use Rattle.ups_store.specs.Shown.{given_out, shown_by};

use crate::fault::StoreFault;
use crate::format::table_in;
use crate::reading::Replay;
use crate::runs::RUNS;
use crate::upgrading::THIRD;
use sqlite_trees::store::{Alter, Reopen, Shape, Store};
use std::alloc::{AllocError, Global};

/// Returns the number of the tree of requests.
pub(crate) fn requests_table<S: Alter>(alloc: Global, store: &S) -> Result<u32, AllocError>
    ensures { IfOk result (λ table. IsClean (S.Store.view store.now) → table_in (S.Store.view store.now).trees ≡ table) }
{
    let rows = store.objects(alloc)?;
    Ok(table_in(rows.as_slice()))
}

/// Returns whether trees 0 and 1 are tables, and no column of a tree is REAL.
fn has_tables<S: Store>(store: &S) -> bool
    ensures { IsTrue result → AreTables (S.Store.view store.now) }
{
    if store.shape(0) != Shape::Table || store.shape(RUNS) != Shape::Table {
        return false;
    }
    store.reals(0) == 0 && store.reals(RUNS) == 0 && store.reals(THIRD) == 0
}

/// Opens a store that has crashed, before its first request is read.
pub(crate) fn reopened<S: Reopen + Alter + Drop>(
    alloc: Global,
    mut store: S,
) -> Result<Replay<S>, StoreFault>
    requires { IsClean (S.Store.view store) → IsTrue (S.Store.view store).is_numbered }
    ensures first { IfOk result (λ r. given_out r ≡ []) }
    ensures clean { IfOk result (λ r. IsClean (shown_by r) → IsClean (S.Store.view store)) }
    ensures outcome { IfOk result (λ r. IsClean (shown_by r) → S.Store.recovers store (shown_by r).committed) }
{
    store.crash_and_reopen()?;
    if !has_tables(&store) {
        return Err(StoreFault::Damaged);
    }
    let table = requests_table(alloc, &store)?;
    if store.shape(table) != Shape::Table {
        return Err(StoreFault::Damaged);
    }
    Ok(Replay::over(alloc, store, table))
}
