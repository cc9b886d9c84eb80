//! The end of a transaction.

ghost use Rattle.std.specs.Prelude.{◌≡◌, ◌⊎◌, ◌≤◌, false, IsOk, IfErr};
ghost use Rattle.sqlite_disk.specs.Disk.{MoreFaults};
ghost use Rattle.sqlite_trees.specs.Tree.{Trees};
ghost use Rattle.sqlite_trees.specs.View.{IsClean};
ghost use Rattle.ups_store.specs.Concluding.{Concludes, ToldBy};

use crate::fault::StoreFault;
use sqlite_trees::store::Store;

/// Commits the transaction if it was edited, or else rolls it back, and returns what the edit gave.
pub(crate) fn concluded<S: Store, T: Copy, E: Into<StoreFault>>(
    store: &mut S,
    edited: Result<T, E>,
) -> Result<T, StoreFault>
    ensures ends { Concludes (S.Store.view store.old) (S.Store.view store.new) edited result }
    ensures crash { (db : Trees) → S.Store.recovers store.new db
        → (IsOk edited × ((S.Store.view store.old).is_broken ≡ false) × (db ≡ (S.Store.view store.old).trees)) ⊎ S.Store.recovers store.old db }
    ensures cause { IsClean (S.Store.view store.new) → IfErr result (ToldBy E.converts (S.Store.view store.old) edited (MoreFaults (S.Store.faults store.old) (S.Store.faults store.new))) }
    ensures counts { S.Store.faults store.old ≤ S.Store.faults store.new }
{
    match edited {
        Ok(it) => {
            store.commit()?;
            Ok(it)
        }
        Err(error) => {
            store.rollback();
            Err(error.into())
        }
    }
}
