//! Making a store of an earlier format one of this version's.

ghost use Rattle.std.specs.Prelude.{◌≡◌, ◌⊎◌, false, IsTrue, IfErr, OnOk};
ghost use Rattle.sqlite_disk.specs.Disk.{MoreFaults};
ghost use Rattle.sqlite_trees.specs.Tree.{Trees};
ghost use Rattle.sqlite_trees.specs.View.{IsClean, IsQuiet, HasCause};
ghost use Rattle.ups_store.specs.Concluding.{KeepsStore};
ghost use Rattle.ups_store.specs.Faults.{HasReason};
ghost use Rattle.ups_store.specs.Format.{IsCurrent, upgraded};
ghost use Rattle.ups_store.specs.Held.{HasTables};
ghost use Rattle.sqlite_trees.specs.Objects.{catalog_tree};
ghost use Rattle.ups_store.specs.Upgrading.{ListsRuns, AddsDraft, ListsAnew, KeepsLastCommit, CannotListRuns, CannotDraft, CannotList};

use crate::concluding::concluded;
use crate::fault::StoreFault;
use crate::format::{CURRENT, VERSION, draft_table, names_draft, run_table};
use crate::runs::RUNS;
use crate::store::RequestStore;
use sqlite_trees::error::StoreError;
use sqlite_trees::store::{Alter, Shape};
use std::alloc::Global;

/// The number of the tree that format 3 has beside those before it.
pub(crate) const THIRD: u32 = 2;

/// Lists the table of runs as this version has it, in a transaction.
fn list_runs<S: Alter>(store: &mut S) -> Result<(), StoreError>
    requires tables { IsClean (S.Store.view store.old) → HasTables (S.Store.view store.old) }
    ensures listed { OnOk result (IsClean (S.Store.view store.new) → ListsRuns (S.Store.view store.old) (S.Store.view store.new)) }
    ensures stands { IsClean (S.Store.view store.new) → KeepsLastCommit (S.Store.view store.old) (S.Store.view store.new) }
    ensures cause { IsClean (S.Store.view store.new) → IfErr result (HasCause (S.Store.view store.old) (MoreFaults (S.Store.faults store.old) (S.Store.faults store.new)) (CannotListRuns (S.Store.view store.old).trees)) }
    ensures quiet { IsQuiet S.Store.view S.Store.faults S.Store.recovers S.Store.is_shielded store.old store.new }
{
    store.relist(&[(RUNS, run_table(CURRENT))])
}

/// Makes the table of the draft in a transaction, if the store has none.
fn add_draft<S: Alter>(alloc: Global, store: &mut S) -> Result<(), StoreError>
    requires numbered { IsClean (S.Store.view store.old) → IsTrue (S.Store.view store.old).is_numbered }
    requires sound { IsClean (S.Store.view store.old) → (S.Store.view store.old).is_broken ≡ false }
    ensures added { OnOk result (IsClean (S.Store.view store.new) → AddsDraft (S.Store.view store.old) (S.Store.view store.new)) }
    ensures stands { IsClean (S.Store.view store.new) → KeepsLastCommit (S.Store.view store.old) (S.Store.view store.new) }
    ensures cause { IsClean (S.Store.view store.new) → IfErr result (HasCause (S.Store.view store.old) (MoreFaults (S.Store.faults store.old) (S.Store.faults store.new)) (CannotDraft ((S.Store.view store.old).trees catalog_tree))) }
    ensures quiet { IsQuiet S.Store.view S.Store.faults S.Store.recovers S.Store.is_shielded store.old store.new }
{
    match store.shape(THIRD) {
        Shape::Absent => {}
        _ => return Ok(()),
    }
    let listed = store.objects(alloc)?;
    if names_draft(listed.as_slice()) {
        return Err(StoreError::Unstorable);
    }
    store.create(THIRD, &draft_table())
}

/// Lists the tables as this version has them, and sets the user version, in a transaction.
fn list_anew<S: Alter>(alloc: Global, store: &mut S) -> Result<(), StoreError>
    requires tables { IsClean (S.Store.view store.old) → (S.Store.view store.old).is_broken ≡ false → HasTables (S.Store.view store.old) }
    ensures listed { OnOk result (IsClean (S.Store.view store.new) → ListsAnew (S.Store.view store.old) (S.Store.view store.new)) }
    ensures stands { IsClean (S.Store.view store.new) → KeepsLastCommit (S.Store.view store.old) (S.Store.view store.new) }
    ensures cause { IsClean (S.Store.view store.new) → IfErr result (HasCause (S.Store.view store.old) (MoreFaults (S.Store.faults store.old) (S.Store.faults store.new)) (CannotList (S.Store.view store.old).trees)) }
    ensures quiet { IsQuiet S.Store.view S.Store.faults S.Store.recovers S.Store.is_shielded store.old store.new }
{
    if store.is_broken() {
        return Err(StoreError::Broken);
    }
    list_runs(store)?;
    add_draft(alloc, store)?;
    store.set_version(VERSION)
}

impl<S: Alter> RequestStore<S> {
    ghost use Rattle.ups_store.specs.Shown.{requests_shown, requests};

    /// Makes the store one of the format of this version, whichever of the known formats it has, in one transaction that
    /// rewrites no row: a store without a draft gets an empty one. After a crash the store is as it was, or has the same
    /// rows in the new format. Call it before `begin_run`.
    ///
    /// Errors: Memory, Disk, Damaged, Full; Shut after an error that only reopening repairs; TooLarge if SQLite would
    /// not load the list of tables. An error that leaves the store open changes nothing.
    pub fn upgrade(&mut self) -> Result<(), StoreFault>
        ensures format { OnOk result (IsClean (requests_shown self.new) → IsCurrent (requests_shown self.new).committed) }
        ensures upgraded { OnOk result (IsClean (requests_shown self.new) → (requests_shown self.new).committed ≡ upgraded (requests_shown self.old).committed) }
        ensures requests { OnOk result (IsClean (requests_shown self.new) → requests self.new ≡ requests self.old) }
        ensures keeps { KeepsStore (requests_shown self.old) (requests_shown self.new) result }
        ensures crash { (db : Trees) → S.Store.recovers self.new.store db
            → S.Store.recovers self.old.store db ⊎ (IsTrue (requests_shown self.old).is_open × (db ≡ upgraded (requests_shown self.old).committed)) }
        ensures cause { IsClean (requests_shown self.new) → IfErr result (HasReason (record {
          Failed = MoreFaults (S.Store.faults self.old.store) (S.Store.faults self.new.store);
          WasShut = IsTrue (requests_shown self.old).is_broken;
          IsTooLarge = CannotList (requests_shown self.old).trees;
          AreTooMany = ⊥;
          IsNotRequest = ⊥;
        })) }
    {
        let edited = list_anew(self.alloc, &mut self.store);
        concluded(&mut self.store, edited)
    }
}
