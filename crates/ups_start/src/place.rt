//! The place of a store.

ghost use Rattle.std.specs.Prelude.{◌≡◌, ◌≤◌, [], IsTrue, IfOk};
ghost use Rattle.sqlite_trees.specs.Tree.{Trees};
ghost use Rattle.sqlite_trees.specs.View.{View, doubt};
ghost use Rattle.ups_store.specs.Shown.{requests_shown, shown_by, given_out};
ghost use Rattle.ups_start.specs.Shelved.{CanLeave};

use sqlite_trees::store::Alter;
use ups_store::{OpenFault, Replay, RequestStore, StoreFault};

/// The place of a store: how to open it, and how to copy what belongs to it into it. The start and the ledger are
/// generic over it, so that only its `impl` names the type of a store in a file.
pub trait StorePlace: Drop {
    /// The store.
    type Store: Alter + Drop;

    /// That an open of the store there can show this.
    ghost finds: { Self → View → Type 0 };

    /// Opens the store for reading its requests. A store that is missing is not made.
    ///
    /// # Errors
    ///
    /// Those of [`ups_store::open`].
    fn open(&self) -> Result<Replay<Self::Store>, OpenFault>
        ensures first { IfOk result (λ r. given_out r ≡ []) }
        ensures found { IfOk result (λ r. finds self.now (shown_by r)) };

    /// Copies what is stored next to an open store into it.
    ///
    /// # Errors
    ///
    /// Those of [`RequestStore::checkpoint`]. An error that leaves the store open changes nothing.
    fn checkpoint(store: &mut RequestStore<Self::Store>) -> Result<(), StoreFault>
        ensures same { IsTrue (requests_shown store.new).is_open → requests_shown store.new ≡ requests_shown store.old }
        ensures clean { doubt (requests_shown store.old).is_clean ≤ doubt (requests_shown store.new).is_clean }
        ensures crash { (db : Trees) → CanLeave store.new db → CanLeave store.old db };
}
