//! The place of a store of this program.

ghost use Rattle.std.specs.Prelude.{◌≡◌, ◌≤◌, [], true, IsTrue, IfOk};
ghost use Rattle.sqlite_trees.specs.Tree.{Trees};
ghost use Rattle.sqlite_trees.specs.View.{doubt};
ghost use Rattle.ups_store.specs.Shown.{requests_shown, shown_by, given_out};
ghost use Rattle.ups_start.specs.Opened.{ShowsFiles};
ghost use Rattle.ups_start.specs.Shelved.{CanLeave};
ghost use Rattle.upsd.specs.Contents.{log_held, file_held};

use ups_start::{FilePlace, FileStoreOf, Start, StorePlace};
use ups_store::{OpenFault, Replay, RequestStore, StoreFault};

/// What the files of a store hold as they are opened, which the program can't know: any bytes. A torn write leaves each
/// byte as it was or as it was written.
#[derive(Clone, Copy)]
pub(crate) struct AnyContents;

impl Start for AnyContents {
    ghost log = { log_held };

    ghost db = { file_held };

    ghost is_mixing = { true };

    fn mixes() -> bool {
        true
    }
}

/// The file at a path, with its log next to it. It is a type of its own: a type with invariants, such as a ledger, may be
/// the field of another only if its place implements `StorePlace` by itself.
#[derive(Clone, Copy)]
pub(crate) struct ServerPlace<'a> {
    file: FilePlace<'a, AnyContents>,
}

impl<'a> ServerPlace<'a> {
    /// Returns the place of the file at `path`.
    pub(crate) fn new(rt: &'a HostRuntime, path: &'a str) -> ServerPlace<'a> {
        ServerPlace {
            file: FilePlace::new(rt, path, AnyContents),
        }
    }
}

impl StorePlace for ServerPlace<'_> {
    type Store = FileStoreOf<AnyContents>;

    ghost finds = { λ _ shown. ShowsFiles ⟦<AnyContents as Start>⟧ shown };

    fn open(&self) -> Result<Replay<FileStoreOf<AnyContents>>, OpenFault>
        ensures first { IfOk result (λ r. given_out r ≡ []) }
        ensures found { IfOk result (λ r. ShowsFiles ⟦<AnyContents as Start>⟧ (shown_by r)) }
    {
        self.file.open()
    }

    fn checkpoint(store: &mut RequestStore<FileStoreOf<AnyContents>>) -> Result<(), StoreFault>
        ensures same { IsTrue (requests_shown store.new).is_open → requests_shown store.new ≡ requests_shown store.old }
        ensures clean { doubt (requests_shown store.old).is_clean ≤ doubt (requests_shown store.new).is_clean }
        ensures crash { (db : Trees) → CanLeave store.new db → CanLeave store.old db }
    {
        FilePlace::<AnyContents>::checkpoint(store)
    }
}
