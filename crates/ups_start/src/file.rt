//! A store in a file. Only this module and `making` name its type.

ghost use Rattle.std.specs.Prelude.{◌≡◌, ◌≤◌, [], IsTrue, IfOk};
ghost use Rattle.sqlite_trees.specs.Tree.{Trees};
ghost use Rattle.sqlite_trees.specs.View.{doubt};
ghost use Rattle.ups_store.specs.Shown.{requests_shown, shown_by, given_out};
ghost use Rattle.ups_start.specs.Opened.{ShowsFiles};
ghost use Rattle.ups_start.specs.Shelved.{CanLeave};

use crate::place::StorePlace;
use sqlite_disk::Start;
use sqlite_std_file::FileFrom;
use sqlite_store::FileStore;
use ups_store::{OpenFault, Replay, RequestStore, StoreFault, open};

/// The file at a path, with its log next to it. `S` stands for what they hold as they are opened, and is the same at each
/// opening. A contract over any `S` can be read for one opening after the other: with what that one found in the files as
/// `S`, its clauses speak of the store that was opened then. No clause supposes that the disk was honest to two stores.
#[derive(Clone, Copy)]
pub struct FilePlace<'a, S: Start + Copy> {
    rt: &'a HostRuntime,
    path: &'a str,
    start: S,
}

impl<'a, S: Start + Copy> FilePlace<'a, S> {
    /// Returns the place of the file at `path`.
    pub fn new(rt: &'a HostRuntime, path: &'a str, start: S) -> FilePlace<'a, S> {
        FilePlace { rt, path, start }
    }
}

/// A store in a file.
pub type FileStoreOf<S> = FileStore<FileFrom<S>>;

impl<S: Start + Copy> StorePlace for FilePlace<'_, S> {
    type Store = FileStoreOf<S>;

    ghost finds = { λ _ shown. ShowsFiles S.Start shown };

    fn open(&self) -> Result<Replay<FileStoreOf<S>>, OpenFault>
        ensures first { IfOk result (λ r. given_out r ≡ []) }
        ensures found { IfOk result (λ r. ShowsFiles S.Start (shown_by r)) }
    {
        open(self.rt, self.path, self.start)
    }

    fn checkpoint(store: &mut RequestStore<FileStoreOf<S>>) -> Result<(), StoreFault>
        ensures same { IsTrue (requests_shown store.new).is_open → requests_shown store.new ≡ requests_shown store.old }
        ensures clean { doubt (requests_shown store.old).is_clean ≤ doubt (requests_shown store.new).is_clean }
        ensures crash { (db : Trees) → CanLeave store.new db → CanLeave store.old db }
    {
        store.checkpoint()
    }
}
