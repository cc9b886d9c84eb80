//! Making a store in a file.

ghost use Rattle.std.specs.Prelude.{◌≡◌, [], IfOk};
ghost use Rattle.sqlite_trees.specs.View.{IsClean};
ghost use Rattle.sqlite_wal.specs.Files.{image_at};
ghost use Rattle.ups_store.specs.Found.{MakesIn};
ghost use Rattle.ups_store.specs.Shown.{shown_by, all_of};

use crate::file::FileStoreOf;
use sqlite_disk::Start;
use ups_store::{OpenFault, Replay};

/// Makes a store without requests in the file at `path`, which is missing or blank. `S` stands for what it and its log
/// hold as they are opened.
///
/// # Errors
///
/// Those of [`ups_store::create`].
pub fn create<S: Start>(
    rt: &HostRuntime,
    path: &str,
    start: S,
) -> Result<Replay<FileStoreOf<S>>, OpenFault>
    ensures none { IfOk result (λ r. IsClean (shown_by r) → all_of r ≡ []) }
    ensures made { IfOk result (λ r. IsClean (shown_by r) → MakesIn (image_at S.Start) (shown_by r).committed) }
{
    ups_store::create(rt, path, start)
}
