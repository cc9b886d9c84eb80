//! Opening the store at a path, and making one.

ghost use Rattle.std.specs.Prelude.{◌≡◌, [], true, false, IfOk, IsTrue};
ghost use Rattle.sqlite_std_file.specs.File.{file_is_usable, IsFresh};
ghost use Rattle.sqlite_wal.specs.Files.{image_at};
ghost use Rattle.sqlite_trees.specs.View.{IsClean};
ghost use Rattle.ups_store.specs.Found.{FindsIn, MakesIn};
ghost use Rattle.ups_store.specs.Refused.{fault_of_io, fault_of_path};
ghost use Rattle.ups_store.specs.Shown.{shown_by, given_out};

use crate::fault::OpenFault;
use crate::opening::{create_files, open_files};
use crate::reading::Replay;
use sqlite_disk::{Files, Start, is_no_room};
use sqlite_std_file::{FileFrom, OpenError};
use sqlite_store::FileStore;
use std::fs::{self, OpenOptions, Permissions};
use std::hash::{BuildHasher, RandomState};
use std::io::{self, ErrorKind};
use std::os::unix::fs::{OpenOptionsExt, PermissionsExt};

/// The error number of a failed read, write or sync.
const EIO: i32 = 5;

/// The mode of the file that is made: only its owner reads and writes it.
const MODE: u32 = 0o600;

/// Returns the fault for an error of a call on a path.
fn fault_of_io(error: io::Error) -> OpenFault
    ensures { result ≡ fault_of_io error }
{
    if is_no_room(&error) {
        return OpenFault::Full;
    }
    match error.raw_os_error() {
        Some(EIO) => OpenFault::Disk,
        _ => OpenFault::Unopened,
    }
}

/// Returns the fault for an error of opening a path.
fn fault_of_path(error: OpenError) -> OpenFault
    ensures { result ≡ fault_of_path error }
{
    match error {
        OpenError::OutOfMemory => OpenFault::Memory,
        OpenError::Busy => OpenFault::Busy,
        OpenError::Io(error) => fault_of_io(error),
        OpenError::HotJournal => OpenFault::Unopened,
    }
}

/// The file at a path and its log, and a number drawn at random.
#[derive(Drop)]
struct SeededFiles<S: Start> {
    files: Files<FileFrom<S>>,
    seed: u64,
}

/// Opens the file at a path and its log, which are made if they are missing.
fn drawn<S: Start>(rt: &HostRuntime, path: &str, start: S) -> Result<SeededFiles<S>, OpenFault>
    ensures log { IfOk result (λ it. IsTrue (file_is_usable S.Start it.files.log)) }
    ensures db { IfOk result (λ it. IsTrue (file_is_usable S.Start it.files.db)) }
    ensures fresh { IfOk result (λ it. IsFresh true it.files.log × IsFresh false it.files.db) }
{
    let files = match sqlite_std_file::open(rt, path, start) {
        Ok(files) => files,
        Err(error) => return Err(fault_of_path(error)),
    };
    match RandomState::new(rt) {
        Ok(state) => Ok(SeededFiles {
            files,
            seed: state.hash_one(&0u8),
        }),
        Err(_) => Err(OpenFault::Unopened),
    }
}

/// Opens the file at a path and its log for reading their requests. `S` stands for what the files had. A file that is
/// missing is not made.
///
/// Errors: Missing if there is no file; Busy if another process has it open; Unopened if the system cannot open it;
/// Full and Disk if it had no room or the disk failed; those of [`open_files`].
pub fn open<S: Start>(
    rt: &HostRuntime,
    path: &str,
    start: S,
) -> Result<Replay<FileStore<FileFrom<S>>>, OpenFault>
    ensures first { IfOk result (λ r. given_out r ≡ []) }
    ensures found { IfOk result (λ r. IsClean (shown_by r) → FindsIn (image_at S.Start) (shown_by r).committed) }
{
    match fs::exists(rt, path) {
        Ok(true) => {}
        Ok(false) => return Err(OpenFault::Missing),
        Err(error) => return Err(fault_of_io(error)),
    }
    let SeededFiles { files, seed } = drawn(rt, path, start)?;
    match open_files(rt.alloc(), files, seed) {
        Ok(replay) => Ok(replay),
        Err(refusal) => Err(refusal.fault),
    }
}

/// Makes an empty file that only its owner reads and writes, whatever the umask is. A file that is there stays as it
/// is.
fn make_file(rt: &HostRuntime, path: &str) -> Result<(), OpenFault> {
    match OpenOptions::new()
        .read(true)
        .write(true)
        .create_new(true)
        .mode(MODE)
        .open(rt, path)
    {
        Ok(file) => match file.set_permissions(Permissions::from_mode(MODE)) {
            Ok(()) => Ok(()),
            Err(error) => Err(fault_of_io(error)),
        },
        Err(error) if error.kind() == ErrorKind::AlreadyExists => Ok(()),
        Err(error) => Err(fault_of_io(error)),
    }
}

/// Makes a store at a path where there is none, in a file that is missing or blank. `S` stands for what the files had.
/// A file that was missing has the mode 0600, and so has its log.
///
/// Errors: Exists if the file is not blank; Busy if another process has it open; Unopened if the system cannot make it;
/// Full and Disk if it had no room or the disk failed; those of [`create_files`]. A file that was missing may be left
/// blank, and can be made a store by another call.
pub fn create<S: Start>(
    rt: &HostRuntime,
    path: &str,
    start: S,
) -> Result<Replay<FileStore<FileFrom<S>>>, OpenFault>
    ensures first { IfOk result (λ r. given_out r ≡ []) }
    ensures made { IfOk result (λ r. IsClean (shown_by r) → MakesIn (image_at S.Start) (shown_by r).committed) }
{
    make_file(rt, path)?;
    let SeededFiles { files, seed } = drawn(rt, path, start)?;
    match create_files(rt.alloc(), files, seed) {
        Ok(replay) => Ok(replay),
        Err(refusal) => Err(refusal.fault),
    }
}
