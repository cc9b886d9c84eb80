//! Opening the files of a store, and making one.

ghost use Rattle.std.specs.Prelude.{◌≡◌, ◌⊎◌, ◌≤◌, ⊤, [], false, true, None, IsTrue, IfOk, IfErr, IfSome, OnOk};
ghost use Rattle.sqlite_disk.specs.Disk.{MoreFaults};
ghost use Rattle.sqlite_wal.specs.Files.{image_at};
ghost use Rattle.sqlite_wal.specs.Reads.{AreClean, OnlyReads};
ghost use Rattle.sqlite_wal.specs.Recovery.{Replays};
ghost use Rattle.sqlite_pool.specs.Opening.{IsBlankFile};
ghost use Rattle.sqlite_store.specs.FileStore.{view};
ghost use Rattle.sqlite_store.specs.Unopened.{AreUsable, HasFileAs, HasSomeFile, IsFullFile, CanCreate, files_of, wanted_by, state_of, image};
ghost use Rattle.sqlite_trees.specs.View.{IsClean};
ghost use Rattle.ups_store.specs.Held.{IsFresh};
ghost use Rattle.ups_store.specs.Format.{tables_of, the_schema, IsSchema};
ghost use Rattle.ups_store.specs.Found.{whole_page, used_page, image_of, HasNone, HoldsAs, HoldsTables, HoldsOnly, ListsNothing, AreNew, StandAlike, ReadAs, FindsIn, MakesIn};
ghost use Rattle.ups_store.specs.Refused.{faults_in, AreCleanFiles, IsUnusable, HasLog, IsAlone, MeetsLimit, because, HasOpenReason, fault_of_opening, refuses_log, fault_of_log, reasons, creation_reasons, IsKind, IsLongLog, pair};
ghost use Rattle.ups_store.specs.Shown.{shown_by, given_out};
ghost use Rattle.ups_store.specs.declared.fault.OpenFault.TheVariants as faults;

use crate::fault::OpenFault;
use crate::format::{
    CURRENT, FORMATS, Format, REQUEST, REQUEST_SQL, RUN, first_table, format_in, is_text_cell,
    last_table, run_table, table_count,
};
use crate::reading::Replay;
use crate::reopening::requests_table;
use sqlite_disk::{Disk, Files, Start};
use sqlite_pager::{Options, Pager};
use sqlite_pool::probe_blank;
use sqlite_store::{FileStore, OpenError as StoreOpenError, Unopened, name_fault};
use sqlite_trees::error::StoreError;
use sqlite_value::row::Row;
use sqlite_wal::{PageSize, probe_frames};
use std::alloc::{AllocError, Global};

/// The page size of the file, in bytes: most records fit in one page, and a commit writes at least two.
const PAGE: usize = 1024;

/// Files that were not opened, and why.
#[derive(Drop)]
pub struct OpenRefusal<D: Disk> {
    /// Why they were not opened.
    pub fault: OpenFault,
    /// The files.
    pub files: Files<D>,
}

/// Returns the fault for an error of opening; `named` says what failed on the disk.
fn fault_of_open(error: StoreOpenError, named: StoreError) -> OpenFault
    ensures { result ≡ fault_of_opening error named }
{
    match (error, named) {
        (StoreOpenError::OutOfMemory, _) => OpenFault::Memory,
        (StoreOpenError::Io, StoreError::Corrupt) => OpenFault::Damaged,
        (StoreOpenError::Io, StoreError::Full) => OpenFault::Full,
        (StoreOpenError::Io, _) => OpenFault::Disk,
        (StoreOpenError::Full, _) => OpenFault::AtLimit,
        (StoreOpenError::Refused, _) => OpenFault::NotStore,
    }
}

/// Returns the files as a database that should have the tables of this format, before anything is read from it.
fn unopened<D: Disk + Drop>(
    alloc: Global,
    files: Files<D>,
    seed: u64,
    format: Format,
) -> Result<Unopened<D>, OpenRefusal<D>>
    ensures files { IfOk result (λ it. files_of it ≡ (files.log, files.db)) }
    ensures size { IfOk result (λ it. (state_of it).page_size ≡ used_page) }
    ensures table { IfOk result (λ it. wanted_by it ≡ tables_of format) }
    ensures fault { IfErr result (λ r. r.fault ≡ faults.Memory) }
    ensures back { IfErr result (λ r. pair r.files ≡ pair files) }
{
    let size = PageSize::new(PAGE).unwrap();
    let pager = match Pager::new(alloc, files, size, Options::new(seed)) {
        Ok(pager) => pager,
        Err(failed) => {
            return Err(OpenRefusal {
                fault: OpenFault::Memory,
                files: failed.value,
            });
        }
    };
    let tables = [first_table(format), run_table(format), last_table(format)];
    match Unopened::with_sums(alloc, pager, &tables[..table_count(format)], true) {
        Ok(unopened) => Ok(unopened),
        Err(failed) => Err(OpenRefusal {
            fault: OpenFault::Memory,
            files: failed.value.close(),
        }),
    }
}

/// Returns whether the files have no database.
fn is_blank<D: Disk>(alloc: Global, files: &mut Files<D>) -> Result<bool, OpenFault>
    requires log { IsTrue (D.Disk.is_usable files.old.log) }
    requires db { IsTrue (D.Disk.is_usable files.old.db) }
    ensures blank { IfOk result (λ blank. AreCleanFiles D.Disk files.new → IsTrue blank → IsBlankFile used_page (image_of D.Disk files.old)) }
    ensures there { IfOk result (λ blank. AreCleanFiles D.Disk files.new → IsBlankFile used_page (image_of D.Disk files.old) → IsTrue blank) }
    ensures cause { IfErr result (λ fault. AreCleanFiles D.Disk files.new → HasOpenReason (because (MoreFaults (faults_in D.Disk files.old) (faults_in D.Disk files.new)) (IsLongLog D.Disk files.old) ⊥) fault) }
    ensures counts { faults_in D.Disk files.old ≤ faults_in D.Disk files.new }
    ensures log { OnlyReads D.Disk files.old.log files.new.log }
    ensures db { OnlyReads D.Disk files.old.db files.new.db }
{
    let size = PageSize::new(PAGE).unwrap();
    match probe_blank(alloc, files, size, true) {
        Ok(is_blank) => Ok(is_blank),
        Err(sqlite_wal::Error::OutOfMemory) => Err(OpenFault::Memory),
        Err(sqlite_wal::Error::Io(_)) => Err(OpenFault::Disk),
        Err(_) => Err(OpenFault::AtLimit),
    }
}

/// Returns whether this is the error of a recovery that refuses a log.
fn refuses_log(error: &sqlite_wal::Error) -> bool
    ensures { result ≡ refuses_log error.now }
{
    !matches!(
        error,
        sqlite_wal::Error::Io(_) | sqlite_wal::Error::OutOfMemory
    )
}

/// Returns the fault for an error of reading a log that is not refused.
fn fault_of_log(error: sqlite_wal::Error) -> OpenFault
    ensures { result ≡ fault_of_log error }
{
    match error {
        sqlite_wal::Error::OutOfMemory => OpenFault::Memory,
        _ => OpenFault::Disk,
    }
}

/// Returns whether recovery takes a frame of the log, or refuses the log.
fn has_log<D: Disk>(alloc: Global, log: &mut D) -> Result<bool, OpenFault>
    requires { IsTrue (D.Disk.is_usable log.old) }
    ensures some { IfOk result (λ some. IsTrue (D.Disk.is_clean log.new) → IsTrue some → HasLog (D.Disk.seen log.old)) }
    ensures none { IfOk result (λ some. IsTrue (D.Disk.is_clean log.new) → some ≡ false → Replays whole_page (D.Disk.seen log.old) 0) }
    ensures cause { IfErr result (λ fault. IsTrue (D.Disk.is_clean log.new) → HasOpenReason (because (MoreFaults (D.Disk.faults log.old) (D.Disk.faults log.new)) ⊥ ⊥) fault) }
    ensures counts { D.Disk.faults log.old ≤ D.Disk.faults log.new }
    ensures same { OnlyReads D.Disk log.old log.new }
{
    let size = PageSize::new(PAGE).unwrap();
    match probe_frames(alloc, log, size) {
        Ok(numbers) => Ok(!numbers.is_empty()),
        Err(error) => {
            if refuses_log(&error) {
                Ok(true)
            } else {
                Err(fault_of_log(error))
            }
        }
    }
}

/// Returns whether the files have no database and no commit.
fn is_new<D: Disk>(alloc: Global, files: &mut Files<D>) -> Result<bool, OpenFault>
    requires log { IsTrue (D.Disk.is_usable files.old.log) }
    requires db { IsTrue (D.Disk.is_usable files.old.db) }
    ensures fresh { IfOk result (λ new. AreCleanFiles D.Disk files.new → IsTrue new → AreNew (image_of D.Disk files.old)) }
    ensures there { IfOk result (λ new. AreCleanFiles D.Disk files.new → new ≡ false → ¬ IsBlankFile used_page (image_of D.Disk files.old)) }
    ensures cause { IfErr result (λ fault. AreCleanFiles D.Disk files.new → HasOpenReason (record {
      Failed = MoreFaults (faults_in D.Disk files.old) (faults_in D.Disk files.new);
      AtLimit = IsLongLog D.Disk files.old;
      Refused = ⊥;
      IsMissing = ⊥;
      LogIsAlone = IsAlone D.Disk files.old;
      IsThere = ⊥;
    }) fault) }
    ensures counts { faults_in D.Disk files.old ≤ faults_in D.Disk files.new }
    ensures log { OnlyReads D.Disk files.old.log files.new.log }
    ensures db { OnlyReads D.Disk files.old.db files.new.db }
{
    match is_blank(alloc, files) {
        Ok(true) => {}
        Ok(false) => return Ok(false),
        Err(fault) => return Err(fault),
    }
    match has_log(alloc, &mut files.log) {
        Ok(true) => Err(OpenFault::LogAlone),
        Ok(false) => Ok(true),
        Err(fault) => Err(fault),
    }
}

/// Returns the files with the fault for the error of opening them.
fn refused<D: Disk>(error: StoreOpenError, named: StoreError, left: Unopened<D>) -> OpenRefusal<D>
    ensures fault { result.fault ≡ fault_of_opening error named }
    ensures files { pair result.files ≡ files_of left }
{
    OpenRefusal {
        fault: fault_of_open(error, named),
        files: left.close(),
    }
}

/// Creates the tables in files without a database.
fn made<D: Disk + Drop>(files: Unopened<D>) -> Result<FileStore<D>, OpenRefusal<D>>
    requires usable { AreUsable files }
    requires table { wanted_by files ≡ the_schema }
    ensures fresh { IfOk result (λ store. IsClean (view store) → IsFresh (view store)) }
    ensures empty { IfOk result (λ store. IsClean (view store) → HasNone (view store).committed) }
    ensures honest { IfOk result (λ store. IsClean (view store) → IsTrue (state_of files).is_clean) }
    ensures cause { IfErr result (λ r. AreCleanFiles D.Disk r.files → HasOpenReason (because (MoreFaults (state_of files).faults (faults_in D.Disk r.files)) (MeetsLimit D.Disk r.files) (¬ CanCreate files)) r.fault) }
    ensures falls { IfErr result (λ r. AreCleanFiles D.Disk r.files → IsTrue (state_of files).is_clean × ((state_of files).faults ≤ faults_in D.Disk r.files)) }
{
    let before = files.tally();
    match files.create() {
        Ok(store) => Ok(store),
        Err((error, left)) => Err(refused(error, name_fault(before, left.tally()), left)),
    }
}

/// Opens files that have the tables of a format.
fn attached<D: Disk + Drop>(files: Unopened<D>) -> Result<FileStore<D>, OpenRefusal<D>>
    requires usable { AreUsable files }
    requires table { IsSchema (wanted_by files) }
    ensures fresh { IfOk result (λ store. IsClean (view store) → IsFresh (view store)) }
    ensures found { IfOk result (λ store. IsClean (view store) → ReadAs (state_of files).page_size (image files) (wanted_by files) (view store).committed) }
    ensures honest { IfOk result (λ store. IsClean (view store) → IsTrue (state_of files).is_clean) }
    ensures cause { IfErr result (λ r. AreCleanFiles D.Disk r.files → HasOpenReason (because (MoreFaults (state_of files).faults (faults_in D.Disk r.files)) (MeetsLimit D.Disk r.files) (¬ HasFileAs files true)) r.fault) }
    ensures falls { IfErr result (λ r. AreCleanFiles D.Disk r.files → IsTrue (state_of files).is_clean) }
{
    let before = files.tally();
    match files.open_numbered() {
        Ok(store) => Ok(store),
        Err((error, left)) => Err(refused(error, name_fault(before, left.tally()), left)),
    }
}

/// Returns the format of a store that the files recover to, or None if they recover to a database with an empty
/// catalog, which an interrupted creation leaves when it got no further than the first page.
fn format_of<D: Disk + Drop>(files: &mut Unopened<D>) -> Result<Option<Format>, OpenFault>
    requires usable { AreUsable files.old }
    requires size { (state_of files.old).page_size ≡ used_page }
    ensures nothing { IfOk result (λ found. IsTrue (state_of files.new).is_clean → found ≡ None → ListsNothing used_page (image files.old)) }
    ensures format { IfOk result (λ found. IsTrue (state_of files.new).is_clean → IfSome found (HoldsOnly (image files.old))) }
    ensures alike { OnOk result (IsTrue (state_of files.new).is_clean → StandAlike used_page (image files.old) (image files.new)) }
    ensures usable { OnOk result (AreUsable files.new) }
    ensures table { wanted_by files.new ≡ wanted_by files.old }
    ensures size { IsTrue (state_of files.new).is_clean → (state_of files.new).page_size ≡ (state_of files.old).page_size }
    ensures cause { IfErr result (λ fault. IsTrue (state_of files.new).is_clean → HasOpenReason (because (MoreFaults (state_of files.old).faults (state_of files.new).faults) (IsFullFile files.new) (¬ HasSomeFile files.old)) fault) }
    ensures falls { IsTrue (state_of files.new).is_clean → IsTrue (state_of files.old).is_clean × ((state_of files.old).faults ≤ (state_of files.new).faults) }
{
    let before = files.tally();
    match files.read_catalog() {
        Ok(rows) if rows.is_empty() => Ok(None),
        Ok(rows) => Ok(Some(format_in(rows.as_slice()))),
        Err(error) => Err(fault_of_open(error, name_fault(before, files.tally()))),
    }
}

/// Creates the tables in files with an empty catalog, which an interrupted creation leaves.
fn completed<D: Disk + Drop>(mut files: Unopened<D>) -> Result<FileStore<D>, OpenRefusal<D>>
    requires usable { AreUsable files }
    requires table { wanted_by files ≡ the_schema }
    requires size { (state_of files).page_size ≡ used_page }
    ensures fresh { IfOk result (λ store. IsClean (view store) → IsFresh (view store)) }
    ensures empty { IfOk result (λ store. IsClean (view store) → HasNone (view store).committed) }
    ensures nothing { IfOk result (λ store. IsClean (view store) → ListsNothing used_page (image files)) }
    ensures cause { IfErr result (λ r. AreCleanFiles D.Disk r.files → HasOpenReason (record {
      Failed = MoreFaults (state_of files).faults (faults_in D.Disk r.files);
      AtLimit = MeetsLimit D.Disk r.files;
      Refused = ⊤;
      IsMissing = ⊥;
      LogIsAlone = ⊥;
      IsThere = ⊤;
    }) r.fault) }
    ensures falls { IfErr result (λ r. AreCleanFiles D.Disk r.files → IsTrue (state_of files).is_clean) }
{
    match format_of(&mut files) {
        Ok(None) => made(files),
        Ok(Some(_)) | Err(OpenFault::NotStore) => Err(OpenRefusal {
            fault: OpenFault::Exists,
            files: files.close(),
        }),
        Err(fault) => Err(OpenRefusal {
            fault,
            files: files.close(),
        }),
    }
}

/// Creates the tables in files that have no database.
fn made_in<D: Disk + Drop>(
    alloc: Global,
    files: Files<D>,
    seed: u64,
) -> Result<FileStore<D>, OpenRefusal<D>>
    requires log { IsTrue (D.Disk.is_usable files.log) }
    requires db { IsTrue (D.Disk.is_usable files.db) }
    ensures fresh { IfOk result (λ store. IsClean (view store) → IsFresh (view store)) }
    ensures empty { IfOk result (λ store. IsClean (view store) → HasNone (view store).committed) }
    ensures honest { IfOk result (λ store. IsClean (view store) → AreCleanFiles D.Disk files) }
    ensures cause { IfErr result (λ r. AreCleanFiles D.Disk r.files → HasOpenReason (because (MoreFaults (faults_in D.Disk files) (faults_in D.Disk r.files)) (MeetsLimit D.Disk r.files) ⊤) r.fault) }
{
    match unopened(alloc, files, seed, CURRENT) {
        Ok(it) => made(it),
        Err(refusal) => Err(refusal),
    }
}

/// Creates the tables in files that are not blank, if they have an empty catalog.
fn completed_in<D: Disk + Drop>(
    alloc: Global,
    files: Files<D>,
    seed: u64,
) -> Result<FileStore<D>, OpenRefusal<D>>
    requires log { IsTrue (D.Disk.is_usable files.log) }
    requires db { IsTrue (D.Disk.is_usable files.db) }
    ensures fresh { IfOk result (λ store. IsClean (view store) → IsFresh (view store)) }
    ensures made { IfOk result (λ store. IsClean (view store) → MakesIn (image_of D.Disk files) (view store).committed) }
    ensures cause { IfErr result (λ r. AreCleanFiles D.Disk r.files → HasOpenReason (record {
      Failed = MoreFaults (faults_in D.Disk files) (faults_in D.Disk r.files);
      AtLimit = MeetsLimit D.Disk r.files;
      Refused = ⊤;
      IsMissing = ⊥;
      LogIsAlone = ⊥;
      IsThere = ⊤;
    }) r.fault) }
    ensures falls { IfErr result (λ r. AreCleanFiles D.Disk r.files → AreCleanFiles D.Disk files) }
{
    match unopened(alloc, files, seed, CURRENT) {
        Ok(it) => completed(it),
        Err(refusal) => Err(refusal),
    }
}

fn new_store_over<D: Disk + Drop>(
    alloc: Global,
    mut files: Files<D>,
    seed: u64,
) -> Result<FileStore<D>, OpenRefusal<D>>
    requires log { IsTrue (D.Disk.is_usable files.log) }
    requires db { IsTrue (D.Disk.is_usable files.db) }
    ensures fresh { IfOk result (λ store. IsClean (view store) → IsFresh (view store)) }
    ensures made { IfOk result (λ store. IsClean (view store) → MakesIn (image_of D.Disk files) (view store).committed) }
    ensures cause { IfErr result (λ r. AreCleanFiles D.Disk r.files → HasOpenReason (creation_reasons D.Disk files r.files) r.fault) }
{
    match is_new(alloc, &mut files) {
        Ok(true) => made_in(alloc, files, seed),
        Ok(false) => completed_in(alloc, files, seed),
        Err(fault) => Err(OpenRefusal { fault, files }),
    }
}

/// Files that recover to a database, and the format that it has if it is a store.
#[derive(Drop)]
struct Known<D: Disk> {
    files: Files<D>,
    format: Format,
}

/// Returns the files, which are not blank, with the format of the store in them.
fn recognized<D: Disk + Drop>(mut files: Unopened<D>) -> Result<Known<D>, OpenRefusal<D>>
    requires usable { AreUsable files }
    requires size { (state_of files).page_size ≡ used_page }
    ensures usable { IfOk result (λ k. IsTrue (D.Disk.is_usable k.files.log) × IsTrue (D.Disk.is_usable k.files.db)) }
    ensures alike { IfOk result (λ k. AreCleanFiles D.Disk k.files → StandAlike used_page (image files) (image_of D.Disk k.files)) }
    ensures format { IfOk result (λ k. AreCleanFiles D.Disk k.files → HoldsOnly (image files) k.format) }
    ensures counts { IfOk result (λ k. AreCleanFiles D.Disk k.files → (state_of files).faults ≤ faults_in D.Disk k.files) }
    ensures cause { IfErr result (λ r. AreCleanFiles D.Disk r.files → HasOpenReason (record {
      Failed = MoreFaults (state_of files).faults (faults_in D.Disk r.files);
      AtLimit = MeetsLimit D.Disk r.files;
      Refused = ¬ HoldsTables (image files);
      IsMissing = ListsNothing used_page (image files);
      LogIsAlone = ⊥;
      IsThere = ⊥;
    }) r.fault) }
{
    match format_of(&mut files) {
        Ok(None) => Err(OpenRefusal {
            fault: OpenFault::Missing,
            files: files.close(),
        }),
        Ok(Some(format)) => Ok(Known {
            files: files.close(),
            format,
        }),
        Err(fault) => Err(OpenRefusal {
            fault,
            files: files.close(),
        }),
    }
}

/// The same, before anything is read from the files.
fn recognized_in<D: Disk + Drop>(
    alloc: Global,
    files: Files<D>,
    seed: u64,
) -> Result<Known<D>, OpenRefusal<D>>
    requires log { IsTrue (D.Disk.is_usable files.log) }
    requires db { IsTrue (D.Disk.is_usable files.db) }
    ensures usable { IfOk result (λ k. IsTrue (D.Disk.is_usable k.files.log) × IsTrue (D.Disk.is_usable k.files.db)) }
    ensures alike { IfOk result (λ k. AreCleanFiles D.Disk k.files → StandAlike used_page (image_of D.Disk files) (image_of D.Disk k.files)) }
    ensures format { IfOk result (λ k. AreCleanFiles D.Disk k.files → HoldsOnly (image_of D.Disk files) k.format) }
    ensures counts { IfOk result (λ k. AreCleanFiles D.Disk k.files → faults_in D.Disk files ≤ faults_in D.Disk k.files) }
    ensures cause { IfErr result (λ r. AreCleanFiles D.Disk r.files → HasOpenReason (reasons D.Disk files r.files) r.fault) }
{
    match unopened(alloc, files, seed, CURRENT) {
        Ok(it) => recognized(it),
        Err(refusal) => Err(refusal),
    }
}

/// Opens files that hold a store of this format.
fn opened<D: Disk + Drop>(
    alloc: Global,
    files: Files<D>,
    seed: u64,
    format: Format,
) -> Result<FileStore<D>, OpenRefusal<D>>
    requires log { IsTrue (D.Disk.is_usable files.log) }
    requires db { IsTrue (D.Disk.is_usable files.db) }
    ensures fresh { IfOk result (λ store. IsClean (view store) → IsFresh (view store)) }
    ensures found { IfOk result (λ store. IsClean (view store) → ReadAs used_page (image_of D.Disk files) (tables_of format) (view store).committed) }
    ensures honest { IfOk result (λ store. IsClean (view store) → AreCleanFiles D.Disk files) }
    ensures cause { IfErr result (λ r. AreCleanFiles D.Disk r.files → HasOpenReason (because (MoreFaults (faults_in D.Disk files) (faults_in D.Disk r.files)) (MeetsLimit D.Disk r.files) (¬ HoldsAs (image_of D.Disk files) format)) r.fault) }
    ensures falls { IfErr result (λ r. AreCleanFiles D.Disk r.files → AreCleanFiles D.Disk files) }
{
    match unopened(alloc, files, seed, format) {
        Ok(it) => attached(it),
        Err(refusal) => Err(refusal),
    }
}

/// Opens files that are not blank, in the format that the store in them has.
fn held_in<D: Disk + Drop>(
    alloc: Global,
    files: Files<D>,
    seed: u64,
) -> Result<FileStore<D>, OpenRefusal<D>>
    requires log { IsTrue (D.Disk.is_usable files.log) }
    requires db { IsTrue (D.Disk.is_usable files.db) }
    ensures fresh { IfOk result (λ store. IsClean (view store) → IsFresh (view store)) }
    ensures found { IfOk result (λ store. IsClean (view store) → FindsIn (image_of D.Disk files) (view store).committed) }
    ensures cause { IfErr result (λ r. AreCleanFiles D.Disk r.files → HasOpenReason (reasons D.Disk files r.files) r.fault) }
{
    match recognized_in(alloc, files, seed) {
        Ok(Known { files, format }) => opened(alloc, files, seed, format),
        Err(refusal) => Err(refusal),
    }
}

fn store_over<D: Disk + Drop>(
    alloc: Global,
    mut files: Files<D>,
    seed: u64,
) -> Result<FileStore<D>, OpenRefusal<D>>
    requires log { IsTrue (D.Disk.is_usable files.log) }
    requires db { IsTrue (D.Disk.is_usable files.db) }
    ensures fresh { IfOk result (λ store. IsClean (view store) → IsFresh (view store)) }
    ensures found { IfOk result (λ store. IsClean (view store) → FindsIn (image_of D.Disk files) (view store).committed) }
    ensures cause { IfErr result (λ r. AreCleanFiles D.Disk r.files → HasOpenReason (reasons D.Disk files r.files) r.fault) }
{
    match is_new(alloc, &mut files) {
        Ok(true) => Err(OpenRefusal {
            fault: OpenFault::Missing,
            files,
        }),
        Ok(false) => held_in(alloc, files, seed),
        Err(fault) => Err(OpenRefusal { fault, files }),
    }
}

/// Returns whether the first row of `sqlite_schema` with this name has this SQL text, or None if no row has the name.
fn lists(rows: &[Row], name: &str, sql: &str) -> Option<bool> {
    for row in rows {
        if is_text_cell(row.get(2), name) {
            return Some(is_text_cell(row.get(5), sql));
        }
    }
    None
}

/// Returns whether the table of runs is listed as one of the formats has it, or None if no table has its name.
fn lists_runs(rows: &[Row]) -> Option<bool> {
    let mut found = None;
    for format in FORMATS {
        found = lists(rows, RUN, format.run_sql());
        if found != Some(false) {
            return found;
        }
    }
    found
}

/// Returns the fault for a database that was not opened and has these rows of `sqlite_schema`.
fn kind_in(rows: &[Row]) -> OpenFault
    ensures { IsKind result }
{
    match (lists(rows, REQUEST, REQUEST_SQL), lists_runs(rows)) {
        (None, None) => OpenFault::NotStore,
        (Some(true), Some(true)) => OpenFault::Damaged,
        _ => OpenFault::OtherFormat,
    }
}

/// Returns the fault for files that have no sound database of the tables.
fn kind_of<D: Disk + Drop>(files: &mut Unopened<D>) -> OpenFault
    requires { AreUsable files.old }
    ensures kind { IsKind result }
    ensures falls { IsTrue (state_of files.new).is_clean → IsTrue (state_of files.old).is_clean × ((state_of files.old).faults ≤ (state_of files.new).faults) }
{
    match files.read_catalog() {
        Ok(rows) => kind_in(rows.as_slice()),
        Err(StoreOpenError::OutOfMemory) => OpenFault::Memory,
        Err(StoreOpenError::Refused) => OpenFault::Damaged,
        Err(_) => OpenFault::NotStore,
    }
}

/// Returns the refusal, with a more precise fault if the files have no sound database of the tables.
fn told_apart<D: Disk + Drop>(alloc: Global, refusal: OpenRefusal<D>, seed: u64) -> OpenRefusal<D>
    ensures fault { (result ≡ refusal) ⊎ ((refusal.fault ≡ faults.NotStore) × IsKind result.fault) }
    ensures falls { AreCleanFiles D.Disk result.files → AreCleanFiles D.Disk refusal.files × (faults_in D.Disk refusal.files ≤ faults_in D.Disk result.files) }
{
    match refusal.fault {
        OpenFault::NotStore => {}
        _ => return refusal,
    }
    if !refusal.files.may_be_used() {
        return refusal;
    }
    let OpenRefusal { fault: _, files } = refusal;
    match unopened(alloc, files, seed, CURRENT) {
        Ok(mut again) => {
            let fault = kind_of(&mut again);
            OpenRefusal {
                fault,
                files: again.close(),
            }
        }
        Err(refusal) => refusal,
    }
}

/// Returns the requests of a store that was just opened, or its files if memory is short.
fn replay_over<D: Disk + Drop>(
    alloc: Global,
    store: FileStore<D>,
) -> Result<Replay<FileStore<D>>, OpenRefusal<D>>
    requires { IsClean (view store) → IsFresh (view store) }
    ensures first { IfOk result (λ r. given_out r ≡ []) }
    ensures same { IfOk result (λ r. shown_by r ≡ view store) }
    ensures fault { IfErr result (λ r. r.fault ≡ faults.Memory) }
{
    match requests_table(alloc, &store) {
        Ok(table) => Ok(Replay::over(alloc, store, table)),
        Err(AllocError) => Err(OpenRefusal {
            fault: OpenFault::Memory,
            files: store.close(),
        }),
    }
}

/// Opens the files for reading their requests, whichever of the known formats they have: a store keeps its format until
/// [`RequestStore::upgrade`](crate::RequestStore::upgrade). The key of the log is derived from `seed`.
///
/// Errors: Memory; Missing if there is no database in the files, or one with an empty catalog, which an interrupted
/// creation leaves; LogAlone if there is none but the log has commits; Disk, Full and Damaged if a call of the disk
/// failed; AtLimit; Damaged, OtherFormat and NotStore if the files have no sound database of the tables of a known
/// format.
pub fn open_files<D: Disk + Drop>(
    alloc: Global,
    files: Files<D>,
    seed: u64,
) -> Result<Replay<FileStore<D>>, OpenRefusal<D>>
    requires log { IsTrue (D.Disk.is_usable files.log) }
    requires db { IsTrue (D.Disk.is_usable files.db) }
    ensures first { IfOk result (λ r. given_out r ≡ []) }
    ensures found { IfOk result (λ r. IsClean (shown_by r) → FindsIn (image_of D.Disk files) (shown_by r).committed) }
    ensures cause { IfErr result (λ r. AreCleanFiles D.Disk r.files → HasOpenReason (reasons D.Disk files r.files) r.fault) }
{
    match store_over(alloc, files, seed) {
        Ok(store) => replay_over(alloc, store),
        Err(refusal) => Err(told_apart(alloc, refusal, seed)),
    }
}

/// Makes a store in files that have no database, or one with an empty catalog, which an interrupted creation leaves.
/// The key of the log is derived from `seed`.
///
/// Errors: Memory; Exists if the files are not blank; LogAlone if they are, but the log has commits; Disk, Full and
/// Damaged if a call of the disk failed; AtLimit; NotStore if a table can't be made.
pub fn create_files<D: Disk + Drop>(
    alloc: Global,
    files: Files<D>,
    seed: u64,
) -> Result<Replay<FileStore<D>>, OpenRefusal<D>>
    requires log { IsTrue (D.Disk.is_usable files.log) }
    requires db { IsTrue (D.Disk.is_usable files.db) }
    ensures first { IfOk result (λ r. given_out r ≡ []) }
    ensures made { IfOk result (λ r. IsClean (shown_by r) → MakesIn (image_of D.Disk files) (shown_by r).committed) }
    ensures cause { IfErr result (λ r. AreCleanFiles D.Disk r.files → HasOpenReason (creation_reasons D.Disk files r.files) r.fault) }
{
    match new_store_over(alloc, files, seed) {
        Ok(store) => replay_over(alloc, store),
        Err(refusal) => Err(refusal),
    }
}
