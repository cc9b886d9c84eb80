//! The files of a store in memory, which stay when the store is closed.

use crate::bench_disk::BenchDisk;
use crate::contents::Contents;
use crate::plan::CallPlan;
use crate::recovering::loaded;
use sqlite_disk::{Disk, Files};
use std::alloc::{AllocError, Global};
use std::rc::Rc;
use std::test::Fail;
use ups_store::create_files;

/// The number from which the key of a log is derived.
pub(crate) const SEED: u64 = 7;

/// The files of a store, and which calls on them fail.
#[derive(Drop)]
pub(crate) struct Bench {
    /// The log.
    pub(crate) log: Rc<Contents>,
    /// The database file.
    pub(crate) db: Rc<Contents>,
    /// Which calls fail.
    pub(crate) plan: Rc<CallPlan>,
}

/// Returns a disk over contents.
fn disk_over(alloc: Global, contents: &Rc<Contents>, plan: &Rc<CallPlan>) -> Option<BenchDisk> {
    let memory = loaded(alloc, contents.left(false))?;
    let contents = contents.clone().ok()?;
    let plan = plan.clone().ok()?;
    Some(BenchDisk::new(memory, contents, plan))
}

impl Bench {
    /// Returns files that are empty.
    ///
    /// Errors: lack of memory.
    fn empty(alloc: Global) -> Result<Bench, AllocError> {
        Ok(Bench {
            log: Rc::new(alloc, Contents::new(alloc))?,
            db: Rc::new(alloc, Contents::new(alloc))?,
            plan: Rc::new(alloc, CallPlan::new())?,
        })
    }

    /// Takes what the files of another bench have, as synced.
    ///
    /// Errors: lack of memory.
    fn take(&self, other: &Bench) -> Result<(), AllocError> {
        self.log.take(&other.log)?;
        self.db.take(&other.db)
    }

    /// Returns a copy of the files, of which all calls succeed, or None if memory runs out.
    pub(crate) fn copied(&self, alloc: Global) -> Option<Bench> {
        let bench = Bench::empty(alloc).ok()?;
        match bench.take(self) {
            Ok(()) => Some(bench),
            Err(_) => None,
        }
    }

    /// Returns whether nothing is lost at a power cut.
    pub(crate) fn is_synced(&self) -> bool {
        self.log.is_synced() && self.db.is_synced()
    }

    /// Returns the files as disks, or None if memory runs out.
    pub(crate) fn files(&self, alloc: Global) -> Option<Files<BenchDisk>> {
        let log = disk_over(alloc, &self.log, &self.plan)?;
        let db = disk_over(alloc, &self.db, &self.plan)?;
        Some(Files { log, db })
    }
}

/// Makes a store in files, and returns whether it did.
fn is_made(alloc: Global, bench: &Bench) -> bool {
    let Some(files) = bench.files(alloc) else {
        return false;
    };
    if !files.log.may_be_used() || !files.db.may_be_used() {
        return false;
    }
    create_files(alloc, files, SEED).is_ok()
}

/// Returns the files of a store without requests and runs.
pub(crate) fn created(alloc: Global) -> Result<Bench, Fail> {
    let bench = Bench::empty(alloc)?;
    if !is_made(alloc, &bench) {
        return Err("no store".into());
    }
    Ok(bench)
}
