//! The place of a store in memory.

ghost use Rattle.std.specs.Prelude.{◌≡◌, ◌≤◌, [], IsTrue, IfOk};
ghost use Rattle.sqlite_trees.specs.Tree.{Trees};
ghost use Rattle.sqlite_trees.specs.View.{doubt};
ghost use Rattle.ups_store.specs.Shown.{requests_shown, given_out};
ghost use Rattle.ups_start.specs.Shelved.{CanLeave};

use crate::bench::{Bench, SEED};
use crate::bench_disk::BenchDisk;
use sqlite_disk::Disk;
use sqlite_store::FileStore;
use std::alloc::Global;
use ups_start::StorePlace;
use ups_store::{OpenFault, Replay, RequestStore, StoreFault, open_files};

/// The place of the store in the files of a bench.
#[derive(Clone, Copy)]
pub(crate) struct BenchPlace<'a> {
    alloc: Global,
    bench: &'a Bench,
}

impl<'a> BenchPlace<'a> {
    /// Returns the place of the store in these files.
    pub(crate) fn new(alloc: Global, bench: &'a Bench) -> BenchPlace<'a> {
        BenchPlace { alloc, bench }
    }
}

/// Opens the store in the files of a bench.
fn opened(alloc: Global, bench: &Bench) -> Result<Replay<FileStore<BenchDisk>>, OpenFault>
    ensures first { IfOk result (λ r. given_out r ≡ []) }
{
    let Some(files) = bench.files(alloc) else {
        return Err(OpenFault::Memory);
    };
    if !files.log.may_be_used() || !files.db.may_be_used() {
        return Err(OpenFault::Unopened);
    }
    match open_files(alloc, files, SEED) {
        Ok(replay) => Ok(replay),
        Err(refusal) => Err(refusal.fault),
    }
}

impl StorePlace for BenchPlace<'_> {
    type Store = FileStore<BenchDisk>;

    ghost finds = { λ _ _. Unit {0} };

    fn open(&self) -> Result<Replay<FileStore<BenchDisk>>, OpenFault>
        ensures first { IfOk result (λ r. given_out r ≡ []) }
        ensures found { IfOk result (λ _. Unit {0}) }
    {
        if self.bench.plan.refuses_opening() {
            return Err(OpenFault::Unopened);
        }
        self.bench.plan.open(true);
        let opened = opened(self.alloc, self.bench);
        self.bench.plan.open(false);
        opened
    }

    fn checkpoint(store: &mut RequestStore<FileStore<BenchDisk>>) -> Result<(), StoreFault>
        ensures same { IsTrue (requests_shown store.new).is_open → requests_shown store.new ≡ requests_shown store.old }
        ensures clean { doubt (requests_shown store.old).is_clean ≤ doubt (requests_shown store.new).is_clean }
        ensures crash { (db : Trees) → CanLeave store.new db → CanLeave store.old db }
    {
        store.checkpoint()
    }
}
