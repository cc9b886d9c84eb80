//! A disk of a bench.

ghost use Rattle.std.specs.Prelude.{refl};
ghost use Rattle.std.proofs.Common.{inl};

use crate::contents::Contents;
use crate::failing::Failing;
use crate::plan::CallPlan;
use sqlite_disk::{Disk, Memory, Tally};
use std::io;
use std::rc::Rc;

/// A disk in memory whose calls fail as planned. It is a type without parameters and lifetimes: over one with either, the
/// proof of a start exceeds the prover's limit of steps.
#[derive(Drop)]
pub(crate) struct BenchDisk {
    disk: Failing<Memory>,
}

impl BenchDisk {
    /// Returns a disk with what the one in memory has, which is what `contents` has.
    pub(crate) fn new(memory: Memory, contents: Rc<Contents>, plan: Rc<CallPlan>) -> BenchDisk {
        BenchDisk {
            disk: Failing::new(memory, contents, plan),
        }
    }
}

impl Disk for BenchDisk {
    ghost seen = { λ b. ⟦<Failing<Memory> as Disk>⟧.seen b.disk };

    ghost may_leave = { λ b. ⟦<Failing<Memory> as Disk>⟧.may_leave b.disk };

    ghost is_usable = { λ b. ⟦<Failing<Memory> as Disk>⟧.is_usable b.disk };

    ghost faults = { λ b. ⟦<Failing<Memory> as Disk>⟧.faults b.disk };

    ghost tally_of = { λ b. ⟦<Failing<Memory> as Disk>⟧.tally_of b.disk };

    ghost is_rotten = { λ b. ⟦<Failing<Memory> as Disk>⟧.is_rotten b.disk };

    ghost key_of = { λ b. ⟦<Failing<Memory> as Disk>⟧.key_of b.disk };

    ghost is_clean = { λ b. ⟦<Failing<Memory> as Disk>⟧.is_clean b.disk };

    ghost is_fair = { λ b. ⟦<Failing<Memory> as Disk>⟧.is_fair b.disk };

    ghost fair_if_clean = { λ _ _ _. refl };

    ghost seen_may_stay = { λ _. inl refl };

    ghost is_mixing = { λ b. ⟦<Failing<Memory> as Disk>⟧.is_mixing b.disk };

    fn mixes(&self) -> bool {
        self.disk.mixes()
    }

    fn key(&self) -> u64 {
        self.disk.key()
    }

    fn tally(&self) -> Tally {
        self.disk.tally()
    }

    fn may_be_used(&self) -> bool {
        self.disk.may_be_used()
    }

    fn len(&mut self) -> io::Result<usize> {
        self.disk.len()
    }

    fn read_at(&mut self, at: usize, buf: &mut [u8]) -> io::Result<()> {
        self.disk.read_at(at, buf)
    }

    fn read_checked(&mut self, key: u64, want: u64, at: usize, buf: &mut [u8]) -> io::Result<()> {
        self.disk.read_checked(key, want, at, buf)
    }

    fn write_at(&mut self, at: usize, bytes: &[u8]) -> io::Result<()> {
        self.disk.write_at(at, bytes)
    }

    fn set_len(&mut self, len: usize) -> io::Result<()> {
        self.disk.set_len(len)
    }

    fn sync(&mut self) -> io::Result<()> {
        self.disk.sync()
    }
}
