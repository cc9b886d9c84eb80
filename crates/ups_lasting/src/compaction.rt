//! A compaction of a ledger's records in slices, beside the appends.

ghost use Rattle.std.specs.Prelude.{◌≡◌, ◌⊎◌, ◌+◌, ◌≤◌, [], false, true, ℕ, List, length, IfOk, IfSome};
ghost use Rattle.std.specs.Global.{Global};
ghost use Rattle.ups_journal.specs.declared.record.Record.{Record};
ghost use Rattle.ups_life.specs.Settings.{IsMoment};
ghost use Rattle.ups_compact.specs.Shifts.{less_by};
ghost use Rattle.ups_lasting.specs.Stages.{Covers, coming, is_idle};
ghost use Rattle.ups_lasting.specs.Tending.{UnlessExchanged, IfStaying, IfExchanged, IfDoubtful, HaveReplaced, IsAgreed, StandsBySome, Turns};

use crate::draft_ledger::DraftLedger;
use crate::following::{Followed, follow_on};
use crate::moving::move_on;
use crate::stage::{Follow, SLICE, Stage};
use http_server::Log;
use std::alloc::Global;
use std::mem::replace;
use ups_compact::Shifts;
use ups_journal::Record;
use ups_ledger::{Disposer, LedgerFault};
use ups_manager::Manager;

/// What a slice of a compaction has done.
#[derive(Drop)]
pub enum Tended {
    /// The compaction is under way.
    Going,
    /// Nothing is under way.
    Resting,
    /// The drafts have taken the place of the records. The compaction is done.
    Exchanged {
        /// The new records, for contracts alone.
        records: Log<Record<Global>, ()>,
    },
    /// Nobody knows whether the drafts have taken the place of the records. The compaction is done.
    Doubtful {
        /// The drafts, for contracts alone.
        records: Log<Record<Global>, ()>,
        /// Why nobody knows.
        fault: LedgerFault,
    },
}

/// A compaction of a ledger's records, which is done in slices while the ledger grows: it surveys the records, reads them
/// once more and drafts those that are kept, drafts what was appended meanwhile with lesser numbers, and puts the drafts in
/// the place of the records. The contracts call the drafts that are right at a stage those that agree.
#[derive(Drop)]
pub struct Compaction {
    /// A manager without history, with the settings of all.
    empty: Manager<Global>,
    /// The number of records that there were when it began. It surveys as many, whatever is appended meanwhile.
    begun: u64,
    stage: Stage,
}

impl Compaction {
    /// Returns a compaction of which nothing is under way. `empty` is a manager without history.
    pub fn new(empty: Manager<Global>) -> Compaction
        ensures settings { result.empty.settings ≡ empty.settings }
        ensures stage { result.stage ≡ Stage.Resting }
    {
        Compaction {
            empty,
            begun: 0,
            stage: Stage::Resting,
        }
    }

    /// Returns whether nothing is under way.
    pub fn is_resting(&self) -> bool
        ensures { result ≡ is_idle self.now.stage }
    {
        match self.stage {
            Stage::Resting => true,
            _ => false,
        }
    }

    /// Begins a compaction of `records` records if one is due and none is under way.
    pub fn begin_if(&mut self, is_due: bool, records: u64)
        ensures agrees { (content drafts : List (Record Global)) → IsAgreed self.old.empty.settings self.old.stage content drafts → IsAgreed self.new.empty.settings self.new.stage content drafts }
        ensures covers { (content : List (Record Global)) → records ≤ length content → Covers self.old.begun self.old.stage content → Covers self.new.begun self.new.stage content }
        ensures begins { is_due ≡ true → is_idle self.old.stage ≡ true → (self.new.begun ≡ records) × (self.new.stage ≡ Stage.Clearing) }
        ensures goes_on { is_idle self.old.stage ≡ false → (self.new.begun ≡ self.old.begun) × (self.new.stage ≡ self.old.stage) }
        ensures settings { self.new.empty.settings ≡ self.old.empty.settings }
    {
        if is_due && self.is_resting() {
            self.begun = records;
            self.stage = Stage::Clearing;
        }
    }

    /// Gives up the compaction that is under way. What it has drafted is deleted from the next slice on.
    pub fn give_up(&mut self)
        ensures stage { self.new.stage ≡ Stage.Freeing }
        ensures settings { self.new.empty.settings ≡ self.old.empty.settings }
        ensures begun { self.new.begun ≡ self.old.begun }
    {
        self.stage = Stage::Freeing;
    }

    /// Returns the sums of some shifts and of those of the drafts, if these are about to take the place of the records.
    ///
    /// # Errors
    ///
    /// Full if memory runs out, or a sum is above `u64::MAX`.
    pub fn coming_with(
        &self,
        alloc: Global,
        base: &Shifts<Global>,
    ) -> Result<Shifts<Global>, LedgerFault>
        ensures { IfOk result (λ total. IfSome (coming self.now.stage) (λ extra. (w : List ℕ) → less_by total w ≡ less_by extra w + less_by base.now w)) }
    {
        let sums = match &self.stage {
            Stage::Following(f) => f.shifts.and(alloc, base),
            _ => Ok(Shifts::none(alloc)),
        };
        match sums {
            Ok(total) => Ok(total),
            Err(_) => Err(LedgerFault::Full),
        }
    }

    /// Deletes drafts that nobody needs.
    ///
    /// Errors: those of the ledger.
    fn free<D: DraftLedger>(&mut self, ledger: &mut D) -> Result<Tended, LedgerFault>
        ensures turns { Turns D.DraftLedger self.old.empty.settings self.old.begun ledger.old ledger.new Stage.Freeing self.new.stage result }
        ensures settings { self.new.empty.settings ≡ self.old.empty.settings }
        ensures begun { self.new.begun ≡ self.old.begun }
    {
        self.stage = Stage::Resting;
        if ledger.clear(SLICE as u32)? {
            return Ok(Tended::Resting);
        }
        self.give_up();
        Ok(Tended::Going)
    }

    /// Drafts what was appended meanwhile, or puts the drafts in the place of the records.
    ///
    /// Errors: those of the ledger; Full.
    fn follow<D: DraftLedger>(
        &mut self,
        alloc: Global,
        ledger: &mut D,
        f: Follow,
    ) -> Result<Tended, LedgerFault>
        requires freeing { self.old.stage ≡ Stage.Freeing }
        requires agrees { D.is_sound ledger.old → IsAgreed self.old.empty.settings (Stage.Following f) (D.kept ledger.old) (D.drafts ledger.old) }
        requires covers { D.is_sound ledger.old → Covers self.old.begun (Stage.Following f) (D.kept ledger.old) }
        ensures turns { Turns D.DraftLedger self.old.empty.settings self.old.begun ledger.old ledger.new (Stage.Following f) self.new.stage result }
        ensures settings { self.new.empty.settings ≡ self.old.empty.settings }
        ensures begun { self.new.begun ≡ self.old.begun }
    {
        let mut f = f;
        match follow_on(alloc, ledger, &mut f) {
            Ok(Followed::Drafted) => {
                self.stage = Stage::Following(f);
                Ok(Tended::Going)
            }
            Ok(Followed::Exchanged) => Ok(Tended::Exchanged { records: f.drafts }),
            Ok(Followed::Doubtful(fault)) => Ok(Tended::Doubtful {
                records: f.drafts,
                fault,
            }),
            Err(fault) => Err(fault),
        }
    }

    /// Does a slice of the compaction.
    ///
    /// Errors: those of the ledger; Full.
    fn turn<D: DraftLedger, B: Disposer>(
        &mut self,
        alloc: Global,
        ledger: &mut D,
        moment: u64,
        disposer: &B,
    ) -> Result<Tended, LedgerFault>
        requires moment { IsMoment moment }
        requires agrees { D.is_sound ledger.old → IsAgreed self.old.empty.settings self.old.stage (D.kept ledger.old) (D.drafts ledger.old) }
        requires covers { D.is_sound ledger.old → Covers self.old.begun self.old.stage (D.kept ledger.old) }
        ensures turns { Turns D.DraftLedger self.old.empty.settings self.old.begun ledger.old ledger.new self.old.stage self.new.stage result }
        ensures settings { self.new.empty.settings ≡ self.old.empty.settings }
        ensures begun { self.new.begun ≡ self.old.begun }
    {
        let upto = self.begun;
        match replace(&mut self.stage, Stage::Freeing) {
            Stage::Resting => {
                self.stage = Stage::Resting;
                Ok(Tended::Resting)
            }
            Stage::Freeing => self.free(ledger),
            Stage::Following(f) => self.follow(alloc, ledger, f),
            stage => match move_on(alloc, ledger, &self.empty, stage, upto, moment, disposer) {
                Ok(next) => {
                    self.stage = next;
                    Ok(Tended::Going)
                }
                Err(fault) => Err(fault),
            },
        }
    }

    /// Does a slice of the compaction, if one is under way: at most 64 records are read, entered, drafted or deleted, with
    /// one commit at most; of those that were appended meanwhile 512, with two at most. So it ends if fewer are appended
    /// between two slices, however many in all. The new records are those of the first ones, at least as many as there were
    /// when it began, compacted, and of those behind, made less; the old ones are deleted by the next slices. A watcher's acknowledgements in the new records are made at `moment`. Its managers go to
    /// `disposer` as soon as they are no longer needed. The compaction goes on at the next call, whatever was appended in
    /// between.
    ///
    /// # Errors
    ///
    /// Those of the ledger; Full also if memory runs out, or if the records are not those of a history that is legal with
    /// these settings. The compaction is then given up, and the records stay; what it has drafted is deleted by the next
    /// slices.
    pub fn tend<D: DraftLedger, B: Disposer>(
        &mut self,
        alloc: Global,
        ledger: &mut D,
        moment: u64,
        disposer: &B,
    ) -> Result<Tended, LedgerFault>
        requires moment { IsMoment moment }
        requires agrees { D.is_sound ledger.old → IsAgreed self.old.empty.settings self.old.stage (D.kept ledger.old) (D.drafts ledger.old) }
        requires covers { D.is_sound ledger.old → Covers self.old.begun self.old.stage (D.kept ledger.old) }
        ensures agrees { D.is_sound ledger.new → IsAgreed self.new.empty.settings self.new.stage (D.kept ledger.new) (D.drafts ledger.new) }
        ensures covers { D.is_sound ledger.new → Covers self.new.begun self.new.stage (D.kept ledger.new) }
        ensures settings { self.new.empty.settings ≡ self.old.empty.settings }
        ensures begun { self.new.begun ≡ self.old.begun }
        ensures same { UnlessExchanged result (D.is_sound ledger.new → D.kept ledger.new ≡ D.kept ledger.old) }
        ensures exchanged { IfExchanged result (λ records. HaveReplaced D.DraftLedger self.old.empty.settings self.old.begun ledger.old ledger.new self.old.stage records) }
        ensures sound { D.is_sound ledger.new → D.is_sound ledger.old }
        ensures first { D.is_first ledger.new → D.is_first ledger.old }
        ensures crash { IfStaying result (D.is_first ledger.new → (rs : List (Record Global)) → D.recovers ledger.new rs → D.recovers ledger.old rs ⊎ (D.is_sound ledger.old × (rs ≡ D.kept ledger.old))) }
        ensures left { IfExchanged result (λ records. D.is_first ledger.new → (rs : List (Record Global)) → D.recovers ledger.new rs → D.is_sound ledger.new × (rs ≡ D.kept ledger.new)) }
        ensures unsound { IfDoubtful result (¬ D.is_sound ledger.new) }
        ensures doubt { IfDoubtful result (D.is_first ledger.new → (rs : List (Record Global)) → D.recovers ledger.new rs → D.recovers ledger.old rs ⊎ (D.is_sound ledger.old × ((rs ≡ D.kept ledger.old) ⊎ StandsBySome self.old.empty.settings (D.kept ledger.old) rs))) }
    {
        self.turn(alloc, ledger, moment, disposer)
    }
}
