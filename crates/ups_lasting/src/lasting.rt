//! A ledger whose records are compacted while the server runs.

ghost use Rattle.std.specs.Prelude.{◌≡◌, ◌⊎◌, ◌+◌, ◌++◌, ℕ, List, [], false, true, length, map, IfSome, OnErr, OnOk};
ghost use Rattle.std.specs.Global.{Global};
ghost use Rattle.ups_journal.specs.Columns.{recorded};
ghost use Rattle.ups_journal.specs.declared.record.Record.{Record};
ghost use Rattle.ups_life.specs.Settings.{IsMoment};
ghost use Rattle.ups_compact.specs.Shifts.{less_by};
ghost use Rattle.ups_lasting.specs.Doubting.{is_append, is_exchange, is_sure};
ghost use Rattle.ups_lasting.specs.Leaving.{LeavesOfLog, LeavesStanding};
ghost use Rattle.ups_lasting.specs.Stages.{Covers, coming};
ghost use Rattle.ups_lasting.specs.Standing.{StandsForLog};
ghost use Rattle.ups_lasting.specs.Tending.{AreCompacted, IfCompacted, IsAgreed};

use crate::compaction::{Compaction, Tended};
use crate::doubt::{Doubt, Successor};
use crate::draft_ledger::DraftLedger;
use crate::ghost_records::GhostRecords;
use crate::growing::append_less;
use crate::laws::what_stands_for_a_log_goes_on;
use std::alloc::Global;
use std::mem::replace;
use ups_compact::Shifts;
use ups_journal::Record;
use ups_ledger::{Disposer, Ledger, LedgerFault, Tending};
use ups_life::MAX_MOMENT;
use ups_manager::Manager;

/// A ledger of all accepted requests, the log, over one with drafts whose records are replaced, now and then, by those of
/// a compacted history that stands for the log. The records of further requests are made less by the shifts between the
/// two (PS3.4 CC.2.4) before they are appended. To the outside it has the records of the log.
#[derive(Drop)]
pub struct LastingLedger<D: DraftLedger> {
    alloc: Global,
    ledger: D,
    /// The number of records of the log that are committed.
    told: u64,
    /// By how much the numbers of events are less in the content of the ledger than in the log.
    shifts: Shifts<Global>,
    doubt: Doubt,
    compaction: Compaction,
    /// The number of records that the last compaction left, or 0 before the first.
    compacted: u64,
    /// The records of the log, for contracts alone.
    log: GhostRecords,
    /// The records of the ledger, for contracts alone.
    content: GhostRecords,
    /// The records of the log that were to be appended and may be there, for contracts alone.
    tried: GhostRecords,
    ghost counted: { length log ≡ told },
    ghost now: { D.is_sound ledger → D.kept ledger ≡ content },
    ghost stands: { D.is_sound ledger → StandsForLog compaction.empty.settings content log (less_by shifts) },
    ghost left: { LeavesStanding D.DraftLedger compaction.empty.settings ledger content log tried (less_by shifts) (is_exchange doubt) },
    ghost agrees: { D.is_sound ledger → IsAgreed compaction.empty.settings compaction.stage (D.kept ledger) (D.drafts ledger) },
    ghost covers: { D.is_sound ledger → Covers compaction.begun compaction.stage (D.kept ledger) },
    ghost sure: { is_append doubt ≡ false → tried ≡ [] },
    ghost unsound: { is_exchange doubt ≡ true → ¬ D.is_sound ledger },
}

/// Returns a time, or the last one that has a date if it is later.
fn dated(moment: u64) -> u64
    ensures { IsMoment result }
{
    moment.min(MAX_MOMENT)
}

impl<D: DraftLedger> LastingLedger<D> {
    ghost use Rattle.ups_lasting.specs.LogLeft.{LeavesLog};
    ghost use Rattle.ups_ledger.specs.Behind.{AreBehind};

    /// Returns the ledger over one that has the records of the history of a manager, which is the whole log. `empty` is a
    /// manager without history that has the same settings.
    pub fn over(
        alloc: Global,
        ledger: D,
        manager: &Manager<Global>,
        empty: Manager<Global>,
    ) -> LastingLedger<D>
        requires now { D.is_sound ledger → D.kept ledger ≡ map recorded manager.now.history }
        requires left { D.is_first ledger → (found : List (Record Global)) → D.recovers ledger found → found ≡ map recorded manager.now.history }
        ensures kept { result.log ≡ map recorded manager.now.history }
        ensures content { result.content ≡ map recorded manager.now.history }
        ensures told { result.told ≡ length manager.now.history }
        ensures ledger { result.ledger ≡ ledger }
        ensures settings { result.compaction.empty.settings ≡ empty.settings }
        ensures tried { result.tried ≡ [] }
        ensures doubt { is_exchange result.doubt ≡ false }
    {
        what_stands_for_a_log_goes_on();
        LastingLedger {
            alloc,
            ledger,
            told: manager.entries() as u64,
            shifts: Shifts::none(alloc),
            doubt: Doubt::Nothing,
            compaction: Compaction::new(empty),
            compacted: 0,
            log: GhostRecords::of(manager),
            content: GhostRecords::of(manager),
            tried: GhostRecords::none(),
        }
    }

    /// Finds out whether the drafts have taken the place of the records, if that is in doubt.
    ///
    /// Errors: those of the ledger.
    fn settle(&mut self) -> Result<(), LedgerFault>
        ensures settled { OnOk result (is_exchange self.new.doubt ≡ false) }
        ensures log { self.new.log ≡ self.old.log }
        ensures told { self.new.told ≡ self.old.told }
        ensures sound { D.is_sound self.new.ledger → D.is_sound self.old.ledger }
        ensures first { D.is_first self.new.ledger → D.is_first self.old.ledger }
        ensures crash { D.is_first self.new.ledger → (rs : List (Record Global)) → LeavesLog self.new rs → LeavesLog self.old rs }
    {
        let LastingLedger {
            ledger,
            shifts,
            doubt,
            content,
            ..
        } = self;
        let Doubt::Exchange(_) = doubt else {
            return Ok(());
        };
        let is_made = ledger.settle()?;
        if let Doubt::Exchange(successor) = replace(doubt, Doubt::Nothing) {
            if is_made {
                *shifts = successor.shifts;
                *content = successor.records;
            }
        }
        Ok(())
    }

    /// Appends records, with nothing in doubt about the records that count.
    ///
    /// Errors: those of [`Ledger::append`].
    fn append_settled(&mut self, records: &[Record<Global>]) -> Result<(), LedgerFault>
        requires settled { is_exchange self.old.doubt ≡ false }
        ensures put { OnOk result (self.new.log ≡ self.old.log ++ records.now) }
        ensures same { OnErr result (self.new.log ≡ self.old.log) }
        ensures sound { D.is_sound self.new.ledger → D.is_sound self.old.ledger }
        ensures first { D.is_first self.new.ledger → D.is_first self.old.ledger }
        ensures crash { D.is_first self.new.ledger → (rs : List (Record Global)) → LeavesLog self.new rs → LeavesLog self.old rs ⊎ (D.is_sound self.old.ledger × (rs ≡ self.old.log ++ records.now)) }
        ensures left { OnOk result (D.is_first self.new.ledger → (rs : List (Record Global)) → LeavesLog self.new rs → D.is_sound self.new.ledger × (rs ≡ self.new.log)) }
        ensures more { OnOk result (self.new.told ≡ self.old.told + length records.now) }
        ensures no_more { OnErr result (self.new.told ≡ self.old.told) }
    {
        what_stands_for_a_log_goes_on();
        let LastingLedger {
            alloc,
            ledger,
            told,
            shifts,
            doubt,
            log,
            content,
            tried,
            ..
        } = self;
        let Some(sum) = told.checked_add(records.len() as u64) else {
            return Err(LedgerFault::Full);
        };
        let was_up = ledger.is_up();
        match append_less(*alloc, ledger, shifts, content, records) {
            Ok(()) => {
                log.grow(records);
                *told = sum;
                *tried = GhostRecords::none();
                *doubt = Doubt::Nothing;
                Ok(())
            }
            Err(fault) => {
                *doubt = Doubt::Append;
                if was_up {
                    *tried = GhostRecords::none();
                    tried.grow(records);
                }
                Err(fault)
            }
        }
    }

    /// Returns whether at least `at` records, and no fewer than the last compaction left, were appended since that.
    fn is_due(&self, at: u64) -> bool {
        let since = self.ledger.len().saturating_sub(self.compacted);
        since >= at.max(self.compacted)
    }

    /// Does a slice of the compaction. `total` are the shifts once the drafts have taken the place of the records.
    ///
    /// Errors: those of the ledger; Full.
    fn turn<B: Disposer>(
        &mut self,
        moment: u64,
        total: Shifts<Global>,
        disposer: &B,
    ) -> Result<Tending, LedgerFault>
        requires moment { IsMoment moment }
        requires sure { is_sure self.old.doubt ≡ true }
        requires up { D.is_first self.old.ledger → (rs : List (Record Global)) → D.recovers self.old.ledger rs → D.is_sound self.old.ledger }
        requires total { IfSome (coming self.old.compaction.stage) (λ extra. (w : List ℕ) → less_by total w ≡ less_by extra w + less_by self.old.shifts w) }
        ensures log { self.new.log ≡ self.old.log }
        ensures told { self.new.told ≡ self.old.told }
        ensures sound { D.is_sound self.new.ledger → D.is_sound self.old.ledger }
        ensures first { D.is_first self.new.ledger → D.is_first self.old.ledger }
        ensures crash { D.is_first self.new.ledger → (rs : List (Record Global)) → LeavesLog self.new rs → D.is_sound self.old.ledger × (rs ≡ self.old.log) }
        ensures compacted { IfCompacted result (AreCompacted D.DraftLedger self.new.compaction.empty.settings self.new.compaction.begun self.old.ledger self.new.ledger) }
    {
        what_stands_for_a_log_goes_on();
        let LastingLedger {
            alloc,
            ledger,
            shifts,
            doubt,
            compaction,
            compacted,
            content,
            ..
        } = self;
        let before = ledger.len();
        match compaction.tend(*alloc, ledger, moment, disposer)? {
            Tended::Resting => Ok(Tending::Resting),
            Tended::Going => Ok(Tending::Going),
            Tended::Exchanged { records } => {
                *shifts = total;
                *content = GhostRecords::drafted(records);
                *compacted = ledger.len();
                Ok(Tending::Compacted {
                    before,
                    after: *compacted,
                })
            }
            Tended::Doubtful { records, fault } => {
                *doubt = Doubt::Exchange(Successor {
                    shifts: total,
                    records: GhostRecords::drafted(records),
                });
                Err(fault)
            }
        }
    }
}

impl<D: DraftLedger> Ledger for LastingLedger<D> {
    ghost use Rattle.ups_lasting.specs.LogLeft.{LeavesLog};

    ghost kept = { λ l. l.log };

    ghost told = { λ l. l.told };

    ghost is_sound = { λ l. D.is_sound l.ledger };

    ghost is_honest = { λ l. D.is_honest l.ledger };

    ghost is_first = { λ l. D.is_first l.ledger };

    ghost recovers = { λ l rs. LeavesOfLog D.DraftLedger l.ledger l.content l.log l.tried (less_by l.shifts) (is_exchange l.doubt) rs };

    fn run(&self) -> u64 {
        self.ledger.run()
    }

    fn append(&mut self, records: &[Record<Global>]) -> Result<(), LedgerFault> {
        self.settle()?;
        self.append_settled(records)
    }

    fn tidy(&mut self) {
        if self.doubt.is_nothing() {
            self.ledger.tidy();
        }
    }

    fn tend<B: Disposer>(
        &mut self,
        moment: u64,
        at: u64,
        disposer: &B,
    ) -> Result<Tending, LedgerFault>
        ensures same { D.is_sound self.new.ledger → self.new.log ≡ self.old.log }
        ensures sound { D.is_sound self.new.ledger → D.is_sound self.old.ledger }
        ensures told { self.new.told ≡ self.old.told }
        ensures first { D.is_first self.new.ledger → D.is_first self.old.ledger }
        ensures crash { D.is_first self.new.ledger → (rs : List (Record Global)) → LeavesLog self.new rs → LeavesLog self.old rs ⊎ (D.is_sound self.old.ledger × (rs ≡ self.old.log)) }
        ensures compacted { IfCompacted result (AreCompacted D.DraftLedger self.new.compaction.empty.settings self.new.compaction.begun self.old.ledger self.new.ledger) }
    {
        if !self.doubt.is_nothing() || !self.ledger.is_up() {
            return Ok(Tending::Resting);
        }
        let is_due = self.is_due(at);
        let records = self.ledger.len();
        self.compaction.begin_if(is_due, records);
        match self.compaction.coming_with(self.alloc, &self.shifts) {
            Ok(total) => self.turn(dated(moment), total, disposer),
            Err(fault) => {
                self.compaction.give_up();
                Err(fault)
            }
        }
    }
}
