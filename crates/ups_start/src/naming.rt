//! Names for the ledgers of stores.

use ups_lasting::DraftLedger;

/// Gives a ledger a type of its own, such as one without parameters. What uses the ledger of a server is proved for that
/// type, at a cost that grows with its depth.
pub trait LedgerNaming<S: DraftLedger, D: DraftLedger> {
    ghost use Rattle.std.specs.Prelude.{◌≡◌, List};
    ghost use Rattle.std.specs.Global.{Global};
    ghost use Rattle.ups_journal.specs.declared.record.Record.{Record};

    /// Returns the ledger under its name.
    fn named(&self, ledger: S) -> D
        ensures kept { D.kept result ≡ S.kept ledger }
        ensures sound { D.is_sound result → S.is_sound ledger }
        ensures still_sound { S.is_sound ledger → D.is_sound result }
        ensures honest { D.is_honest result → S.is_honest ledger }
        ensures still_honest { S.is_honest ledger → D.is_honest result }
        ensures crash { (rs : List (Record Global)) → D.recovers result rs → S.recovers ledger rs };
}
