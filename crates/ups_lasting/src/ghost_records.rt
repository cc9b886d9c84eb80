//! Records that only contracts see.

ghost use Rattle.std.specs.Prelude.{◌≡◌, ◌++◌, [], map};
ghost use Rattle.ups_journal.specs.Columns.{recorded};
ghost use Rattle.ups_lasting.specs.Standing.{firsts};

use http_server::Log;
use std::alloc::Global;
use std::marker::Model;
use ups_journal::Record;
use ups_manager::Manager;

/// Records that only contracts see, as a list: those of a manager's history, or none, with others behind them. They take
/// no memory, and the methods do nothing at run time.
#[derive(Drop)]
pub struct GhostRecords {
    begun: Log<Manager<Global>, ()>,
    more: Log<Record<Global>, ()>,
}

impl Model for GhostRecords {
    ghost use Rattle.std.specs.Prelude.{◌++◌, List};
    ghost use Rattle.std.specs.Global.{Global};
    ghost use Rattle.ups_journal.specs.declared.record.Record.{Record};
    ghost use Rattle.ups_lasting.specs.Standing.{begun_records, firsts};

    ghost Value = { List (Record Global) };

    ghost view = { λ r. begun_records r.begun.items ++ firsts r.more.items };
}

impl GhostRecords {
    /// Returns no records.
    pub(crate) fn none() -> GhostRecords
        ensures { result ≡ [] }
    {
        GhostRecords {
            begun: Log::new(),
            more: Log::new(),
        }
    }

    /// Returns the records of the history of a manager.
    pub(crate) fn of(manager: &Manager<Global>) -> GhostRecords
        ensures { result ≡ map recorded manager.now.history }
    {
        let none = Log::new();
        GhostRecords {
            begun: none.and(manager, &()),
            more: Log::new(),
        }
    }

    /// Returns the records that were drafted.
    pub(crate) fn drafted(drafts: Log<Record<Global>, ()>) -> GhostRecords
        ensures { result ≡ firsts drafts.items }
    {
        GhostRecords {
            begun: Log::new(),
            more: drafts,
        }
    }

    /// Adds records behind these.
    pub(crate) fn grow(&mut self, records: &[Record<Global>])
        ensures { self.new ≡ self.old ++ records.now }
    {
        grow(&mut self.more, records);
    }
}

/// Adds records to those of a log.
pub(crate) fn grow(log: &mut Log<Record<Global>, ()>, records: &[Record<Global>])
    ensures { firsts log.new.items ≡ firsts log.old.items ++ records.now }
{
    for stored in records {
        let more = log.and(stored, &());
        *log = more;
    }
}
