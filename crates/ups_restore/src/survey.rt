//! What a compaction needs to know of a manager that has entered all records.

ghost use Rattle.std.specs.Prelude.{◌≡◌, ◌++◌, ◌∷◌, [], length, map, IfOk, OnOk};
ghost use Rattle.ups_life.specs.declared.peer.Peer.{Peer};
ghost use Rattle.ups_life.specs.Events.{events, acked};
ghost use Rattle.ups_life.specs.Steps.{past};
ghost use Rattle.ups_service.specs.Law.{is_legal};
ghost use Rattle.ups_restore.specs.Surveying.{count_in, counts_in};

use http_server::Log;
use std::alloc::{AllocError, Global};
use std::marker::Model;
use ups_manager::Manager;
use ups_pdu::Ae;

/// How many events were made for a watcher, and the number of the last one that it has acknowledged (PS3.4 CC.2.4).
#[derive(Clone, Copy)]
pub struct EventCount {
    /// The title of the watcher.
    pub ae: Ae,
    /// The number of events, those that are acknowledged or superseded too.
    pub made: u64,
    /// The number of the last event that is acknowledged, or 0 if none is.
    pub acknowledged: u64,
}

/// What a compaction needs to know of a manager that has entered all records, beside the steps needed: how many entries
/// there are, and how many events of each watcher. It is small, so that the manager can be dropped. A contract sees it as
/// the manager.
#[derive(Drop)]
pub struct Survey {
    entries: usize,
    counts: Vec<EventCount, Global>,
    /// The manager, for contracts alone.
    manager: Log<Manager<Global>, ()>,
}

impl Model for Survey {
    ghost use Rattle.std.specs.Global.{Global};
    ghost use Rattle.ups_manager.specs.View.{ManagerView};
    ghost use Rattle.ups_restore.specs.Surveying.{surveyed_in, IsSurveyOf};

    ghost Value = { ManagerView Global };

    ghost use Rattle.std.specs.Coded.{codes};
    ghost use Rattle.ups_dataset.specs.Code.{set_code};

    ghost coded = { Prim.hlevel (set_code, codes) };

    ghost view = { λ n. surveyed_in n.manager.items };

    ghost invariant = { λ n. IsSurveyOf n.entries n.counts.items (surveyed_in n.manager.items) };
}

impl Survey {
    /// Returns what a compaction needs to know of a manager.
    ///
    /// # Errors
    ///
    /// If memory runs out.
    pub fn of(alloc: Global, manager: &Manager<Global>) -> Result<Survey, AllocError>
        ensures { IfOk result (λ survey. survey ≡ manager.now) }
    {
        let entries = manager.entries();
        let counts = counts_of(alloc, manager)?;
        let none = Log::new();
        Ok(Survey {
            entries,
            counts,
            manager: none.and(manager, &()),
        })
    }

    /// Returns the number of entries.
    pub fn entries(&self) -> usize
        ensures count { result ≡ length self.now.history }
        ensures legal { is_legal self.now.settings self.now.history }
    {
        self.entries
    }

    /// Returns how many events of each watcher there are, in the order of the peers.
    pub(crate) fn counts(&self) -> &[EventCount]
        ensures { result.now ≡ counts_in self.now.settings (past self.now.history) self.now.settings.peers }
    {
        self.counts.as_slice()
    }
}

/// Returns how many events of a watcher there are.
fn count_of(manager: &Manager<Global>, ae: Ae) -> EventCount
    ensures { result ≡ count_in manager.now.settings (past manager.now.history) ae }
{
    EventCount {
        ae,
        made: manager.events_made(ae),
        acknowledged: manager.events_acknowledged(ae),
    }
}

/// Returns how many events of each watcher there are, in the order of the peers.
///
/// Errors: if memory runs out.
fn counts_of(
    alloc: Global,
    manager: &Manager<Global>,
) -> Result<Vec<EventCount, Global>, AllocError>
    ensures { IfOk result (λ v. v.items ≡ counts_in manager.now.settings (past manager.now.history) manager.now.settings.peers) }
{
    let peers = manager.peers();
    let mut counts = Vec::new(alloc);
    for peer in peers {
        let count = count_of(manager, peer.ae);
        counts.push(count)?;
    }
    Ok(counts)
}
