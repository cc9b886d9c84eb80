//! Enters an accepted call into the history, the tables and the index: with room for all of it, or not at all.

ghost use Rattle.std.specs.Prelude.{◌≡◌, ◌<◌, ◌++◌, ◌∷◌, [], true, OnOk, OnErr, IfOk};
ghost use Rattle.ups_history.specs.View.{KeepsMemory};
ghost use Rattle.ups_life.specs.Steps.{past};
ghost use Rattle.ups_life.specs.History.{legal};
ghost use Rattle.ups_tables.specs.Planned.{IsPlan, room_for};
ghost use Rattle.ups_tables.specs.Stands.{Stands as TablesStand};
ghost use Rattle.ups_manager.specs.Deciding.{IsDecided};
ghost use Rattle.ups_manager.specs.Indexing.{IsIndexed, has_room};

use crate::deciding::Decision;
use crate::indexing::make_index_room;
use crate::left_memory::LeftMemory;
use std::alloc::{AllocError, Allocator};
use ups_history::History;
use ups_index::Index;
use ups_life::{Configuration, Entry, Reply};
use ups_tables::{Tables, make_room};

/// Makes room for the whole effect of an accepted call, and checks that a creation leaves the reserve beside that.
///
/// Errors: if memory runs out, or if a creation would not leave the reserve. The history and the contents of the tables
/// and the index stay the same in any case.
fn make_all_room<A: Allocator + Copy>(
    configuration: &Configuration<A>,
    reserve: &mut LeftMemory<A>,
    history: &mut History<A>,
    tables: &mut Tables<A>,
    index: &mut Index<A>,
    call: &Entry<A>,
    decision: &Decision<A>,
) -> Result<(), AllocError>
    requires stands { TablesStand configuration.now history.old.entries tables.old }
    requires indexed { IsIndexed configuration.now (past history.old.entries) index.old }
    requires legal { legal configuration.now (call.now ∷ past history.old.entries) ≡ true }
    requires plan { IsPlan configuration.now (past history.old.entries) call.now tables.old decision.now.plan }
    ensures history { history.new.entries ≡ history.old.entries }
    ensures memory { KeepsMemory history.old history.new }
    ensures stands { TablesStand configuration.now history.new.entries tables.new }
    ensures indexed { IsIndexed configuration.now (past history.new.entries) index.new }
    ensures steps { index.new.steps ≡ index.old.steps }
    ensures plan { IsPlan configuration.now (past history.new.entries) call.now tables.new decision.now.plan }
    ensures room { OnOk result (room_for tables.new decision.now.plan) }
    ensures history_room { OnOk result (0 < history.new.spare) }
    ensures index_room { OnOk result (has_room index.new.spare decision.now.change) }
{
    make_index_room(index, &decision.change)?;
    make_room(configuration, history, tables, call, &decision.plan)?;
    let remembered = history.in_memory().saturating_add(tables.used.len());
    reserve.leave(&call.request, history.len(), remembered)
}

/// Enters an accepted call by the decision about it: makes room for its whole effect, checks that a creation leaves the
/// reserve beside that, and carries it out. Returns the reply to the call.
///
/// Errors: if memory runs out, or if a creation would not leave the reserve. The history and the contents of the tables
/// and the index then stay the same.
pub(crate) fn enter<A: Allocator + Copy>(
    configuration: &Configuration<A>,
    reserve: &mut LeftMemory<A>,
    history: &mut History<A>,
    tables: &mut Tables<A>,
    index: &mut Index<A>,
    call: Entry<A>,
    decision: Decision<A>,
) -> Result<Reply<A>, AllocError>
    requires stands { TablesStand configuration.now history.old.entries tables.old }
    requires indexed { IsIndexed configuration.now (past history.old.entries) index.old }
    requires legal { legal configuration.now (call ∷ past history.old.entries) ≡ true }
    requires decided { IsDecided configuration.now history.old.entries tables.old call decision }
    ensures done { OnOk result (history.new.entries ≡ history.old.entries ++ call ∷ []) }
    ensures refused { OnErr result (history.new.entries ≡ history.old.entries) }
    ensures memory { KeepsMemory history.old history.new }
    ensures reply { IfOk result (λ reply. reply ≡ decision.reply) }
    ensures stands { TablesStand configuration.now history.new.entries tables.new }
    ensures indexed { IsIndexed configuration.now (past history.new.entries) index.new }
{
    make_all_room(
        configuration,
        reserve,
        history,
        tables,
        index,
        &call,
        &decision,
    )?;
    Ok(decision.apply(configuration, history, tables, index, call))
}
