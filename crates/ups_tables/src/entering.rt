//! The tables of an empty history, and room for the effect of a request on the history and the tables.

ghost use Rattle.std.specs.Prelude.{◌≡◌, ◌<◌, ◌∷◌, [], true, IfOk, IsOk, OnOk};
ghost use Rattle.ups_history.specs.View.{KeepsMemory};
ghost use Rattle.ups_life.specs.Steps.{past};
ghost use Rattle.ups_life.specs.History.{legal};
ghost use Rattle.ups_tables.specs.Seen.{Once};
ghost use Rattle.ups_tables.specs.Effects.{Reserved};
ghost use Rattle.ups_tables.specs.Planned.{IsPlan, room_for};
ghost use Rattle.ups_tables.specs.Stands.{Stands};

use crate::plan::Plan;
use crate::room::{
    make_room_to_change, make_room_to_cover, make_room_to_create, make_room_to_free,
    make_room_to_subscribe,
};
use crate::tables::Tables;
use std::alloc::{AllocError, Allocator};
use ups_history::History;
use ups_life::{Configuration, Entry};

/// Returns the tables of an empty history.
///
/// # Errors
///
/// If memory runs out.
pub fn begin<A: Allocator + Copy>(
    alloc: A,
    configuration: &Configuration<A>,
) -> Result<Tables<A>, AllocError>
    requires { Once configuration.now.peers }
    ensures { IfOk result (λ t. Stands configuration.now [] t) }
{
    let peers = configuration.peers();
    let count = peers.len();
    let tables = Tables::new(alloc, count)?;
    Ok(tables)
}

/// Makes room for the effect of a plan on the tables.
///
/// Errors: if memory runs out, but never if there is that room already. The contents of the tables stay the same.
pub(crate) fn room_for_plan<A: Allocator + Copy>(
    configuration: &Configuration<A>,
    history: &History<A>,
    tables: &mut Tables<A>,
    entry: &Entry<A>,
    plan: &Plan<A>,
) -> Result<(), AllocError>
    requires stands { Stands configuration.now history.now.entries tables.old }
    requires legal { legal configuration.now (entry.now ∷ past history.now.entries) ≡ true }
    requires plan { IsPlan configuration.now (past history.now.entries) entry.now tables.old plan.now }
    ensures room { OnOk result (room_for tables.new plan.now) }
    ensures succeeds { room_for tables.old plan.now → IsOk result }
    ensures same { Reserved tables.old tables.new }
{
    match plan {
        Plan::Create { news, .. } => make_room_to_create(tables, news.len()),
        Plan::Change { step, news, .. } => make_room_to_change(tables, *step, news.len(), &[], 0),
        Plan::Set {
            step,
            news,
            newly,
            first,
            ..
        } => make_room_to_change(tables, *step, news.len(), newly.as_slice(), first.len()),
        Plan::Single { peer, news, .. } => make_room_to_subscribe(tables, *peer, news.len(), 0),
        Plan::Global {
            peer,
            freed,
            news,
            ..
        } => make_room_to_cover(tables, *peer, news.len(), freed.len()),
        Plan::End { .. } => make_room_to_free(tables, 0),
        Plan::EndAll { freed, .. } => tables.due.reserve(freed.len()),
        Plan::Suspend { .. } => Ok(()),
        Plan::Ack { .. } => Ok(()),
        Plan::Sweep { .. } => Ok(()),
        Plan::Reserve { .. } => tables.used.reserve(1),
        Plan::Idle => Ok(()),
    }
}

/// Makes room for the effect of an accepted request on the history and the tables, by its plan, so that it can be
/// carried out.
///
/// # Errors
///
/// If memory runs out, but never if there is that room already. The history and the contents of the tables then stay
/// the same.
pub fn make_room<A: Allocator + Copy>(
    configuration: &Configuration<A>,
    history: &mut History<A>,
    tables: &mut Tables<A>,
    entry: &Entry<A>,
    plan: &Plan<A>,
) -> Result<(), AllocError>
    requires stands { Stands configuration.now history.old.entries tables.old }
    requires legal { legal configuration.now (entry.now ∷ past history.old.entries) ≡ true }
    requires plan { IsPlan configuration.now (past history.old.entries) entry.now tables.old plan.now }
    ensures history { history.new.entries ≡ history.old.entries }
    ensures memory { KeepsMemory history.old history.new }
    ensures same { Reserved tables.old tables.new }
    ensures stands { Stands configuration.now history.new.entries tables.new }
    ensures plan { IsPlan configuration.now (past history.new.entries) entry.now tables.new plan.now }
    ensures room { OnOk result (room_for tables.new plan.now) }
    ensures history_room { OnOk result (0 < history.new.spare) }
    ensures succeeds { room_for tables.old plan.now → 0 < history.old.spare → IsOk result }
{
    room_for_plan(configuration, history, tables, entry, plan)?;
    history.reserve()
}
