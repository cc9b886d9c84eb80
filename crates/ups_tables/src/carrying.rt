//! Carries out a plan for which room was made. This takes no memory, and can't fail.

ghost use Rattle.std.specs.Prelude.{◌≡◌, ◌<◌, ◌++◌, ◌∷◌, [], true};
ghost use Rattle.ups_history.specs.View.{KeepsMemory};
ghost use Rattle.ups_life.specs.Steps.{past};
ghost use Rattle.ups_life.specs.History.{legal};
ghost use Rattle.ups_tables.specs.Planned.{IsPlan, room_for};
ghost use Rattle.ups_tables.specs.Stands.{Stands};

use crate::acting::{
    acknowledge_upto, change, change_alone, create, end_everywhere, end_single, reserve_uid,
    subscribe_all, subscribe_single, suspend, sweep,
};
use crate::plan::Plan;
use crate::tables::Tables;
use std::alloc::Allocator;
use ups_history::History;
use ups_life::{Configuration, Entry};

/// Carries out the plan of an entry: appends the entry to the history, and updates the tables to what the definitions
/// say of the history with it.
pub fn carry_out<A: Allocator + Copy>(
    configuration: &Configuration<A>,
    history: &mut History<A>,
    tables: &mut Tables<A>,
    entry: Entry<A>,
    plan: Plan<A>,
)
    requires stands { Stands configuration.now history.old.entries tables.old }
    requires legal { legal configuration.now (entry ∷ past history.old.entries) ≡ true }
    requires plan { IsPlan configuration.now (past history.old.entries) entry tables.old plan }
    requires room { room_for tables.old plan }
    requires history_room { 0 < history.old.spare }
    ensures history { history.new.entries ≡ history.old.entries ++ entry ∷ [] }
    ensures memory { KeepsMemory history.old history.new }
    ensures stands { Stands configuration.now history.new.entries tables.new }
{
    let place = history.len() as u64;
    history.push_reserved(entry);
    match plan {
        Plan::Create { step, held, news } => {
            let told = news.as_slice();
            create(tables, place, step, held, told);
        }
        Plan::Change { step, held, news } => {
            let changes = news.as_slice();
            change_alone(tables, place, step, held, changes);
        }
        Plan::Set {
            step,
            held,
            news,
            newly,
            first,
        } => {
            let reports = news.as_slice();
            let cells = newly.as_slice();
            let state = first.as_slice();
            change(tables, place, step, held, reports, cells, state);
        }
        Plan::Single {
            peer,
            step,
            subscription,
            news,
        } => {
            let report = news.as_slice();
            subscribe_single(tables, place, peer, step, subscription, report);
        }
        Plan::Global {
            peer,
            cover,
            chosen,
            freed,
            news,
        } => {
            let steps = chosen.as_slice();
            let finals = freed.as_slice();
            let states = news.as_slice();
            subscribe_all(tables, place, peer, cover, steps, finals, states);
        }
        Plan::End { peer, step } => end_single(tables, peer, step),
        Plan::EndAll { peer, freed } => {
            let unlocked = freed.as_slice();
            end_everywhere(tables, peer, unlocked);
        }
        Plan::Suspend { peer } => suspend(tables, peer),
        Plan::Ack { peer, upto } => acknowledge_upto(tables, peer, upto),
        Plan::Sweep { due, moment } => {
            let swept = due.as_slice();
            sweep(tables, swept, moment);
        }
        Plan::Reserve { step } => reserve_uid(tables, step),
        Plan::Idle => {}
    }
}
