//! The plans of a watcher's requests, which begin and end subscriptions (PS3.4 CC.2.3).

ghost use Rattle.std.specs.Prelude.{◌≡◌, ◌≢◌, ℕ, List, Some, true, IfOk};
ghost use Rattle.ups_cycle.specs.Statuses.{is_done};
ghost use Rattle.ups_life.specs.declared.request.Request.TheVariants.{Subscribe, Unsubscribe, Suspend};
ghost use Rattle.ups_life.specs.declared.watching.Target.TheVariants.{Single};
ghost use Rattle.ups_life.specs.Steps.{past};
ghost use Rattle.ups_life.specs.History.{status};
ghost use Rattle.ups_tables.specs.Places.{place_of_title};
ghost use Rattle.ups_tables.specs.Planned.{IsPlan};
ghost use Rattle.ups_tables.specs.Stands.{Stands};

use crate::choosing::{chosen, cover_to, granted, single_step};
use crate::freeing::{freed_everywhere, freed_steps};
use crate::peers::place_of;
use crate::plan::Plan;
use crate::tables::Tables;
use crate::telling::{alone, report_held};
use std::alloc::{AllocError, Allocator};
use ups_history::History;
use ups_life::{Configuration, Entry, Place, StepUid, Target};
use ups_pdu::Ae;

/// Returns the plan of a subscription of a peer to one step.
///
/// Errors: if memory runs out.
fn plan_single<A: Allocator + Copy>(
    alloc: A,
    configuration: &Configuration<A>,
    history: &History<A>,
    tables: &Tables<A>,
    entry: &Entry<A>,
    peer: usize,
    step: StepUid,
    receiver: Ae,
    lock: bool,
) -> Result<Plan<A>, AllocError>
    requires stands { Stands configuration.now history.now.entries tables.now }
    requires place { place_of_title configuration.now.peers receiver ≡ Some peer }
    requires request { entry.now.request ≡ Subscribe (Single (Some step)) receiver lock }
    requires accepted { is_done (status configuration.now (past history.now.entries) entry.now) ≡ true }
    ensures { IfOk result (λ p. IsPlan configuration.now (past history.now.entries) entry.now tables.now p) }
{
    let subscription = granted(configuration.peers(), receiver, lock);
    let Some(held) = tables.steps.get(step) else {
        unreachable!();
    };
    let news = alone(alloc, report_held(step, held))?;
    Ok(Plan::Single {
        peer,
        step,
        subscription,
        news,
    })
}

/// Returns the plan of a global subscription of a peer, with keys or without.
///
/// Errors: if memory runs out.
fn plan_global<A: Allocator + Copy>(
    alloc: A,
    configuration: &Configuration<A>,
    history: &History<A>,
    tables: &Tables<A>,
    entry: &Entry<A>,
    peer: usize,
    target: &Target<A>,
    receiver: Ae,
    lock: bool,
) -> Result<Plan<A>, AllocError>
    requires stands { Stands configuration.now history.now.entries tables.now }
    requires place { place_of_title configuration.now.peers receiver ≡ Some peer }
    requires request { entry.now.request ≡ Subscribe target.now receiver lock }
    requires global { (step : List ℕ) → target.now ≢ Single (Some step) }
    requires accepted { is_done (status configuration.now (past history.now.entries) entry.now) ≡ true }
    ensures { IfOk result (λ p. IsPlan configuration.now (past history.now.entries) entry.now tables.now p) }
{
    let subscription = granted(configuration.peers(), receiver, lock);
    let Some(cover) = cover_to(target, subscription)? else {
        unreachable!();
    };
    let how = Some(cover.subscription);
    let (chosen, news) = chosen(alloc, tables, target)?;
    let freed = freed_steps(alloc, tables, peer, how, chosen.as_slice())?;
    Ok(Plan::Global {
        peer,
        cover,
        chosen,
        freed,
        news,
    })
}

/// Returns the plan of an accepted subscription: to one step, to every step, or to those that match keys.
///
/// # Errors
///
/// If memory runs out.
pub fn plan_subscription<A: Allocator + Copy>(
    alloc: A,
    configuration: &Configuration<A>,
    history: &History<A>,
    tables: &Tables<A>,
    entry: &Entry<A>,
    target: &Target<A>,
    receiver: Ae,
    lock: bool,
) -> Result<Plan<A>, AllocError>
    requires stands { Stands configuration.now history.now.entries tables.now }
    requires request { entry.now.request ≡ Subscribe target.now receiver lock }
    requires accepted { is_done (status configuration.now (past history.now.entries) entry.now) ≡ true }
    ensures { IfOk result (λ p. IsPlan configuration.now (past history.now.entries) entry.now tables.now p) }
{
    let Some(peer) = place_of(configuration.peers(), receiver) else {
        unreachable!();
    };
    match single_step(target) {
        Some(step) => plan_single(
            alloc,
            configuration,
            history,
            tables,
            entry,
            peer,
            step,
            receiver,
            lock,
        ),
        None => plan_global(
            alloc,
            configuration,
            history,
            tables,
            entry,
            peer,
            target,
            receiver,
            lock,
        ),
    }
}

/// Returns the plan of an accepted request to end subscriptions: the one to a single step, or all of them.
///
/// # Errors
///
/// If memory runs out.
pub fn plan_end<A: Allocator + Copy>(
    alloc: A,
    configuration: &Configuration<A>,
    history: &History<A>,
    tables: &Tables<A>,
    entry: &Entry<A>,
    place: Place,
    receiver: Ae,
) -> Result<Plan<A>, AllocError>
    requires stands { Stands configuration.now history.now.entries tables.now }
    requires request { entry.now.request ≡ Unsubscribe place receiver }
    requires accepted { is_done (status configuration.now (past history.now.entries) entry.now) ≡ true }
    ensures { IfOk result (λ p. IsPlan configuration.now (past history.now.entries) entry.now tables.now p) }
{
    let Some(peer) = place_of(configuration.peers(), receiver) else {
        unreachable!();
    };
    match place {
        Place::At(Some(step)) => Ok(Plan::End { peer, step }),
        Place::At(None) => unreachable!(),
        Place::Everywhere => {
            let freed = freed_everywhere(alloc, tables, peer)?;
            Ok(Plan::EndAll { peer, freed })
        }
    }
}

/// Returns the plan of an accepted suspension of a global subscription. It takes no memory.
pub fn plan_suspend<A: Allocator + Copy>(
    configuration: &Configuration<A>,
    history: &History<A>,
    tables: &Tables<A>,
    entry: &Entry<A>,
    receiver: Ae,
) -> Plan<A>
    requires request { entry.now.request ≡ Suspend receiver }
    requires accepted { is_done (status configuration.now (past history.now.entries) entry.now) ≡ true }
    ensures { IsPlan configuration.now (past history.now.entries) entry.now tables.now result }
{
    let Some(peer) = place_of(configuration.peers(), receiver) else {
        unreachable!();
    };
    Plan::Suspend { peer }
}
