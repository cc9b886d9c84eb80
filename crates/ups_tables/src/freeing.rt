//! The steps that are freed when many deletion locks of a peer end at once: from then on they await removal (PS3.4
//! CC.2.3).

ghost use Rattle.std.specs.Prelude.{◌≡◌, ◌<◌, ◌++◌, ℕ, List, Option, None, Some, true, length, IfOk, OnOk};
ghost use Rattle.ups_life.specs.declared.watching.Subscription.{Subscription};
ghost use Rattle.ups_life.specs.Distinct.{Distinct};
ghost use Rattle.ups_life.specs.Watching.{is_among};
ghost use Rattle.ups_keep.specs.Waits.{final_since};
ghost use Rattle.ups_tables.specs.Fit.{holds, freed_if, TablesFit, AreFreed};

use crate::tables::Tables;
use std::alloc::{AllocError, Allocator};
use ups_keep::Final;
use ups_life::{StepUid, Subscription};

/// Returns the moment since which a held step that a peer keeps now would await removal if the peer had this
/// subscription to it, or None if no deletion lock on it would end, another would stay, or the step is not final.
fn freed_since<A: Allocator + Copy>(
    tables: &Tables<A>,
    peer: usize,
    subscription: Option<Subscription>,
    step: StepUid,
) -> Option<u64>
    requires fits { TablesFit tables.now }
    requires peer { peer < length tables.now.watchers.covers }
    requires here { holds tables.now step ≡ true }
    ensures { result ≡ freed_if tables.now peer subscription step }
{
    if !tables.watchers.is_kept(step) {
        return None;
    }
    if tables.watchers.is_kept_with(step, peer, subscription) {
        return None;
    }
    tables.steps.final_at(step)
}

/// Adds a step if it would await removal.
///
/// Errors: if memory runs out.
fn add_since<A: Allocator + Copy>(
    found: &mut Vec<Final, A>,
    step: StepUid,
    since: Option<u64>,
) -> Result<(), AllocError>
    ensures { OnOk result (found.new.items ≡ found.old.items ++ final_since step since) }
{
    if let Some(moment) = since {
        found.push(Final { moment, step })?;
    }
    Ok(())
}

/// Returns those of the listed steps that are freed if the peer gets this subscription to them, each with the moment
/// since which it awaits removal then. The listed steps are held, and none is listed twice.
///
/// Errors: if memory runs out.
pub(crate) fn freed_steps<A: Allocator + Copy>(
    alloc: A,
    tables: &Tables<A>,
    peer: usize,
    subscription: Option<Subscription>,
    steps: &[StepUid],
) -> Result<Vec<Final, A>, AllocError>
    requires fits { TablesFit tables.now }
    requires peer { peer < length tables.now.watchers.covers }
    requires here { (u : List ℕ) → is_among u steps.now ≡ true → holds tables.now u ≡ true }
    requires once { Distinct steps.now }
    ensures { IfOk result (λ v. AreFreed tables.now peer subscription (λ u. is_among u steps.now) v.items) }
{
    let mut found = Vec::new(alloc);
    for step in steps {
        let since = freed_since(tables, peer, subscription, *step);
        add_since(&mut found, *step, since)?;
    }
    Ok(found)
}

/// Returns the steps that are freed if all subscriptions of a peer end, each with the moment since which it awaits
/// removal then.
///
/// Errors: if memory runs out.
pub(crate) fn freed_everywhere<A: Allocator + Copy>(
    alloc: A,
    tables: &Tables<A>,
    peer: usize,
) -> Result<Vec<Final, A>, AllocError>
    requires fits { TablesFit tables.now }
    requires peer { peer < length tables.now.watchers.covers }
    ensures { IfOk result (λ v. AreFreed tables.now peer None (λ u. true) v.items) }
{
    let steps = tables.steps.uids(alloc)?;
    freed_steps(alloc, tables, peer, None, &steps)
}
