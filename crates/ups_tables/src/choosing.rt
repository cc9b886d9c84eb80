//! The held steps that a subscription takes in, and what its watcher is told of them (PS3.4 CC.2.3, CC.2.4).

ghost use Rattle.std.specs.Prelude.{◌≡◌, ◌≢◌, ℕ, List, Some, MatchOption, ◌++◌, ◌∷◌, [], map, IfOk, OnOk, if◌then◌else◌};
ghost use Rattle.ups_life.specs.declared.watching.Target.TheVariants.{Single};
ghost use Rattle.ups_life.specs.Watching.{takes_in, granted};
ghost use Rattle.ups_tables.specs.Live.{cover_to, report_now};
ghost use Rattle.ups_tables.specs.Taken.{taken_in, steps_in, report_of_row};
ghost use Rattle.ups_tables.specs.Keyed.{as_steps};

use crate::tables::Tables;
use crate::telling::report_held;
use std::alloc::{AllocError, Allocator};
use ups_dataset::DataSet;
use ups_life::{Peer, Report, StepUid, Subscription, Target, may_lock};
use ups_match::{Matcher, Probe};
use ups_pdu::Ae;
use ups_steps::HeldRow;
use ups_watch::Cover;

/// Returns the subscription granted to a watcher that asks for a deletion lock, or for none (PS3.4 CC.2.3).
pub(crate) fn granted(peers: &[Peer], ae: Ae, lock: bool) -> Subscription
    ensures { result ≡ granted peers.now ae lock }
{
    if lock && may_lock(peers, ae) {
        Subscription::Locked
    } else {
        Subscription::Free
    }
}

/// Returns the global subscription that a subscription to this target makes, or None if the target is one step.
///
/// Errors: if memory runs out.
pub(crate) fn cover_to<A: Allocator + Copy>(
    target: &Target<A>,
    subscription: Subscription,
) -> Result<Option<Cover<A>>, AllocError>
    ensures { IfOk result (λ c. c ≡ cover_to target.now subscription) }
{
    match target {
        Target::Single(_) => Ok(None),
        Target::Global => Ok(Some(Cover {
            keys: None,
            subscription,
        })),
        Target::Filtered(filter) => {
            let keys = filter.keys().copy()?;
            Ok(Some(Cover {
                keys: Some(keys),
                subscription,
            }))
        }
    }
}

/// Returns the step named by a subscription to one step, or None if the target names none.
pub(crate) fn single_step<A: Allocator + Copy>(target: &Target<A>) -> Option<StepUid>
    ensures { MatchOption result ((step : List ℕ) → target.now ≢ Single (Some step)) (λ step. target.now ≡ Single (Some step)) }
{
    match target {
        Target::Single(step) => *step,
        _ => None,
    }
}

/// Returns whether a subscription to this target takes in a step with these attributes.
fn takes_in<A: Allocator + Copy>(target: &Target<A>, step: StepUid, attributes: &DataSet<A>) -> bool
    ensures { result ≡ takes_in target.now step attributes.now }
{
    match target {
        Target::Single(Some(single)) => single.as_bytes() == step.as_bytes(),
        Target::Single(None) => false,
        Target::Global => true,
        Target::Filtered(filter) => Probe::new().matches(filter.keys(), attributes),
    }
}

/// Returns whether a subscription to this target takes in a held step.
fn is_taken<A: Allocator + Copy>(target: &Target<A>, step: StepUid, held: &HeldRow<A>) -> bool
    ensures { result ≡ takes_in target.now step held.now.row.attributes }
{
    takes_in(target, step, &held.row.get().attributes)
}

/// Adds a step, and a State Report of its present state, if it is taken in.
///
/// Errors: if memory runs out.
fn add_chosen<A: Allocator + Copy>(
    steps: &mut Vec<StepUid, A>,
    news: &mut Vec<Report, A>,
    step: StepUid,
    held: &HeldRow<A>,
    taken: bool,
) -> Result<(), AllocError>
    ensures steps { OnOk result (steps.new.items ≡ steps.old.items ++ (if taken then step ∷ [] else [])) }
    ensures news { OnOk result (news.new.items ≡ news.old.items ++ (if taken then report_now step held.now.row ∷ [] else [])) }
{
    if taken {
        steps.push(step)?;
        news.push(report_held(step, held))?;
    }
    Ok(())
}

/// Returns the steps that a subscription to this target takes in, in order of creation, and a State Report of each. Each
/// held step is compared with the target once.
///
/// Errors: if memory runs out.
pub(crate) fn chosen<A: Allocator + Copy>(
    alloc: A,
    tables: &Tables<A>,
    target: &Target<A>,
) -> Result<(Vec<StepUid, A>, Vec<Report, A>), AllocError>
    ensures steps { IfOk result (λ r. r.0.items ≡ steps_in (taken_in target.now (as_steps tables.now.steps.entries))) }
    ensures news { IfOk result (λ r. r.1.items ≡ map report_of_row (taken_in target.now (as_steps tables.now.steps.entries))) }
{
    let mut steps = Vec::new(alloc);
    let mut news = Vec::new(alloc);
    for (step, held) in tables.steps.iter() {
        let taken = is_taken(target, *step, held);
        add_chosen(&mut steps, &mut news, *step, held, taken)?;
    }
    Ok((steps, news))
}
