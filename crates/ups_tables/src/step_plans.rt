//! The plan of a request that creates or changes a step (PS3.4 CC.2.1, CC.2.2, CC.2.5, CC.2.6).

ghost use Rattle.std.specs.Prelude.{◌≡◌, ℕ, true, is_some, None, Some, length, slice_index_or, IfOk};
ghost use Rattle.std.specs.Option.{option_copied, option_or, unwrap_or};
ghost use Rattle.ups_cycle.specs.declared.status.Status.TheVariants.{Success};
ghost use Rattle.ups_life.specs.Steps.{past, step_of, row_after, nothing};
ghost use Rattle.ups_life.specs.Verdict.{verdict};
ghost use Rattle.ups_life.specs.History.{repeats};
ghost use Rattle.ups_tables.specs.HeldSteps.{claims_it};
ghost use Rattle.ups_watch.specs.Covers.{subscription_gained};
ghost use Rattle.ups_tables.specs.Fit.{how};
ghost use Rattle.ups_tables.specs.Held.{held_at};
ghost use Rattle.ups_tables.specs.Keyed.{row_held, holder_held};
ghost use Rattle.ups_tables.specs.Planned.{IsPlan};
ghost use Rattle.ups_tables.specs.Stands.{Stands};

use crate::plan::Plan;
use crate::tables::Tables;
use crate::telling::{alone, news, report_held};
use std::alloc::{AllocError, Allocator};
use ups_dataset::DataSet;
use ups_history::History;
use ups_life::{Configuration, Entry, Request, Row, StepUid, Subscription};
use ups_steps::HeldRow;

/// Returns the row of a step, or None if the step is not held.
fn row_of<A: Allocator + Copy>(held: Option<&HeldRow<A>>) -> Option<&Row<A>>
    ensures { option_copied result ≡ row_held (option_copied held.entry) }
{
    match held {
        Some(held) => Some(held.row.get()),
        None => None,
    }
}

/// Returns the subscription that each peer gains, indexed by peer, by a change of the attributes of a step, which had
/// the row `before`.
///
/// Errors: if memory runs out.
fn newly_of<A: Allocator + Copy>(
    tables: &Tables<A>,
    step: StepUid,
    before: Option<&Row<A>>,
    after: &DataSet<A>,
) -> Result<Vec<Option<Subscription>, A>, AllocError>
    requires { is_some (option_copied before) ≡ true }
    ensures newly { IfOk result (λ v. (p : ℕ) → slice_index_or v.items p None ≡ subscription_gained (slice_index_or tables.now.watchers.covers p None) (how tables.now p step) (unwrap_or (option_copied before.entry) nothing).attributes after.now) }
    ensures width { IfOk result (λ v. length v.items ≡ length tables.now.watchers.covers) }
{
    match before {
        Some(row) => tables.watchers.newly(step, &row.attributes, after),
        None => unreachable!(),
    }
}

/// Returns the plan of a request that creates or changes a step and that the state of the step allows; `held` is the
/// row and the holder of the step after it.
///
/// # Errors
///
/// If memory runs out.
pub fn plan_step<A: Allocator + Copy>(
    alloc: A,
    configuration: &Configuration<A>,
    history: &History<A>,
    tables: &Tables<A>,
    entry: &Entry<A>,
    step: StepUid,
    held: HeldRow<A>,
) -> Result<Plan<A>, AllocError>
    requires stands { Stands configuration.now history.now.entries tables.now }
    requires step { step_of entry.now.request ≡ Some step }
    requires allowed { verdict (row_held (held_at step tables.now.steps.entries)) (repeats (past history.now.entries) entry.now.request) entry.now.request ≡ Success }
    requires row { held.row ≡ row_after configuration.now.offset entry.now.moment (unwrap_or (row_held (held_at step tables.now.steps.entries)) nothing) entry.now.request }
    requires holder { held.holder ≡ option_or (claims_it entry.now) (holder_held (held_at step tables.now.steps.entries)) }
    ensures { IfOk result (λ p. IsPlan configuration.now (past history.now.entries) entry.now tables.now p) }
{
    if let Request::Create { .. } = &entry.request {
        let created = alone(alloc, report_held(step, &held))?;
        return Ok(Plan::Create {
            step,
            held,
            news: created,
        });
    }
    let found = tables.steps.get(step);
    let before = row_of(found);
    let told = news(alloc, step, before, held.row.get(), &entry.request)?;
    match &entry.request {
        Request::Set { .. } => {
            let newly = newly_of(tables, step, before, &held.row.get().attributes)?;
            let first = alone(alloc, report_held(step, &held))?;
            Ok(Plan::Set {
                step,
                held,
                news: told,
                newly,
                first,
            })
        }
        _ => Ok(Plan::Change {
            step,
            held,
            news: told,
        }),
    }
}
