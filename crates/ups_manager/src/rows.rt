//! The held steps, looked up in the tables.

ghost use Rattle.std.specs.Prelude.{◌≡◌, IfOk};
ghost use Rattle.std.specs.Map.{keys_of};
ghost use Rattle.std.specs.Option.{option_copied};
ghost use Rattle.ups_tables.specs.HeldSteps.{row_of_step};
ghost use Rattle.ups_tables.specs.Fit.{uses};
ghost use Rattle.ups_tables.specs.Held.{held_at};
ghost use Rattle.ups_tables.specs.Keyed.{as_steps, row_held};

use std::alloc::{AllocError, Allocator};
use ups_life::{Row, StepUid};
use ups_tables::{HeldRow, Tables};

/// Returns the row and the holder of a step, or None if the step is not held.
pub(crate) fn find<A: Allocator + Copy>(tables: &Tables<A>, step: StepUid) -> Option<&HeldRow<A>>
    ensures { option_copied result ≡ held_at step tables.now.steps.entries }
{
    tables.steps.get(step)
}

/// Returns the row of a step without its holder.
pub(crate) fn row_of<A: Allocator + Copy>(held: Option<&HeldRow<A>>) -> Option<&Row<A>>
    ensures { option_copied result ≡ row_held (option_copied held.entry) }
{
    match held {
        Some(held) => Some(held.row.get()),
        None => None,
    }
}

/// Returns the row of a step, or None if no step is given or the step is not held.
pub(crate) fn known<A: Allocator + Copy>(
    tables: &Tables<A>,
    step: Option<StepUid>,
) -> Option<&Row<A>>
    ensures { option_copied result ≡ row_of_step step (as_steps tables.now.steps.entries) }
{
    match step {
        Some(step) => row_of(find(tables, step)),
        None => None,
    }
}

/// Returns the UIDs of the held steps, in order of creation.
///
/// Errors: if memory runs out.
pub(crate) fn uids_of<A: Allocator + Copy>(
    alloc: A,
    tables: &Tables<A>,
) -> Result<Vec<StepUid, A>, AllocError>
    ensures { IfOk result (λ v. v.items ≡ keys_of tables.now.steps.entries) }
{
    tables.steps.uids(alloc)
}

/// Returns whether a UID was used: a step with it was created, whether it is still held or not.
pub(crate) fn is_used<A: Allocator + Copy>(tables: &Tables<A>, step: StepUid) -> bool
    ensures { result ≡ uses tables.now step }
{
    tables.used.contains(&step)
}
