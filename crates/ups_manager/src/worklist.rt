//! The rows that a query or an N-GET is answered from: those of its class, or of its step, and no others.

ghost use Rattle.std.specs.Prelude.{◌≡◌, ◌++◌, map, IfOk, OnOk, OnErr, is_some, true};
ghost use Rattle.std.specs.List.{filter_map};
ghost use Rattle.std.specs.Option.{option_copied, option_to_list};
ghost use Rattle.ups_tables.specs.Held.{held_at};
ghost use Rattle.ups_tables.specs.HeldSteps.{attributes_in};
ghost use Rattle.ups_tables.specs.Keyed.{as_steps, row_held};
ghost use Rattle.ups_life.specs.Distinct.{Distinct};
ghost use Rattle.ups_match.specs.Class.{class};
ghost use Rattle.ups_manager.specs.Finding.{attributes_of, attributes_at};
ghost use Rattle.ups_manager.specs.Indexing.{indexed, uids_in};

use crate::rows::find;
use std::alloc::{AllocError, Allocator};
use ups_index::Index;
use ups_life::StepUid;
use ups_match::Keys;
use ups_rows::SharedRows;
use ups_tables::{HeldRow, Tables};

/// Adds the row of a step if the step is held.
///
/// Errors: if memory runs out.
fn add_held<A: Allocator + Copy>(
    rows: &mut SharedRows<A>,
    held: Option<&HeldRow<A>>,
) -> Result<(), AllocError>
    ensures rows { OnOk result (rows.new ≡ rows.old ++ option_to_list (attributes_of (row_held (option_copied held.entry)))) }
    ensures lacks { OnErr result (is_some (option_copied held.entry) ≡ true) }
{
    match held {
        Some(held) => rows.add(&held.row),
        None => Ok(()),
    }
}

/// Returns the rows of those candidates that are held, in their order.
///
/// Errors: if memory runs out.
fn rows_among<A: Allocator + Copy>(
    alloc: A,
    tables: &Tables<A>,
    candidates: &[StepUid],
) -> Result<SharedRows<A>, AllocError>
    ensures { IfOk result (λ rows. rows ≡ filter_map (attributes_at (as_steps tables.now.steps.entries)) candidates.now) }
{
    let mut rows = SharedRows::new(alloc);
    for candidate in candidates {
        let held = find(tables, *candidate);
        add_held(&mut rows, held)?;
    }
    Ok(rows)
}

/// Returns the rows of the steps of a query's class, in order of creation: the held steps that have its first indexed
/// key, or all of them if it has none. Nothing is copied, and the tables stay the same; the parts in which the rows of all
/// steps are shared stay with them for the next query.
///
/// Errors: if memory runs out.
pub(crate) fn rows_of_class<A: Allocator + Copy>(
    alloc: A,
    tables: &mut Tables<A>,
    index: &Index<A>,
    keys: &Keys<A>,
) -> Result<SharedRows<A>, AllocError>
    requires indexed { index.now.steps ≡ map (indexed index.now.offset) (as_steps tables.old.steps.entries) }
    requires once { Distinct (uids_in (as_steps tables.old.steps.entries)) }
    ensures rows { IfOk result (λ rows. rows ≡ class index.now.offset keys.now (attributes_in (as_steps tables.old.steps.entries))) }
    ensures same { tables.new ≡ tables.old }
{
    match index.candidates(keys)? {
        Some(candidates) => rows_among(alloc, tables, candidates.as_slice()),
        None => tables.steps.rows(alloc),
    }
}

/// Prepares some of the rows of all steps, so that `rows_of_class` finds them shared. The tables stay the same. Returns
/// whether a further call may find more of them; false if memory runs out.
pub(crate) fn prepare_rows<A: Allocator + Copy>(alloc: A, tables: &mut Tables<A>) -> bool
    ensures { tables.new ≡ tables.old }
{
    tables.steps.prepare(alloc).unwrap_or(false)
}

/// Returns the row of a step, or none if no step is given or it is not held.
///
/// Errors: if memory runs out. The step is held then.
pub(crate) fn row_of_step<A: Allocator + Copy>(
    alloc: A,
    tables: &Tables<A>,
    step: Option<StepUid>,
) -> Result<SharedRows<A>, AllocError>
    ensures row { IfOk result (λ rows. rows ≡ option_to_list (attributes_of (Rattle.ups_tables.specs.HeldSteps.row_of_step step (as_steps tables.now.steps.entries)))) }
    ensures lacks { OnErr result (is_some (Rattle.ups_tables.specs.HeldSteps.row_of_step step (as_steps tables.now.steps.entries)) ≡ true) }
{
    let mut rows = SharedRows::new(alloc);
    let Some(step) = step else {
        return Ok(rows);
    };
    let held = find(tables, step);
    add_held(&mut rows, held)?;
    Ok(rows)
}
