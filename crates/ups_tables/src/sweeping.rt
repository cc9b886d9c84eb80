//! The plan of a sweep, which removes the steps that have been final for the retention time and that no peer has a
//! deletion lock on. The sweep request and the retention time are defined by the profile, not by DICOM.

ghost use Rattle.std.specs.Prelude.{◌≡◌, true, IfOk, OnErr};
ghost use Rattle.ups_life.specs.declared.request.Reply.TheVariants.{Swept};
ghost use Rattle.ups_life.specs.declared.request.Request.TheVariants.{Sweep};
ghost use Rattle.ups_life.specs.Steps.{past};
ghost use Rattle.ups_life.specs.History.{accepts, decided};
ghost use Rattle.ups_tables.specs.Planned.{IsPlan, swept_by};
ghost use Rattle.ups_tables.specs.Stands.{Stands};

use crate::plan::Plan;
use crate::tables::Tables;
use std::alloc::{AllocError, Allocator};
use ups_history::History;
use ups_life::{Configuration, Entry};

/// Returns the plan of a sweep. The reply to the sweep is the number of steps that the plan removes.
///
/// # Errors
///
/// If memory runs out while there is a step to remove. If there is none, the plan takes no memory.
pub fn plan_sweep<A: Allocator + Copy>(
    alloc: A,
    configuration: &Configuration<A>,
    history: &History<A>,
    tables: &Tables<A>,
    entry: &Entry<A>,
) -> Result<Plan<A>, AllocError>
    requires stands { Stands configuration.now history.now.entries tables.now }
    requires request { entry.now.request ≡ Sweep }
    ensures plan { IfOk result (λ p. IsPlan configuration.now (past history.now.entries) entry.now tables.now p) }
    ensures count { IfOk result (λ p. decided configuration.now (past history.now.entries) entry.now Sweep ≡ Swept (swept_by p)) }
    ensures lacks { OnErr result (accepts (decided configuration.now (past history.now.entries) entry.now Sweep) ≡ true) }
{
    let keep = u64::from(configuration.keep());
    if entry.moment < keep {
        return Ok(Plan::Idle);
    }
    let moment = entry.moment - keep;
    if !tables.due.is_any(moment) {
        return Ok(Plan::Idle);
    }
    let due = tables.due.up_to(alloc, moment)?;
    Ok(Plan::Sweep { due, moment })
}
