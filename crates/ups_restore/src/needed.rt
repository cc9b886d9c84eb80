//! The steps of which a compaction loses nothing.

ghost use Rattle.std.specs.Prelude.{◌≡◌, ◌++◌, IfOk, IfErr, OnOk};
ghost use Rattle.ups_life.specs.Events.{pending};
ghost use Rattle.ups_life.specs.Steps.{past};
ghost use Rattle.ups_compact.specs.Compacting.{steps_of_events, steps_needed};
ghost use Rattle.ups_restore.specs.declared.fault.CompactFault.TheVariants.{Memory};

use crate::fault::CompactFault;
use std::alloc::{AllocError, Global};
use ups_compact::KeptSteps;
use ups_life::{Event, StepUid};
use ups_manager::Manager;
use ups_pdu::Ae;

/// Adds the steps of events.
///
/// Errors: if memory runs out.
fn add_steps(steps: &mut Vec<StepUid, Global>, events: &[Event]) -> Result<(), AllocError>
    ensures { OnOk result (steps.new.items ≡ steps.old.items ++ steps_of_events events.now) }
{
    steps.reserve(events.len())?;
    for event in events {
        steps.push(event.step)?;
    }
    Ok(())
}

/// Adds the steps of all events that are pending for a peer.
///
/// Errors: if memory runs out.
fn add_pending(
    steps: &mut Vec<StepUid, Global>,
    manager: &Manager<Global>,
    ae: Ae,
) -> Result<(), CompactFault>
    ensures added { OnOk result (steps.new.items ≡ steps.old.items ++ steps_of_events (pending manager.now.settings (past manager.now.history) ae)) }
    ensures only { IfErr result (λ fault. fault ≡ Memory) }
{
    let events = manager.events_waiting(ae)?;
    add_steps(steps, events.as_slice())?;
    Ok(())
}

/// Returns the steps of which a compaction loses nothing: those held, and those of which an event is pending for a peer,
/// removed or not (PS3.4 CC.2.4).
///
/// # Errors
///
/// `Memory`.
pub fn list_needed(manager: &Manager<Global>) -> Result<Vec<StepUid, Global>, CompactFault>
    ensures needed { IfOk result (λ v. v.items ≡ steps_needed manager.now.settings (past manager.now.history)) }
    ensures only { IfErr result (λ fault. fault ≡ Memory) }
{
    let peers = manager.peers();
    let mut steps = manager.held()?;
    for peer in peers {
        add_pending(&mut steps, manager, peer.ae)?;
    }
    Ok(steps)
}

/// Returns the same steps as [`list_needed`], with their UIDs in order.
///
/// # Errors
///
/// `Memory`.
pub fn steps_needed(
    alloc: Global,
    manager: &Manager<Global>,
) -> Result<KeptSteps<Global>, CompactFault>
    ensures needed { IfOk result (λ steps. steps ≡ steps_needed manager.now.settings (past manager.now.history)) }
    ensures only { IfErr result (λ fault. fault ≡ Memory) }
{
    let steps = list_needed(manager)?;
    let kept = KeptSteps::of(alloc, steps)?;
    Ok(kept)
}
