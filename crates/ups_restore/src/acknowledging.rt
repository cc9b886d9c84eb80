//! The acknowledgements of watchers that follow a compact history.

ghost use Rattle.std.specs.Prelude.{◌≡◌, ◌-◌, ◌++◌, length, IfOk, IfErr, OnOk};
ghost use Rattle.ups_life.specs.Events.{events};
ghost use Rattle.ups_life.specs.Settings.{IsMoment};
ghost use Rattle.ups_life.specs.Steps.{past};
ghost use Rattle.ups_service.specs.Law.{is_legal};
ghost use Rattle.ups_compact.specs.Compacting.{above_zero, compacted_for, left_for, steps_needed};
ghost use Rattle.ups_restore.specs.declared.fault.CompactFault.TheVariants.{Memory};
ghost use Rattle.ups_restore.specs.Compacting.{known_behind, ack_of, acks, IsNoRefusal};

use crate::fault::{CompactFault, RestoreRefusal};
use crate::replaying::replay;
use crate::survey::{EventCount, Survey};
use std::alloc::{AllocError, Global};
use ups_life::{Entry, Request};
use ups_manager::Manager;
use ups_pdu::Ae;

/// The caller of the acknowledgements that follow a compact history. No pass to a service has this number.
pub const COMPACTOR: u32 = 0;

/// Returns the number up to which a watcher knows the events of a fresh manager, or None if it knows none of them: all but
/// as many as it has not acknowledged of those counted. It takes no memory.
fn known_by(count: &EventCount, fresh: &Manager<Global>) -> Option<u64>
    ensures { result ≡ above_zero (length (events fresh.now.settings (past fresh.now.history) count.now.ae) - (count.now.made - count.now.acknowledged)) }
{
    let unacknowledged = count.made.saturating_sub(count.acknowledged);
    let number = fresh.events_made(count.ae).saturating_sub(unacknowledged);
    if number > 0 { Some(number) } else { None }
}

/// Adds the acknowledgement of a peer up to a number, if there is one.
///
/// Errors: if memory runs out.
fn add_known(
    entries: &mut Vec<Entry<Global>, Global>,
    moment: u64,
    ae: Ae,
    number: Option<u64>,
) -> Result<(), AllocError>
    ensures { OnOk result (entries.new.items ≡ entries.old.items ++ ack_of COMPACTOR moment ae number) }
{
    if let Some(upto) = number {
        entries.push(Entry {
            caller: COMPACTOR,
            ae,
            moment,
            request: Request::Ack { upto },
        })?;
    }
    Ok(())
}

/// Returns the acknowledgements of the peers that know some of the events of a fresh manager.
///
/// Errors: if memory runs out.
fn acknowledgements(
    alloc: Global,
    survey: &Survey,
    fresh: &Manager<Global>,
    moment: u64,
) -> Result<Vec<Entry<Global>, Global>, CompactFault>
    requires settings { fresh.now.settings ≡ survey.now.settings }
    ensures entries { IfOk result (λ v. v.items ≡ acks COMPACTOR moment (known_behind survey.now.settings survey.now.history fresh.now.history) survey.now.settings.peers) }
    ensures only { IfErr result (λ fault. fault ≡ Memory) }
{
    let counts = survey.counts();
    let mut entries = Vec::new(alloc);
    for count in counts {
        let number = known_by(count, fresh);
        add_known(&mut entries, moment, count.ae, number)?;
    }
    Ok(entries)
}

/// Enters into a fresh manager the acknowledgements of the peers that know some of its events, made at `moment` by
/// [`COMPACTOR`]: each watcher has then as many events before it as in the manager surveyed. If the fresh manager has the
/// entries of that one that are kept for the steps needed, it then has its compacted history.
///
/// # Errors
///
/// `Memory`; `Entering` at the first that is not entered. If they legally continue its history, only if memory runs out.
pub fn acknowledge_surveyed(
    alloc: Global,
    survey: &Survey,
    fresh: &mut Manager<Global>,
    moment: u64,
) -> Result<(), CompactFault>
    requires moment { IsMoment moment }
    requires settings { fresh.old.settings ≡ survey.now.settings }
    ensures entered { OnOk result (fresh.new.history ≡ fresh.old.history ++ acks COMPACTOR moment (known_behind survey.now.settings survey.now.history fresh.old.history) survey.now.settings.peers) }
    ensures compacted { OnOk result (past fresh.old.history ≡ left_for survey.now.settings (steps_needed survey.now.settings (past survey.now.history)) (past survey.now.history) → past fresh.new.history ≡ compacted_for COMPACTOR moment survey.now.settings (steps_needed survey.now.settings (past survey.now.history)) (past survey.now.history)) }
    ensures only { is_legal fresh.old.settings (fresh.old.history ++ acks COMPACTOR moment (known_behind survey.now.settings survey.now.history fresh.old.history) survey.now.settings.peers) → IfErr result IsNoRefusal }
    ensures settings { fresh.new.settings ≡ fresh.old.settings }
    ensures legal { is_legal fresh.new.settings fresh.new.history }
{
    let _count = survey.entries();
    let _history = fresh.history();
    let entries = acknowledgements(alloc, survey, fresh, moment)?;
    match replay(fresh, entries) {
        Ok(()) => Ok(()),
        Err(fault) => Err(CompactFault::Entering(RestoreRefusal::Entry(fault.refusal))),
    }
}

/// Enters the acknowledgements of the peers as [`acknowledge_surveyed`] does, by another manager.
///
/// # Errors
///
/// Those of [`acknowledge_surveyed`].
pub fn acknowledge(
    alloc: Global,
    manager: &Manager<Global>,
    fresh: &mut Manager<Global>,
    moment: u64,
) -> Result<(), CompactFault>
    requires moment { IsMoment moment }
    requires settings { fresh.old.settings ≡ manager.now.settings }
    ensures entered { OnOk result (fresh.new.history ≡ fresh.old.history ++ acks COMPACTOR moment (known_behind manager.now.settings manager.now.history fresh.old.history) manager.now.settings.peers) }
    ensures compacted { OnOk result (past fresh.old.history ≡ left_for manager.now.settings (steps_needed manager.now.settings (past manager.now.history)) (past manager.now.history) → past fresh.new.history ≡ compacted_for COMPACTOR moment manager.now.settings (steps_needed manager.now.settings (past manager.now.history)) (past manager.now.history)) }
    ensures only { is_legal fresh.old.settings (fresh.old.history ++ acks COMPACTOR moment (known_behind manager.now.settings manager.now.history fresh.old.history) manager.now.settings.peers) → IfErr result IsNoRefusal }
    ensures settings { fresh.new.settings ≡ fresh.old.settings }
    ensures legal { is_legal fresh.new.settings fresh.new.history }
{
    let _history = fresh.history();
    let survey = Survey::of(alloc, manager)?;
    acknowledge_surveyed(alloc, &survey, fresh, moment)
}
