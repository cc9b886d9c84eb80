//! Submits entries again.

ghost use Rattle.std.specs.Prelude.{◌≡◌, ◌↔◌, [], ◌∷◌, ◌++◌, All, IsTrue, OnOk, OnErr, IfErr};
ghost use Rattle.ups_life.specs.declared.request.Reply.TheVariants.{Status as Answered};
ghost use Rattle.ups_cycle.specs.declared.status.Status.TheVariants.{ResourceLimitation};
ghost use Rattle.ups_life.specs.Settings.{IsMoment};
ghost use Rattle.ups_life.specs.History.{accepts};
ghost use Rattle.ups_service.specs.Law.{is_legal};
ghost use Rattle.ups_restore.specs.declared.fault.Refusal.TheVariants.{NoRoom};
ghost use Rattle.ups_restore.specs.Replaying.{IsRefusal, StopsReplayAt};

use crate::fault::{Refusal, ReplayFault};
use std::alloc::Allocator;
use ups_cycle::Status;
use ups_life::{Entry, MAX_MOMENT, Reply};
use ups_manager::Manager;

/// Returns whether a reply accepts a request.
fn is_accepted<A: Allocator + Copy>(reply: &Reply<A>) -> bool
    ensures { result ≡ accepts reply.now }
{
    match reply {
        Reply::Status(status) => status.is_done(),
        Reply::Swept(count) => *count > 0,
        _ => false,
    }
}

/// Returns whether a reply says that there is no room.
fn is_no_room<A: Allocator + Copy>(reply: &Reply<A>) -> bool
    ensures { IsTrue result ↔ (reply.now ≡ Answered ResourceLimitation) }
{
    match reply {
        Reply::Status(Status::ResourceLimitation) => true,
        _ => false,
    }
}

/// Enters an entry again, after those in the manager.
///
/// # Errors
///
/// `BadMoment`, `Refused` or `NoRoom`; the manager then stays the same. `NoRoom` may mean that memory ran out for an
/// entry that would be accepted, and never takes the place of `Refused`.
pub fn replay_one<A: Allocator + Copy>(
    manager: &mut Manager<A>,
    entry: Entry<A>,
) -> Result<(), Refusal>
    ensures entered { OnOk result (manager.new.history ≡ manager.old.history ++ entry ∷ []) }
    ensures stays { OnErr result (manager.new.history ≡ manager.old.history) }
    ensures why { IfErr result (λ r. IsRefusal manager.old.settings manager.old.history entry r) }
    ensures settings { manager.new.settings ≡ manager.old.settings }
    ensures legal { is_legal manager.new.settings manager.new.history }
{
    if entry.moment > MAX_MOMENT {
        let _history = manager.history();
        return Err(Refusal::BadMoment);
    }
    let reply = manager.submit(entry);
    if is_accepted(&reply) {
        return Ok(());
    }
    if is_no_room(&reply) {
        return Err(Refusal::NoRoom);
    }
    Err(Refusal::Refused)
}

/// Enters entries again, one after the other: the manager then has them in its history, after those that it had.
///
/// # Errors
///
/// `BadMoment`, `Refused` or `NoRoom` at the first entry that is not entered; those before it are. If the entries
/// legally continue the manager's history, with its settings, and the moment of each has a date, it is `NoRoom`, and
/// only if memory runs out.
pub fn replay<A: Allocator + Copy>(
    manager: &mut Manager<A>,
    entries: Vec<Entry<A>, A>,
) -> Result<(), ReplayFault>
    ensures entered { OnOk result (manager.new.history ≡ manager.old.history ++ entries.items) }
    ensures stops { IfErr result (λ f. StopsReplayAt manager.old.settings manager.old.history entries.items f manager.new.history) }
    ensures legally { is_legal manager.old.settings (manager.old.history ++ entries.items) → All (λ e. IsMoment e.moment) entries.items → IfErr result (λ f. f.refusal ≡ NoRoom) }
    ensures settings { manager.new.settings ≡ manager.old.settings }
    ensures legal { is_legal manager.new.settings manager.new.history }
{
    let before = manager.entries();
    for entry in entries {
        if let Err(refusal) = replay_one(manager, entry) {
            let place = manager.entries() - before;
            return Err(ReplayFault { place, refusal });
        }
    }
    Ok(())
}
