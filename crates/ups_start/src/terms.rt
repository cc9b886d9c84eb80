//! The terms of the service that the last run on a store noted.

ghost use Rattle.std.specs.Prelude.{◌≡◌, [], Some, false, IfOk, OnOk};
ghost use Rattle.sqlite_trees.specs.View.{View, IsClean};
ghost use Rattle.ups_store.specs.declared.reading.Replay.{Replay};
ghost use Rattle.ups_store.specs.Runs.{last_requests};
ghost use Rattle.ups_store.specs.Shown.{shown_by, all_of, given_out, last_terms_of};
ghost use Rattle.ups_start.specs.Noted.{IsTextOf, PermitsNoted, AreNoted};
ghost use Rattle.ups_start.specs.Opened.{terms_shown};

use crate::beginning::opened;
use crate::fault::StartFault;
use crate::place::StorePlace;
use log::{Log, info, warn};
use sqlite_trees::store::Store;
use std::alloc::Global;
use ups_manager::Manager;
use ups_pdu::Bytes;
use ups_store::Replay;
use ups_terms::{Terms, TermsFault, difference, parse_terms};

/// Logs that there are no terms to compare with.
fn tell_none<R: Log>(telling: &R) {
    info!(telling; target: "upsd", "store: no run has noted the terms of the service yet");
}

/// Logs that a start goes on with other terms.
fn tell_allowed<R: Log>(telling: &R, fault: &StartFault) {
    warn!(telling; target: "upsd", "store: {fault}");
}

/// Reads the terms that a run noted.
///
/// Errors: UnreadableTerms; Memory.
pub(crate) fn terms_of(alloc: Global, text: &[u8]) -> Result<Terms<Global>, StartFault>
    ensures { IfOk result (IsTextOf text.now) }
{
    match parse_terms(alloc, text) {
        Ok(terms) => Ok(terms),
        Err(TermsFault::Unreadable) => Err(StartFault::UnreadableTerms),
        Err(TermsFault::Memory) => Err(StartFault::Memory),
    }
}

/// Checks that the settings of a manager permit as much as the terms that a run noted.
///
/// Errors: Terms; UnreadableTerms; Memory.
fn check_text(alloc: Global, text: &[u8], manager: &Manager<Global>) -> Result<(), StartFault>
    ensures { OnOk result (PermitsNoted manager.now.settings (Some text.now)) }
{
    let old = match terms_of(alloc, text) {
        Ok(old) => old,
        Err(fault) => return Err(fault),
    };
    match difference(&old, manager.keep(), manager.offset(), manager.peers()) {
        Some(lack) => Err(StartFault::Terms(lack)),
        None => Ok(()),
    }
}

/// Checks that the settings of a manager permit as much as the terms in a text, which a run noted, or logs that they do
/// not if that is allowed.
///
/// # Errors
///
/// Terms, UnreadableTerms, Memory.
pub fn look_at_terms<R: Log>(
    alloc: Global,
    telling: &R,
    text: &[u8],
    manager: &Manager<Global>,
    may_change: bool,
) -> Result<(), StartFault>
    ensures { OnOk result (may_change ≡ false → PermitsNoted manager.now.settings (Some text.now)) }
{
    match check_text(alloc, text, manager) {
        Ok(()) => Ok(()),
        Err(fault) if may_change && fault != StartFault::Memory => {
            tell_allowed(telling, &fault);
            Ok(())
        }
        Err(fault) => Err(fault),
    }
}

/// Reads the terms that the last run on a store noted. The store was just opened.
///
/// Errors: Read.
pub(crate) fn noted_in<S: Store>(
    replay: &mut Replay<S>,
) -> Result<Option<Bytes<Global>>, StartFault>
    ensures noted { IfOk result (λ noted. IsClean (shown_by replay.new) → noted ≡ last_terms_of replay.old) }
    ensures same { OnOk result (IsClean (shown_by replay.new) → all_of replay.new ≡ all_of replay.old) }
    ensures first { OnOk result (given_out replay.new ≡ []) }
    ensures clean { IsClean (shown_by replay.new) → IsClean (shown_by replay.old) }
{
    match replay.last_terms() {
        Ok(noted) => Ok(noted),
        Err(fault) => Err(StartFault::Read(fault)),
    }
}

/// Checks that the settings of a manager permit as much as the terms of the last run on a store that was just opened, or
/// logs that they do not if that is allowed.
///
/// Errors: Read; Terms; UnreadableTerms; Memory.
pub(crate) fn check_terms<S: Store, R: Log>(
    alloc: Global,
    telling: &R,
    replay: &mut Replay<S>,
    manager: &Manager<Global>,
    may_change: bool,
) -> Result<(), StartFault>
    ensures permits { OnOk result (may_change ≡ false → IsClean (shown_by replay.new) → PermitsNoted manager.now.settings (last_terms_of replay.old)) }
    ensures same { OnOk result (IsClean (shown_by replay.new) → all_of replay.new ≡ all_of replay.old) }
    ensures first { OnOk result (given_out replay.new ≡ []) }
    ensures clean { IsClean (shown_by replay.new) → IsClean (shown_by replay.old) }
{
    let noted = match noted_in(replay) {
        Ok(noted) => noted,
        Err(fault) => return Err(fault),
    };
    let Some(text) = noted else {
        tell_none(telling);
        return Ok(());
    };
    match look_at_terms(alloc, telling, text.as_slice(), manager, may_change) {
        Ok(()) => Ok(()),
        Err(fault) => Err(fault),
    }
}

/// Reads how many requests the row of the last run counts. The store was just opened.
///
/// Errors: Read.
pub(crate) fn counted_in<S: Store>(replay: &mut Replay<S>) -> Result<u64, StartFault>
    ensures counted { IfOk result (λ counted. IsClean (shown_by replay.new) → counted ≡ last_requests ((shown_by replay.old).committed 1)) }
    ensures same { OnOk result (IsClean (shown_by replay.new) → all_of replay.new ≡ all_of replay.old) }
    ensures first { OnOk result (given_out replay.new ≡ []) }
    ensures clean { IsClean (shown_by replay.new) → IsClean (shown_by replay.old) }
{
    match replay.last_requests() {
        Ok(counted) => Ok(counted),
        Err(fault) => Err(StartFault::Read(fault)),
    }
}

/// Opens the store at a place, and returns the terms of the service that the last run on it noted, or None if it noted
/// none.
///
/// # Errors
///
/// Open, Read, UnreadableTerms, Memory.
pub fn last_terms<P: StorePlace>(
    alloc: Global,
    place: &P,
) -> Result<Option<Terms<Global>>, StartFault>
    ensures { IfOk result (λ terms. (found : View) × P.finds place.now found × (read : Replay P.Store P.Store.Store) × (IsClean (shown_by read) → AreNoted terms (terms_shown found))) }
{
    let mut replay = opened(place)?;
    let noted = noted_in(&mut replay)?;
    match noted {
        Some(text) => {
            let terms = terms_of(alloc, text.as_slice())?;
            Ok(Some(terms))
        }
        None => Ok(None),
    }
}

/// Looks at the store at a place as a start does first: opens it, and checks that the settings of a manager permit as much
/// as the terms of the last run on it, or logs that they do not if that is allowed. Begins no run.
///
/// # Errors
///
/// Open, Read, Terms, UnreadableTerms, Memory.
pub fn look<P: StorePlace, R: Log>(
    alloc: Global,
    telling: &R,
    place: &P,
    manager: &Manager<Global>,
    may_change: bool,
) -> Result<(), StartFault>
    ensures { OnOk result (may_change ≡ false → (found : View) × P.finds place.now found × (read : Replay P.Store P.Store.Store) × (IsClean (shown_by read) → PermitsNoted manager.now.settings (terms_shown found))) }
{
    let mut replay = opened(place)?;
    check_terms(alloc, telling, &mut replay, manager, may_change)?;
    Ok(())
}
