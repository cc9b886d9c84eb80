//! Finding out whether an exchange was made of which nobody knows.

ghost use Rattle.std.specs.Prelude.{◌≡◌, IfOk, if◌then◌else◌};
ghost use Rattle.sqlite_trees.specs.View.{IsClean};
ghost use Rattle.ups_store.specs.Shown.{requests_shown, requests};
ghost use Rattle.ups_start.specs.Front.{AreFront};
ghost use Rattle.ups_start.specs.Started.{said};

use crate::front::Front;
use crate::place::StorePlace;
use crate::reopening::{fault_of_open, go_through};
use sqlite_trees::store::Store;
use ups_ledger::LedgerFault;
use ups_store::RequestStore;

/// A store that was opened to find out whether an exchange was made.
#[derive(Drop)]
pub(crate) struct Settled<S: Store> {
    /// The store.
    pub(crate) store: RequestStore<S>,
    /// The front of its requests.
    pub(crate) front: Front,
    /// Whether the exchange was made.
    pub(crate) is_made: bool,
}

/// Opens the store at a place, whose requests have this front, with nothing behind it.
///
/// Errors: Shut if it can't be opened now; Lost if it is damaged, or has other requests.
fn open_with<P: StorePlace>(place: &P, front: Front) -> Result<RequestStore<P::Store>, LedgerFault>
    ensures { IfOk result (λ store. IsClean (requests_shown store) → AreFront (said (requests store)) front) }
{
    let replay = match place.open() {
        Ok(replay) => replay,
        Err(fault) => return Err(fault_of_open(fault)),
    };
    match go_through(replay, front, &[]) {
        Ok(reopened) => Ok(reopened.store),
        Err(fault) => Err(fault),
    }
}

/// Opens the store at a place after an exchange of which nobody knows whether it was made: its requests have the front
/// `drafted` then, and else the front `before`.
///
/// Errors: Shut if it can't be opened now; Lost if it is damaged, or its requests have neither front.
pub(crate) fn open_exchanged<P: StorePlace>(
    place: &P,
    before: Front,
    drafted: Front,
) -> Result<Settled<P::Store>, LedgerFault>
    ensures front { IfOk result (λ s. s.front ≡ (if s.is_made then drafted else before)) }
    ensures are { IfOk result (λ s. IsClean (requests_shown s.store) → AreFront (said (requests s.store)) s.front) }
{
    match open_with(place, before) {
        Ok(store) => Ok(Settled {
            store,
            front: before,
            is_made: false,
        }),
        Err(LedgerFault::Lost) => match open_with(place, drafted) {
            Ok(store) => Ok(Settled {
                store,
                front: drafted,
                is_made: true,
            }),
            Err(fault) => Err(fault),
        },
        Err(fault) => Err(fault),
    }
}
