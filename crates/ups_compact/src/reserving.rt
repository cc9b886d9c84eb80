//! What remains of an entry that a compact history does not keep.

ghost use Rattle.std.specs.Prelude.{◌≡◌, None, [], ◌∷◌, IfSome};
ghost use Rattle.ups_compact.specs.Compacting.{reservation};

use std::alloc::Allocator;
use ups_life::{Entry, Request};

/// Returns what remains of an entry that is not kept: of a creation, a reservation of the UID of its step, so that the
/// UID stays used (PS3.4 CC.2.5); of any other entry, nothing.
pub fn reservation<A: Allocator + Copy>(entry: &Entry<A>) -> Option<Entry<A>>
    ensures found { IfSome result (λ reserved. reservation entry.now entry.now.request ≡ reserved ∷ []) }
    ensures none { result ≡ None → reservation entry.now entry.now.request ≡ [] }
{
    match &entry.request {
        Request::Create { step, .. } => Some(Entry {
            caller: entry.caller,
            ae: entry.ae,
            moment: entry.moment,
            request: Request::Reserve { step: *step },
        }),
        _ => None,
    }
}
