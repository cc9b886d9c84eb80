//! Laws about the watchers and the steps of a manager's history, each stated by the contract of a function without
//! effect.

ghost use Rattle.std.specs.Prelude.{◌≡◌, ℕ, true, false, List, [], is_some};
ghost use Rattle.ups_life.specs.declared.entry.Entry.{Entry};
ghost use Rattle.ups_life.specs.Settings.{Settings};
ghost use Rattle.ups_life.specs.Steps.{past};
ghost use Rattle.ups_life.specs.Watching.{is_peer, is_held, watched};
ghost use Rattle.ups_life.specs.Events.{readiness, events};
ghost use Rattle.ups_service.specs.Law.{is_legal};

use std::alloc::Allocator;
use ups_life::Entry;
use ups_life::laws::a_row_tells_its_state;

/// Does nothing at run time: its contract tells a proof that an application entity that is no peer watches no step, and
/// that no event was made for it (PS3.4 CC.2.3).
pub fn who_is_no_peer_watches_nothing<A: Allocator + Copy>()
    ensures watched { (s : Settings) → (history : List (Entry A)) → (w : List ℕ) → is_legal s history → is_peer s.peers w ≡ false → watched s (past history) w ≡ [] }
    ensures events { (s : Settings) → (history : List (Entry A)) → (w : List ℕ) → is_legal s history → is_peer s.peers w ≡ false → events s (past history) w ≡ [] }
{}

/// Has no effect: its contract tells a proof that each held step has a known readiness, one of the three Input
/// Readiness States (PS3.3 C.30.2), which events compare. It walks the entries, since the law holds only if what was
/// sent with each is a data set.
pub fn the_readiness_of_a_step_is_known<A: Allocator + Copy>(history: &[Entry<A>])
    ensures { (s : Settings) → is_legal s history.now → (u : List ℕ) → is_held s (past history.now) u ≡ true → is_some (readiness s (past history.now) u) ≡ true }
{
    a_row_tells_its_state(history);
}
