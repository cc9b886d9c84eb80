//! Laws that tables kept beside a history may rely on, each stated by the contract of a function without effect.

ghost use Rattle.std.specs.Prelude.{◌≡◌, ℕ, List, ◌&&◌, not, true, false, None};
ghost use Rattle.ups_dataset.specs.Data.{El};
ghost use Rattle.ups_life.specs.declared.entry.Entry.{Entry};
ghost use Rattle.ups_life.specs.declared.peer.Peer.{Peer};
ghost use Rattle.ups_life.specs.Settings.{Settings};
ghost use Rattle.ups_life.specs.Watching.{is_peer, cover, has_passed, is_among, removed};
ghost use Rattle.ups_life.specs.History.{legal};
ghost use Rattle.ups_watch.specs.Covers.{covered};
ghost use Rattle.ups_tables.specs.Live.{global, live, final, locked};

use std::alloc::Allocator;

/// Does nothing at run time: its contract tells a proof that the present global subscription of a watcher subscribes it
/// to the same steps as all its requests so far (PS3.4 CC.2.3).
pub fn a_global_subscription_is_what_is_left_of_requests<A: Allocator + Copy>()
    ensures { (peers : List Peer) → (es : List (Entry A)) → (w : List ℕ) → (attributes : List El) → cover peers es w attributes ≡ covered (global peers es w) attributes }
{}

/// Does nothing at run time: its contract tells a proof that a sweep removes the held steps that became final long
/// enough ago and that no peer locks now (a rule of the profile, with the deletion locks of PS3.4 CC.2.3).
pub fn a_sweep_removes_what_is_final_and_not_locked<A: Allocator + Copy>()
    ensures { (s : Settings) → (es : List (Entry A)) → (moment : ℕ) → (u : List ℕ)
        → is_among u (removed s es moment) ≡ (has_passed s.keep moment (final s es u) && not (locked s es u)) }
{}

/// Does nothing at run time: its contract tells a proof that an application entity that is no peer has no global
/// subscription and is subscribed to no step (PS3.4 CC.2.3).
pub fn who_is_no_peer_is_not_subscribed<A: Allocator + Copy>()
    ensures everywhere { (s : Settings) → (es : List (Entry A)) → (w : List ℕ) → is_peer s.peers w ≡ false → legal s es ≡ true → global s.peers es w ≡ None }
    ensures steps { (s : Settings) → (es : List (Entry A)) → (w u : List ℕ) → is_peer s.peers w ≡ false → legal s es ≡ true → live s es w u ≡ None }
{}
