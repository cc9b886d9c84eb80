//! The laws of the life cycle of a step (PS3.4 CC.1.1), and of the tables that it uses: each is the contract of a
//! function that changes nothing.

ghost use Rattle.std.specs.Prelude.{◌≡◌, ◌≤◌, ℕ, List, [], ◌∷◌, ◌++◌, length, filter, is_some, true, false, Option, None, Some};
ghost use Rattle.std.specs.List.{list_any, AllByRecursion};
ghost use Rattle.std.specs.Str.{bytes_eq};
ghost use Rattle.ups_dataset.specs.declared.dictionary.TheConstants.{TRANSACTION_UID};
ghost use Rattle.ups_dataset.specs.Data.{El, element_at, answer_to, without_value};
ghost use Rattle.ups_life.specs.declared.entry.Entry.{Entry};
ghost use Rattle.ups_life.specs.declared.request.Request.TheVariants.{Change, Set};
ghost use Rattle.ups_life.specs.declared.request.Transaction.{Transaction};
ghost use Rattle.ups_life.specs.declared.request.Transaction.TheVariants.{Proper};
ghost use Rattle.ups_cycle.specs.declared.state.StepState.{StepState};
ghost use Rattle.ups_cycle.specs.declared.state.StepState.TheVariants.{InProgress};
ghost use Rattle.ups_life.specs.declared.watching.Subscription.{Subscription};
ghost use Rattle.ups_life.specs.declared.watching.Watched.{Watched};
ghost use Rattle.ups_life.specs.declared.watching.Subscriber.{Subscriber};
ghost use Rattle.ups_life.specs.CheckedAttributes.{checked_attributes};
ghost use Rattle.ups_life.specs.Limits.{last_moment, row_limit, history_limit, peer_limit, least_offset, greatest_offset};
ghost use Rattle.ups_life.specs.Settings.{Settings};
ghost use Rattle.ups_cycle.specs.States.{is_final};
ghost use Rattle.ups_life.specs.Steps.{Claim, past, used, state, claim, right, row, final_at};
ghost use Rattle.ups_life.specs.Watching.{is_peer, cover, newly, is_kept, has_passed, is_held, watch, watched};
ghost use Rattle.ups_life.specs.Events.{as_it_is, reports_of, events, is_report_of, pending, received, view, present};
ghost use Rattle.ups_life.specs.Telling.{EachRowTells};
ghost use Rattle.ups_life.specs.Claims.{claims};
ghost use Rattle.ups_life.specs.History.{legal};

use crate::checks::CHECKED;
use crate::entry::Entry;
use crate::limits::{MAX_HISTORY, MAX_MOMENT, MAX_OFFSET, MAX_PEERS, MAX_ROW_BYTES, MIN_OFFSET};
use std::alloc::Allocator;

/// The checked attributes are those of PS3.4 table CC.2.5-3, each with its rule.
pub fn checked_attributes_are_those_defined()
    ensures { CHECKED ≡ checked_attributes }
{}

/// The limits are those of the definitions.
pub fn limits_are_those_defined()
    ensures moment { MAX_MOMENT ≡ last_moment }
    ensures row { MAX_ROW_BYTES ≡ row_limit }
    ensures history { MAX_HISTORY ≡ history_limit }
    ensures peers { MAX_PEERS ≡ peer_limit }
    ensures offsets { (MIN_OFFSET ≡ least_offset) × (MAX_OFFSET ≡ greatest_offset) }
{}

/// In a history of accepted requests, a step is claimed at most once.
pub fn a_step_is_claimed_once<A: Allocator + Copy>()
    ensures newest_first { (s : Settings) → (es : List (Entry A)) → (u : List ℕ) → legal s es ≡ true → length (claims es u) ≤ 1 }
    ensures oldest_first { (s : Settings) → (history : List (Entry A)) → (u : List ℕ) → legal s (past history) ≡ true → length (claims (past history) u) ≤ 1 }
{}

/// The claim of a step is still its claim after each accepted request.
pub fn a_claim_stays<A: Allocator + Copy>()
    ensures { (s : Settings) → (e : Entry A) → (es : List (Entry A)) → (u : List ℕ) → (c : Claim) → legal s (e ∷ es) ≡ true
        → claim es u ≡ Some c → claim (e ∷ es) u ≡ Some c }
{}

/// The attributes of a step that is IN PROGRESS are set only with the Transaction UID of its claim (PS3.4 CC.2.6).
pub fn only_the_holder_sets<A: Allocator + Copy>()
    ensures { (s : Settings) → (e : Entry A) → (es : List (Entry A)) → (u : List ℕ) → (t : Transaction) → (attributes : List El) → legal s (e ∷ es) ≡ true
        → e.request ≡ Set (Some u) t attributes → state es u ≡ InProgress → (uid : List ℕ) × (t ≡ Proper uid) × (right es u ≡ Some uid) }
{}

/// A step is changed to COMPLETED or CANCELED only with the Transaction UID of its claim (PS3.4 CC.2.1).
pub fn only_the_holder_finishes<A: Allocator + Copy>()
    ensures { (s : Settings) → (e : Entry A) → (es : List (Entry A)) → (u : List ℕ) → (to : StepState) → (t : Transaction) → legal s (e ∷ es) ≡ true
        → e.request ≡ Change (Some u) to t → is_final to ≡ true → (uid : List ℕ) × (t ≡ Proper uid) × (right es u ≡ Some uid) }
{}

/// No step shows its Transaction UID, whatever is asked of it (PS3.4 CC.2.5): its attributes do not include it, and a
/// query for it is answered without a value.
pub fn a_transaction_uid_is_never_told<A: Allocator + Copy>()
    ensures shown { (s : Settings) → (es : List (Entry A)) → (u : List ℕ) → element_at TRANSACTION_UID (row s es u) ≡ None }
    ensures found { (s : Settings) → (es : List (Entry A)) → (u : List ℕ) → (key : El) → key.tag ≡ TRANSACTION_UID
        → answer_to (row s es u) key ≡ record { tag = key.tag; vr = key.vr; value = without_value key.value } }
{}

/// The row of each held step has its state, its instance UID, its SOP class and one of the three Input Readiness States
/// (PS3.4 table CC.2.5-3). The function goes through the entries, since what was sent with each must be a data set: for
/// arbitrary lists of elements, the law would be false.
pub fn a_row_tells_its_state<A: Allocator + Copy>(history: &[Entry<A>])
    ensures { (s : Settings) → legal s (past history.now) ≡ true → EachRowTells s (past history.now) }
{
    for entry in history {
        entry.request.is_well_formed();
    }
}

/// A step that was removed is never held again, and its UID stays used.
pub fn a_removed_step_stays_away<A: Allocator + Copy>()
    ensures { (s : Settings) → (later es : List (Entry A)) → (u : List ℕ) → legal s (later ++ es) ≡ true → used es u ≡ true → is_held s es u ≡ false
        → (is_held s (later ++ es) u ≡ false) × (used (later ++ es) u ≡ true) }
{}

/// A step that a peer keeps with a Deletion Lock is still held after each entry, even a sweep (PS3.4 CC.2.3).
pub fn a_locked_step_stays<A: Allocator + Copy>()
    ensures { (s : Settings) → (e : Entry A) → (es : List (Entry A)) → (u : List ℕ) → is_held s es u ≡ true → is_kept s es u ≡ true → is_held s (e ∷ es) u ≡ true }
{}

/// A step that is not final, or has not been so for as long as steps are kept, is still held after each entry.
pub fn an_unfinished_step_stays<A: Allocator + Copy>()
    ensures { (s : Settings) → (e : Entry A) → (es : List (Entry A)) → (u : List ℕ) → is_held s es u ≡ true
        → has_passed s.keep e.moment (final_at es u) ≡ false → is_held s (e ∷ es) u ≡ true }
{}

/// In a history of accepted requests, only a step whose state is final is removed: one that is held and not final is
/// still held after each accepted request, even a sweep. A final state never changes (PS3.4 CC.1.1).
pub fn only_a_final_step_is_removed<A: Allocator + Copy>()
    ensures unfinished { (s : Settings) → (e : Entry A) → (es : List (Entry A)) → (u : List ℕ) → legal s (e ∷ es) ≡ true → is_held s es u ≡ true
        → is_final (state es u) ≡ false → is_held s (e ∷ es) u ≡ true }
    ensures finished { (s : Settings) → (e : Entry A) → (es : List (Entry A)) → (u : List ℕ) → legal s (e ∷ es) ≡ true → is_final (state es u) ≡ true → state (e ∷ es) u ≡ state es u }
{}

/// A watcher's view of each step that it watches is up to date: the last State Report of the step shows the present
/// state and the present readiness of the input (PS3.4 CC.2.4).
pub fn a_view_shows_what_is_so<A: Allocator + Copy>()
    ensures one { (s : Settings) → (es : List (Entry A)) → (w u : List ℕ) → is_held s es u ≡ true → is_some (watch s es w u) ≡ true → view (events s es w) u ≡ Some (present s es u) }
    ensures each { (s : Settings) → (es : List (Entry A)) → (w : List ℕ) → AllByRecursion (λ (x : Watched). view (events s es w) x.step ≡ Some (present s es x.step)) (watched s es w) }
{}

/// An N-SET by which its step begins to match the filter of a global subscription also subscribes the watcher of that,
/// unless it already watches the step. That watcher is told of the step as it is, and of nothing else. An N-SET
/// subscribes no other watcher, and to no other step, and whoever watches a step stays subscribed as before, even if a
/// filter no longer matches it. A watcher that has unsubscribed from a step that its global subscription covers is not
/// subscribed again (PS3.4 CC.2.3), unless the step ceases to match first.
pub fn a_filter_follows_changes<A: Allocator + Copy>()
    ensures subscribed { (s : Settings) → (e : Entry A) → (es : List (Entry A)) → (w u : List ℕ) → (t : Transaction) → (attributes : List El) → (how : Subscription)
        → e.request ≡ Set (Some u) t attributes → watch s es w u ≡ None → cover s.peers es w (row s es u) ≡ None → cover s.peers es w (row s (e ∷ es) u) ≡ Some how
        → watch s (e ∷ es) w u ≡ Some how }
    ensures only { (s : Settings) → (e : Entry A) → (es : List (Entry A)) → (w u : List ℕ) → (step : Option (List ℕ)) → (t : Transaction) → (attributes : List El) → (how : Subscription)
        → e.request ≡ Set step t attributes → watch s es w u ≡ None → watch s (e ∷ es) w u ≡ Some how
        → (step ≡ Some u) × (cover s.peers es w (row s es u) ≡ None) × (cover s.peers es w (row s (e ∷ es) u) ≡ Some how) }
    ensures told { (s : Settings) → (e : Entry A) → (es : List (Entry A)) → (w u : List ℕ) → (t : Transaction) → (attributes : List El)
        → e.request ≡ Set (Some u) t attributes → watch s es w u ≡ None → is_some (watch s (e ∷ es) w u) ≡ true
        → reports_of s es e w e.request ≡ as_it_is s (e ∷ es) u ∷ [] }
    ensures stays { (s : Settings) → (e : Entry A) → (es : List (Entry A)) → (w u : List ℕ) → (step : Option (List ℕ)) → (t : Transaction) → (attributes : List El) → (how : Subscription)
        → e.request ≡ Set step t attributes → watch s es w u ≡ Some how → watch s (e ∷ es) w u ≡ Some how }
    ensures not_again { (s : Settings) → (e : Entry A) → (es : List (Entry A)) → (w u : List ℕ) → (t : Transaction) → (attributes : List El)
        → e.request ≡ Set (Some u) t attributes → is_some (cover s.peers es w (row s es u)) ≡ true → watch s (e ∷ es) w u ≡ watch s es w u }
{}

/// The watchers that an N-SET newly subscribes are exactly the peers that did not watch its step before it, and do so
/// after it.
pub fn newly_subscribed_is_who_begins_to_watch<A: Allocator + Copy>()
    ensures each { (s : Settings) → (e : Entry A) → (es : List (Entry A)) → (u : List ℕ) → (t : Transaction) → (attributes : List El) → e.request ≡ Set (Some u) t attributes
        → AllByRecursion (λ (x : Subscriber). (watch s es x.ae u ≡ None) × (watch s (e ∷ es) x.ae u ≡ Some x.subscription)) (newly s es e u) }
    ensures all { (s : Settings) → (e : Entry A) → (es : List (Entry A)) → (w u : List ℕ) → (t : Transaction) → (attributes : List El) → e.request ≡ Set (Some u) t attributes
        → is_peer s.peers w ≡ true → watch s es w u ≡ None → is_some (watch s (e ∷ es) w u) ≡ true
        → list_any (λ (x : Subscriber). bytes_eq x.ae w) (newly s es e u) ≡ true }
{}

/// At most one State Report of each step is pending for a watcher.
pub fn one_state_report_is_pending<A: Allocator + Copy>()
    ensures { (s : Settings) → (es : List (Entry A)) → (w u : List ℕ) → length (filter (is_report_of u) (pending s es w)) ≤ 1 }
{}

/// Nothing is lost with the events that are omitted: what a watcher has received, followed by what is pending for it,
/// shows the same of each step as all its events (PS3.4 CC.2.4).
pub fn what_is_received_and_pending_shows_all<A: Allocator + Copy>()
    ensures { (s : Settings) → (es : List (Entry A)) → (w u : List ℕ) → legal s es ≡ true → view (received s es w ++ pending s es w) u ≡ view (events s es w) u }
{}
