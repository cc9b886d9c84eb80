//! The laws that a caller of a service may rely on, and that services sharing a history build on: each is the contract
//! of a function that does nothing.

ghost use Rattle.std.specs.Prelude.{◌≡◌, ◌≤◌, ◌<◌, ◌+◌, ◌++◌, ℕ, List, [], length, map, Some, All, Contains, true};
ghost use Rattle.std.specs.List.{AllByRecursion, AllPairs};
ghost use Rattle.ups_life.specs.declared.entry.Entry.{Entry};
ghost use Rattle.ups_life.specs.declared.event.Event.{Event};
ghost use Rattle.ups_life.specs.declared.event_reports.EventReport.{EventReport};
ghost use Rattle.ups_life.specs.declared.request.Ask.{Ask};
ghost use Rattle.ups_life.specs.declared.request.Reply.{Reply};
ghost use Rattle.ups_life.specs.declared.request.Reply.TheVariants.{Status as Answered};
ghost use Rattle.ups_life.specs.Settings.{Settings};
ghost use Rattle.ups_life.specs.Steps.{past, holder};
ghost use Rattle.ups_life.specs.Events.{acked, events, pending, up_to, view};
ghost use Rattle.ups_service.specs.Claiming.{HasClaimed};
ghost use Rattle.ups_service.specs.Law.{Others, Seen, bounded, unbounded, all_made, is_legal, BeginsHistory, entered, lacking, reply_to, Calls, AllGranted};
ghost use Rattle.ups_service.specs.Looking.{is_look, rows_for, reply_from};
ghost use Rattle.ups_service.specs.Reporting.{reports_to, MayHaveGot};

use std::alloc::Allocator;

/// A legal history has no more entries than its limit.
pub fn a_legal_history_is_within_its_limit<A: Allocator + Copy>()
    ensures { (s : Settings) → (history : List (Entry A)) → is_legal s history → length history ≤ s.limit }
{}

/// Each beginning of a legal history is legal.
pub fn a_beginning_of_a_legal_history_is_legal<A: Allocator + Copy>()
    ensures { (s : Settings) → (first rest : List (Entry A)) → is_legal s (first ++ rest) → is_legal s first }
{}

/// The entries that a call makes have the number of its caller.
pub fn an_entry_has_the_number_of_its_caller<A: Allocator + Copy>()
    ensures { (caller : ℕ) → (ae : List ℕ) → (moment : ℕ) → (ask : Ask A) → (reply : Reply A)
        → AllByRecursion (λ e. e.caller ≡ caller) (entered caller ae moment ask reply) }
{}

/// A call for which memory ran out enters nothing.
pub fn want_of_memory_enters_nothing<A: Allocator + Copy>()
    ensures { (caller : ℕ) → (ae : List ℕ) → (moment : ℕ) → (ask : Ask A) → entered caller ae moment ask (Answered (lacking ask)) ≡ [] }
{}

/// The reply to an N-GET or a query rests on some rows of the history alone: the reply by these rows is that by the
/// history, whoever asks and when.
pub fn a_look_rests_on_its_rows<A: Allocator + Copy>()
    ensures { (s : Settings) → (history : List (Entry A)) → (caller : ℕ) → (ae : List ℕ) → (moment : ℕ) → (ask : Ask A) → is_look ask ≡ true
        → reply_from (rows_for s history ask) ask ≡ reply_to s history caller ae moment ask }
{}

/// An N-GET and a query enter nothing.
pub fn a_look_enters_nothing<A: Allocator + Copy>()
    ensures { (caller : ℕ) → (ae : List ℕ) → (moment : ℕ) → (ask : Ask A) → (reply : Reply A) → is_look ask ≡ true → entered caller ae moment ask reply ≡ [] }
{}

/// Each ask takes one call, and while calls are left, each reply follows from the history.
pub fn each_ask_takes_a_call<A: Allocator + Copy>()
    ensures { (s : Settings) → (others : Others) → (caller : ℕ) → (seen after : Seen A) → (ae : List ℕ) → (asks : List (Ask A)) → (moments : List ℕ) → (replies : List (Reply A)) → (made most : ℕ)
        → seen.calls ≡ bounded made most → made + length asks ≤ most → Calls s others caller seen ae asks moments replies after
        → (after.calls ≡ all_made (length asks) seen.calls) × AllGranted s others caller seen ae asks moments replies after }
{}

/// Each ask of a caller that alone has the history is answered by the history.
pub fn who_is_alone_is_never_refused<A: Allocator + Copy>()
    ensures { (s : Settings) → (others : Others) → (caller : ℕ) → (seen after : Seen A) → (ae : List ℕ) → (asks : List (Ask A)) → (moments : List ℕ) → (replies : List (Reply A))
        → seen.calls ≡ unbounded → Calls s others caller seen ae asks moments replies after
        → (after.calls ≡ unbounded) × AllGranted s others caller seen ae asks moments replies after }
{}

/// Two calls that change a step to IN PROGRESS and were both answered with success are the same call if one legal
/// history continues what each of their callers has seen. Their caller is the holder of the step in it (PS3.4 CC.1.1).
pub fn a_step_has_one_holder<A: Allocator + Copy>()
    ensures { (s : Settings) → (u : List ℕ) → (history : List (Entry A)) → (o1 o2 : Others) → (c1 c2 : ℕ) → (ae1 ae2 : List ℕ) → (m1 m2 : ℕ) → (after1 after2 : Seen A)
        → is_legal s history → HasClaimed s o1 c1 ae1 m1 u after1 → HasClaimed s o2 c2 ae2 m2 u after2 → BeginsHistory after1.history history → BeginsHistory after2.history history
        → (after1.history ≡ after2.history) × (c1 ≡ c2) × (ae1 ≡ ae2) × (m1 ≡ m2) × (holder (past history) u ≡ Some (record { caller = c1; ae = ae1 })) }
{}

/// Each report of a delivery is of one of the watcher's events, which it has not acknowledged. The reports come in the
/// order of the events (PS3.4 CC.2.4).
pub fn a_delivery_reports_events_in_order<A: Allocator + Copy>()
    ensures its_own { (s : Settings) → (history : List (Entry A)) → (max : ℕ) → (w : List ℕ)
        → All (λ (r : EventReport A). Contains (events s (past history) w) r.event) (reports_to s history max w) }
    ensures not_acknowledged { (s : Settings) → (history : List (Entry A)) → (max : ℕ) → (w : List ℕ)
        → All (λ (r : EventReport A). acked (past history) w < r.event.number) (reports_to s history max w) }
    ensures in_order { (s : Settings) → (history : List (Entry A)) → (max : ℕ) → (w : List ℕ)
        → AllPairs (λ (q r : EventReport A). q.event.number < r.event.number) (reports_to s history max w) }
{}

/// An acknowledgement of a report receives only what its delivery reported, whatever was entered since the delivery
/// asked: each event that is still pending, up to the number of the report, is one of those reported.
pub fn an_acknowledgement_receives_what_was_reported<A: Allocator + Copy>()
    ensures { (s : Settings) → (history later : List (Entry A)) → (max : ℕ) → (w : List ℕ) → (r : EventReport A) → is_legal s (history ++ later) → Contains (reports_to s history max w) r
        → All (Contains (map (λ (q : EventReport A). q.event) (reports_to s history max w))) (up_to r.event.number (pending s (past (history ++ later)) w)) }
{}

/// Nothing is lost with the State Reports that are omitted, whichever others were sent: what a watcher may have got,
/// followed by what is pending for it, shows the same of each step as all its events (PS3.4 CC.2.4). So a State Report
/// that is superseded while it is on the way may arrive and be acknowledged all the same.
pub fn what_was_got_and_is_pending_shows_all<A: Allocator + Copy>()
    ensures { (s : Settings) → (history : List (Entry A)) → (w u : List ℕ) → (got : List Event) → is_legal s history → MayHaveGot s history w got
        → view (got ++ pending s (past history) w) u ≡ view (events s (past history) w) u }
{}
