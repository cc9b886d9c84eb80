//! Laws about the passes that share a history, each stated by the contract of a function without effect.

ghost use Rattle.std.specs.Prelude.{◌≡◌, ℕ, List, All, Some};
ghost use Rattle.ups_cycle.specs.declared.status.Status.TheVariants.{Success};
ghost use Rattle.ups_life.specs.declared.entry.Entry.{Entry};
ghost use Rattle.ups_life.specs.declared.request.Ask.{Ask};
ghost use Rattle.ups_life.specs.declared.request.Ask.TheVariants.{Do};
ghost use Rattle.ups_life.specs.declared.request.Reply.{Reply};
ghost use Rattle.ups_life.specs.declared.request.Reply.TheVariants.{Status as Answered};
ghost use Rattle.ups_life.specs.Settings.{Settings};
ghost use Rattle.ups_life.specs.Steps.{past, holder};
ghost use Rattle.ups_service.specs.Claiming.{claiming};
ghost use Rattle.ups_service.specs.Law.{is_legal, BeginsHistory};
ghost use Rattle.ups_turn.specs.Own.{own, AddsOwn, HasOwn};
ghost use Rattle.ups_turn.specs.Pass.{PassView, IsCall, HasObserved, Learns, EndsFor};

use std::alloc::Allocator;

/// Does nothing at run time: its contract tells a proof that the requests with a pass's number in what it has seen are
/// those that its calls entered, each once and in their order. Each call adds just what it enters; what the pass
/// observes, or learns from another, adds none. Those in the history of a closed desk, after the entries that it opened
/// with, are exactly these.
pub fn a_history_has_what_each_pass_entered<A: Allocator + Copy>()
    ensures called { (old new : PassView A) → (ae : List ℕ) → (moment : ℕ) → (ask : Ask A) → (reply : Reply A) → IsCall old ae moment ask reply new → AddsOwn old ae moment ask reply new }
    ensures observed { (old new : PassView A) → HasObserved old new → own old.number new.seen ≡ own old.number old.seen }
    ensures learned { (old from new : PassView A) → Learns old from new → own old.number new.seen ≡ own old.number old.seen }
    ensures closed { (opening history : List (Entry A)) → (passes : List (PassView A)) → EndsFor history passes → All (HasOwn opening history) passes }
{}

/// Does nothing at run time: its contract tells a proof that two calls of passes that change one step to IN PROGRESS
/// and were both answered with success are the same call, if one legal history continues what each of the passes has
/// seen, as it does when they have met, and when their desk is closed. Their pass is the holder of the step there
/// (PS3.4 CC.1.1).
pub fn a_step_is_held_by_one_pass<A: Allocator + Copy>()
    ensures { (s : Settings) → (u : List ℕ) → (history : List (Entry A)) → (old1 new1 old2 new2 : PassView A) → (ae1 ae2 uid1 uid2 : List ℕ) → (m1 m2 : ℕ)
        → is_legal s history → old1.settings ≡ s → old2.settings ≡ s
        → IsCall old1 ae1 m1 (Do (claiming u uid1)) (Answered Success) new1 → IsCall old2 ae2 m2 (Do (claiming u uid2)) (Answered Success) new2
        → BeginsHistory new1.seen history → BeginsHistory new2.seen history
        → (new1.seen ≡ new2.seen) × (old1.number ≡ old2.number) × (ae1 ≡ ae2) × (m1 ≡ m2) × (holder (past history) u ≡ Some (record { caller = old1.number; ae = ae1 })) }
{}
