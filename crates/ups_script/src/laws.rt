//! The law of lines that tell accepted requests.

ghost use Rattle.std.specs.Prelude.{◌≡◌, List, ℕ};
ghost use Rattle.ups_life.specs.declared.entry.Entry.{Entry};
ghost use Rattle.ups_life.specs.declared.request.Ask.TheVariants.{Do};
ghost use Rattle.ups_life.specs.declared.request.Reply.{Reply};
ghost use Rattle.ups_life.specs.Settings.{Settings};
ghost use Rattle.ups_service.specs.Law.{nobody, alone, Serves};
ghost use Rattle.ups_requests.specs.Told.{TellsEntry};
ghost use Rattle.ups_script.specs.declared.telling.Told.{Told};
ghost use Rattle.ups_script.specs.declared.telling.Told.TheVariants.{Replied};
ghost use Rattle.ups_script.specs.Running.{AnswersLine};

use std::alloc::Allocator;

/// Does nothing at run time: its contract tells a proof that a script which answers a line that tells an accepted
/// request has a manager answer this request, at its moment and for its application entity.
pub fn a_told_request_is_asked_again<A: Allocator + Copy>()
    ensures { (s : Settings) → (history after : List (Entry A)) → (line : List ℕ) → (told : Told A) → (e : Entry A) → TellsEntry s.offset line e → AnswersLine s history line told after
        → (reply : Reply A) × (told ≡ Replied reply) × Serves s nobody 0 (alone history) e.ae e.moment (Do e.request) reply (alone after) }
{}
