//! The title of this application entity.

ghost use Rattle.std.specs.Prelude.{◌≡◌, ℕ, List, IfErr, MatchResult};
ghost use Rattle.ups_pdu.specs.Title.{SpellsAe};

use crate::fault::ArgumentFault;
use crate::options::worded;
use clap::Arg;
use std::alloc::Global;
use ups_pdu::Ae;

/// Returns the option for the title.
pub(crate) fn ae_word<'a>(alloc: Global) -> Arg<'a> {
    worded(alloc, "ae", "AE", "the title of this application entity").required(true)
}

/// Parses a title (PS3.5 section 6.2, AE).
///
/// Errors: Ae if the word is not a title.
pub(crate) fn ae_of(word: &str) -> Result<Ae, ArgumentFault<'_>>
    ensures spelled { MatchResult result (SpellsAe word.now) (λ _. (title : List ℕ) → SpellsAe word.now title → ⊥) }
    ensures fault { IfErr result (λ fault. fault ≡ ArgumentFault.Ae) }
{
    match Ae::of(word.as_bytes()) {
        Some(ae) => Ok(ae),
        None => Err(ArgumentFault::Ae),
    }
}
