//! Shortened patterns: adjacent `*` mean the same as a single one (PS3.4 section C.2.2.2.4).

ghost use Rattle.std.specs.Prelude.{◌≡◌, ℕ, List, IfOk};
ghost use Rattle.ups_match.specs.Likeness.{is_like};

use std::alloc::{AllocError, Allocator};

/// Returns a pattern with each row of `*` replaced by a single one.
///
/// Errors: if memory runs out.
pub(crate) fn shortened<A: Allocator + Copy>(
    alloc: A,
    pattern: &[u8],
) -> Result<Vec<u8, A>, AllocError>
    ensures { IfOk result (λ short. (text : List ℕ) → is_like short.items text ≡ is_like pattern.now text) }
{
    let mut short = Vec::new(alloc);
    let mut behind_star = false;
    for byte in pattern {
        if *byte == b'*' && behind_star {
            continue;
        }
        short.push(*byte)?;
        behind_star = *byte == b'*';
    }
    Ok(short)
}
