//! The UIDs that have been used.

ghost use Rattle.std.specs.Prelude.{◌≡◌, ◌<◌, ◌||◌, ℕ, List};
ghost use Rattle.std.specs.Str.{bytes_eq};
ghost use Rattle.std.specs.HashSet as set;
ghost use Rattle.ups_tables.specs.Held.{is_used};

use std::alloc::Allocator;
use std::collections::HashSet;
use std::hash::{BuildHasherDefault, FoldHasher};
use ups_life::StepUid;

/// Marks a UID as used. There is room for it.
pub(crate) fn use_uid<A: Allocator + Copy>(
    used: &mut HashSet<StepUid, BuildHasherDefault<FoldHasher>, A>,
    step: StepUid,
)
    requires { 0 < set.spare used.old }
    ensures { (u : List ℕ) → is_used u used.new.keys ≡ (bytes_eq step u || is_used u used.old.keys) }
{
    let Ok(_) = used.insert(step) else {
        unreachable!();
    };
}
