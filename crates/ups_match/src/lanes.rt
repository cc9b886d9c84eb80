//! Adjacent places of a text, each in a lane of a vector: 255 while a run may fit there, or else 0.

ghost use Rattle.std.specs.Prelude.{◌≡◌, ◌≢◌, ◌<◌, ◌≤◌, ◌==◌, ℕ, IsTrue, if◌then◌else◌, length, slice_index};
ghost use Rattle.ups_match.specs.Lanes.{HasLanes};

use std::simd::prelude::*;

/// The number of places in a vector.
pub(crate) const LANES: usize = 64;

/// Returns a vector of all places.
pub(crate) fn all_places() -> u8x64
    ensures { HasLanes result (λ k. 255) }
{
    u8x64::splat(255)
}

/// Keeps the places at which a text, counted from its front, has `byte`.
pub(crate) fn places_with(places: u8x64, text: &[u8], byte: u8) -> u8x64
    requires { 64 ≤ length text.now }
    ensures { HasLanes result (λ k. if slice_index text.now k == byte then slice_index places k else 0) }
{
    u8x64::from_slice(text)
        .simd_eq(u8x64::splat(byte))
        .select(places, u8x64::splat(0))
}

/// Returns whether no place is left.
fn has_no_place(places: u8x64) -> bool
    ensures { IsTrue result → (k : ℕ) → k < 64 → slice_index places k ≢ 255 }
{
    places.simd_eq(u8x64::splat(255)).to_bitmask() == 0
}

/// Returns whether no place is left in either of two vectors.
pub(crate) fn have_no_place(near: u8x64, far: u8x64) -> bool
    ensures near { IsTrue result → (k : ℕ) → k < 64 → slice_index near k ≢ 255 }
    ensures far { IsTrue result → (k : ℕ) → k < 64 → slice_index far k ≢ 255 }
{
    has_no_place(near) && has_no_place(far)
}
