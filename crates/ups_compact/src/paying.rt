//! Whether a compaction pays.

ghost use Rattle.std.specs.Prelude.{◌≡◌, ◌-◌, nat_lt};

/// Returns whether a compaction pays if `left` of `all` entries stay: fewer stay than go.
pub fn pays(left: usize, all: usize) -> bool
    ensures { result ≡ nat_lt left (all - left) }
{
    left < all.saturating_sub(left)
}
