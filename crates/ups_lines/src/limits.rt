//! The limits of a line.

ghost use Rattle.std.specs.Prelude.{◌≡◌};
ghost use Rattle.ups_lines.specs.Limits.{max_items};

/// The maximum number of items that a line may make, and the highest number of an item.
pub(crate) const MAX_ITEMS: u32 = 131_072;

/// Does nothing at run time: its contract tells a proof that the limit is that of the definitions.
pub fn limits_are_as_defined()
    ensures items { MAX_ITEMS ≡ max_items }
{}
