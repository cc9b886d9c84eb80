//! The limit of a script.

ghost use Rattle.std.specs.Prelude.{◌≡◌};
ghost use Rattle.ups_script.specs.Limits.{max_lines};

/// The maximum number of lines of a script.
pub(crate) const MAX_LINES: u64 = 1_000_000;

/// Does nothing at run time: its contract tells a proof that the limit is that of the definitions.
pub fn limits_are_as_defined()
    ensures { MAX_LINES ≡ max_lines }
{}
