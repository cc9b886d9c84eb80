//! The limit of a line.

ghost use Rattle.std.specs.Prelude.{◌≡◌};
ghost use Rattle.ups_requests.specs.Limits.{max_line};

/// The maximum number of bytes of a line, without its line feed.
pub const MAX_LINE: usize = 16_777_216;

/// Does nothing at run time: its contract tells a proof that the limit is that of the definitions.
pub fn limits_are_as_defined()
    ensures line { MAX_LINE ≡ max_line }
{}
