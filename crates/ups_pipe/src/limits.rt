//! The limits of the hex form.

ghost use Rattle.std.specs.Prelude.{◌≡◌};
ghost use Rattle.ups_pipe.specs.Limits.{white_space_limit};

/// The maximum number of white space characters in a row among hex digits.
pub(crate) const WHITE_SPACE_LIMIT: u32 = 1_000_000;

/// Does nothing at run time: its contract tells a proof that the limit is that of the definition.
pub fn limits_are_as_defined()
    ensures white_space { WHITE_SPACE_LIMIT ≡ white_space_limit }
{}
