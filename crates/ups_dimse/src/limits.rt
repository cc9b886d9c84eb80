//! The limits of a command set.

ghost use Rattle.std.specs.Prelude.{◌≡◌};
ghost use Rattle.ups_dimse.specs.Limits.{max_attributes};

/// The greatest number of attributes that a request may list, so that the length of its elements fits Command Group
/// Length (0000,0000).
pub const MAX_ATTRIBUTES: usize = 0x3fff_ffbf;

/// Does nothing at run time: its contract tells a proof that the limit is that of PS3.7 section 6.3.1.
pub fn limits_are_those_of_the_profile()
    ensures { MAX_ATTRIBUTES ≡ max_attributes }
{}
