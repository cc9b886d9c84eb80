//! The limits of an association.

ghost use Rattle.std.specs.Prelude.{◌≡◌};
ghost use Rattle.ups_assoc.specs.Limits.{longest_message};

/// The maximum number of bytes of a message that is read, its command set and its data set together.
pub const LONGEST_MESSAGE: usize = 1_048_576;

/// Does nothing at run time: its contract tells a proof that the limit is that of the profile of this service.
pub fn limits_are_those_of_the_profile()
    ensures { LONGEST_MESSAGE ≡ longest_message }
{}
