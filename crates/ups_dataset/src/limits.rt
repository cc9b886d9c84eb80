//! The constants of the encoding of data sets.

ghost use Rattle.std.specs.Prelude.{◌≡◌};
ghost use Rattle.ups_dataset.specs.Limits.{undefined_length, max_short_length, max_depth};

/// The length field of a value, a sequence or an item of undefined length (PS3.5 section 7.5).
pub const UNDEFINED_LENGTH: u32 = 0xffff_ffff;

/// The greatest even length that fits in a length field of two bytes (PS3.5 section 7.1.2).
pub const MAX_SHORT_LENGTH: u32 = 0xfffe;

/// The maximum depth to which items nest.
pub const MAX_DEPTH: u8 = 8;

/// Does nothing at run time: its contract tells a proof that the lengths are those of PS3.5, and that items nest as
/// deep as the profile of this service allows.
pub fn limits_are_those_of_the_profile()
    ensures undefined { UNDEFINED_LENGTH ≡ undefined_length }
    ensures short { MAX_SHORT_LENGTH ≡ max_short_length }
    ensures depth { MAX_DEPTH ≡ max_depth }
{}
