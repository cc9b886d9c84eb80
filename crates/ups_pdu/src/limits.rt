//! The limits on the bodies of PDUs.

ghost use Rattle.std.specs.Prelude.{◌≡◌};
ghost use Rattle.ups_pdu.specs.Limits.{max_data_length, max_body_length};

/// The maximum number of bytes in the body of a P-DATA-TF, which is the maximum length that this service offers
/// (PS3.8 annex D.1).
pub const MAX_DATA_LENGTH: u32 = 16_384;

/// The maximum number of bytes in the body of any other PDU.
pub const MAX_BODY_LENGTH: u32 = 131_072;

/// Does nothing at run time: its contract tells a proof that the limits are those of the profile of this service.
pub fn limits_are_those_of_the_profile()
    ensures data { MAX_DATA_LENGTH ≡ max_data_length }
    ensures others { MAX_BODY_LENGTH ≡ max_body_length }
{}
