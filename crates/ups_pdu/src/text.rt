//! Padding at the end of values (PS3.5 section 6.2: a trailing space, and for a UID a trailing NUL).

ghost use Rattle.std.specs.Prelude.{◌≡◌};
ghost use Rattle.ups_pdu.specs.Padding.{is_padding, without_padding};

/// Returns whether the byte is a space or a NUL.
pub fn is_padding(byte: u8) -> bool
    ensures { result ≡ is_padding byte }
{
    byte == 0 || byte == b' '
}

/// Returns the bytes without the spaces and NULs at their end.
#[tactic(auto, using(crate::proofs::Trailing::padding_goes, crate::proofs::Trailing::others_stay))]
pub fn without_padding(bytes: &[u8]) -> &[u8]
    ensures { result.now ≡ without_padding bytes.now }
{
    let mut rest = bytes;
    while let Some((last, front)) = rest.split_last() {
        if !is_padding(*last) {
            return rest;
        }
        rest = front;
    }
    rest
}
