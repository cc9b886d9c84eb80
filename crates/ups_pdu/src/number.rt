//! Numbers at the front of bytes: big-endian as in PDUs (PS3.8 section 9.3.1), and little-endian as in data sets
//! (PS3.5 section 7.3).

ghost use Rattle.std.specs.Prelude.{◌≡◌, ◌<◌, ◌++◌, length, MatchOption};
ghost use Rattle.std.specs.Int.{w16, w32, to_be_bytes, to_le_bytes};

/// Reads a big-endian number from the first two bytes, and returns it with the rest.
pub fn be_u16_at(bytes: &[u8]) -> Option<(u16, &[u8])>
    ensures { MatchOption result (length bytes.now < 2) (λ x. bytes.now ≡ to_be_bytes w16 x.0 ++ x.1.now) }
{
    if bytes.len() < 2 {
        return None;
    }
    let (front, rest) = bytes.split_at(2);
    Some((u16::from_be_bytes([front[0], front[1]]), rest))
}

/// Reads a big-endian number from the first four bytes, and returns it with the rest.
pub fn be_u32_at(bytes: &[u8]) -> Option<(u32, &[u8])>
    ensures { MatchOption result (length bytes.now < 4) (λ x. bytes.now ≡ to_be_bytes w32 x.0 ++ x.1.now) }
{
    if bytes.len() < 4 {
        return None;
    }
    let (front, rest) = bytes.split_at(4);
    let number = u32::from_be_bytes([front[0], front[1], front[2], front[3]]);
    Some((number, rest))
}

/// Reads a little-endian number from the first two bytes, and returns it with the rest.
pub fn le_u16_at(bytes: &[u8]) -> Option<(u16, &[u8])>
    ensures { MatchOption result (length bytes.now < 2) (λ x. bytes.now ≡ to_le_bytes w16 x.0 ++ x.1.now) }
{
    if bytes.len() < 2 {
        return None;
    }
    let (front, rest) = bytes.split_at(2);
    Some((u16::from_le_bytes([front[0], front[1]]), rest))
}

/// Reads a little-endian number from the first four bytes, and returns it with the rest.
pub fn le_u32_at(bytes: &[u8]) -> Option<(u32, &[u8])>
    ensures { MatchOption result (length bytes.now < 4) (λ x. bytes.now ≡ to_le_bytes w32 x.0 ++ x.1.now) }
{
    if bytes.len() < 4 {
        return None;
    }
    let (front, rest) = bytes.split_at(4);
    let number = u32::from_le_bytes([front[0], front[1], front[2], front[3]]);
    Some((number, rest))
}
