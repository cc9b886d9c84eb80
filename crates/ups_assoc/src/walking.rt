//! Finding out whether a data set follows a command set.

ghost use Rattle.std.specs.Prelude.{◌≡◌, ◌<◌, ◌^◌, ◌++◌, ◌∷◌, ◌==◌, ◌&&◌, not, false, List, ℕ, length, MatchOption};
ghost use Rattle.std.specs.Int.{w32, to_le_bytes};
ghost use Rattle.ups_assoc.specs.Announcing.{announces, data_set_type, data_follows};
ghost use Rattle.ups_assoc.specs.Same.{is_same};

use ups_pdu::le_u32_at;

/// Returns whether the bytes are the tag of the Command Data Set Type (0000,0800).
fn is_data_set_type(tag: &[u8]) -> bool
    ensures { result ≡ is_same tag.now data_set_type }
{
    tag == b"\x00\x00\x00\x08".as_slice()
}

/// Reads the tag of the element at the front and the length of its value, and returns them with the bytes that
/// follow.
fn header_at(bytes: &[u8]) -> Option<(&[u8], u32, &[u8])>
    ensures { MatchOption result (length bytes.now < 8) (λ x. (length x.0.now ≡ 4) × (x.1 < 2 ^ 32) × (bytes.now ≡ x.0.now ++ (to_le_bytes w32 x.1 ++ x.2.now))) }
{
    if bytes.len() < 4 {
        return None;
    }
    let (tag, rest) = bytes.split_at(4);
    let (len, value) = le_u32_at(rest)?;
    Some((tag, len, value))
}

/// Returns whether the value of a Command Data Set Type, `len` bytes at the front, is two bytes other than 0101H.
fn announces(len: usize, bytes: &[u8]) -> bool
    ensures { result ≡ announces len bytes.now }
{
    match bytes {
        [low, high, ..] => len == 2 && !(*low == 1 && *high == 1),
        _ => false,
    }
}

/// Returns whether a command set announces a data set: the value of its first Command Data Set Type (0000,0800) is
/// then not 0101H (PS3.7 annex E.1).
///
/// Returns false if the elements end before it, or if its value does not have two bytes. Only the headers of the
/// elements before it are examined.
pub fn data_follows(command: &[u8]) -> bool
    ensures { result ≡ data_follows command.now }
{
    let mut rest = command;
    while let Some((tag, len, value)) = header_at(rest) {
        let len = len as usize;
        if is_data_set_type(tag) {
            return announces(len, value);
        }
        if value.len() < len {
            return false;
        }
        rest = &value[len..];
    }
    false
}

/// Does nothing at run time: its contract tells a proof that elements with other tags at the front of a command set
/// are passed over, and the first Command Data Set Type decides.
pub fn the_first_data_set_type_decides()
    ensures passes { (tag : List ℕ) → (value : List ℕ) → (rest : List ℕ) → length tag ≡ 4 → length value < 2 ^ 32 → is_same tag data_set_type ≡ false
        → data_follows (tag ++ (to_le_bytes w32 (length value) ++ (value ++ rest))) ≡ data_follows rest }
    ensures decides { (low : ℕ) → (high : ℕ) → (rest : List ℕ) → data_follows (data_set_type ++ (to_le_bytes w32 2 ++ (low ∷ high ∷ rest))) ≡ not (low == 1 && high == 1) }
{}
