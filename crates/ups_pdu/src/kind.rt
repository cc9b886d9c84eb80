//! The types of PDUs, and the header of each PDU (PS3.8 section 9.3.1).

ghost use Rattle.std.specs.Prelude.{◌≡◌, ◌≢◌, ◌<◌, ◌≤◌, ℕ, List, length, MatchOption, MatchResult};
ghost use Rattle.ups_pdu.specs.declared.fault.PduFault.TheVariants.{Short, Memory};
ghost use Rattle.ups_pdu.specs.declared.kind.PduKind.{PduKind};
ghost use Rattle.ups_pdu.specs.Header.{type_code, limit, IsHeader, IsWhole, HeaderFails};

use crate::fault::PduFault;
use crate::limits::{MAX_BODY_LENGTH, MAX_DATA_LENGTH};
use crate::number::be_u32_at;

/// The type of a PDU.
#[derive(Clone, Copy, Debug, PartialEq, Eq)]
pub enum PduKind {
    AssociateRq,
    AssociateAc,
    AssociateRj,
    Data,
    ReleaseRq,
    ReleaseRp,
    Abort,
}

impl PduKind {
    /// Returns the type that has this type byte, or None if no type has it.
    fn of(byte: u8) -> Option<PduKind>
        ensures { MatchOption result ((kind : PduKind) → type_code kind ≡ byte → ⊥) (λ kind. type_code kind ≡ byte) }
    {
        match byte {
            1 => Some(PduKind::AssociateRq),
            2 => Some(PduKind::AssociateAc),
            3 => Some(PduKind::AssociateRj),
            4 => Some(PduKind::Data),
            5 => Some(PduKind::ReleaseRq),
            6 => Some(PduKind::ReleaseRp),
            7 => Some(PduKind::Abort),
            _ => None,
        }
    }

    /// Returns the type byte.
    pub fn code(self) -> u8
        ensures { result ≡ type_code self }
    {
        match self {
            PduKind::AssociateRq => 1,
            PduKind::AssociateAc => 2,
            PduKind::AssociateRj => 3,
            PduKind::Data => 4,
            PduKind::ReleaseRq => 5,
            PduKind::ReleaseRp => 6,
            PduKind::Abort => 7,
        }
    }

    /// Returns the maximum number of bytes after the header.
    pub fn limit(self) -> usize
        ensures { result ≡ limit self }
    {
        match self {
            PduKind::Data => MAX_DATA_LENGTH as usize,
            _ => MAX_BODY_LENGTH as usize,
        }
    }
}

/// Reads the type byte and the length, and returns them with the bytes that follow.
fn split_header(bytes: &[u8]) -> Option<(u8, u32, &[u8])>
    ensures { MatchOption result (length bytes.now < 6) (λ x. IsHeader bytes.now x.0 x.1 x.2.now) }
{
    let [code, _, after @ ..] = bytes else {
        return None;
    };
    let (len, rest) = be_u32_at(after)?;
    Some((*code, len, rest))
}

/// Returns the type and the body of the PDU at the front, and the bytes that follow it, or the first fault of its
/// header.
pub(crate) fn split_pdu(bytes: &[u8]) -> Result<(PduKind, &[u8], &[u8]), PduFault>
    ensures { MatchResult result (λ x. IsWhole bytes.now x.0 x.1.now x.2.now) (HeaderFails bytes.now) }
{
    let Some((code, len, rest)) = split_header(bytes) else {
        return Err(PduFault::Short);
    };
    let Some(kind) = PduKind::of(code) else {
        return Err(PduFault::UnknownType);
    };
    let len = len as usize;
    if len > kind.limit() {
        return Err(PduFault::TooLong);
    }
    if rest.len() < len {
        return Err(PduFault::Short);
    }
    let (body, rest) = rest.split_at(len);
    Ok((kind, body, rest))
}

/// Returns the number of bytes that follow a header of six bytes.
///
/// # Errors
///
/// `UnknownType` and `TooLong`: the header alone shows them, so that nobody waits for such a body.
pub fn body_len(header: &[u8]) -> Result<usize, PduFault>
    requires { length header.now ≡ 6 }
    ensures { MatchResult result (λ n. (kind : PduKind) × (rest : List ℕ) × IsHeader header.now (type_code kind) n rest × (n ≤ limit kind))
        (λ e. (e ≢ Short) × (e ≢ Memory) × HeaderFails header.now e) }
{
    let Some((code, len, _)) = split_header(header) else {
        unreachable!();
    };
    let Some(kind) = PduKind::of(code) else {
        return Err(PduFault::UnknownType);
    };
    let len = len as usize;
    if len > kind.limit() {
        return Err(PduFault::TooLong);
    }
    Ok(len)
}
