//! Reading a PDU (PS3.8 section 9.3).

ghost use Rattle.std.specs.Prelude.{◌≡◌, ◌≤◌, ℕ, List, MatchOption, MatchResult, IfOk, IfErr, length, take};
ghost use Rattle.ups_pdu.specs.declared.pdu.Pdu.{Pdu};
ghost use Rattle.ups_pdu.specs.declared.pdu.Pdu.TheVariants.{Data};
ghost use Rattle.ups_pdu.specs.declared.pdv.Pdv.{Pdv};
ghost use Rattle.ups_pdu.specs.declared.fault.PduFault.TheVariants.{Memory};
ghost use Rattle.ups_pdu.specs.Lengths.{LengthsFill};
ghost use Rattle.ups_pdu.specs.Spelling.{Gives, SpellsData, IsBody, IsFront, SpellsPdu, IsFault};

use crate::association::{answer_of, request_of};
use crate::fault::PduFault;
use crate::fragment::pdvs_of;
use crate::kind::{PduKind, split_pdu};
use crate::lengths::lengths_fill;
use crate::pdu::Pdu;
use crate::pdv::Pdvs;
use std::alloc::Allocator;

/// Reads the presentation data values (PDVs) of a body, which has at least one.
fn data_of<A: Allocator + Copy>(alloc: A, body: &[u8]) -> Result<Pdvs<A>, PduFault>
    requires { LengthsFill PduKind.Data body.now }
    ensures { Gives (SpellsData body.now) result }
{
    if body.is_empty() {
        return Err(PduFault::BadItem);
    }
    let pdvs = pdvs_of(alloc, body)?;
    Ok(pdvs)
}

/// Reads the body of a PDU of type `kind`.
fn body_of<A: Allocator + Copy>(alloc: A, kind: PduKind, body: &[u8]) -> Result<Pdu<A>, PduFault>
    requires { LengthsFill kind body.now }
    ensures { Gives (IsBody kind body.now) result }
{
    match kind {
        PduKind::AssociateRq => Ok(Pdu::AssociateRq(request_of(alloc, body)?)),
        PduKind::AssociateAc => Ok(Pdu::AssociateAc(answer_of(alloc, body)?)),
        PduKind::Data => Ok(Pdu::Data(data_of(alloc, body)?)),
        PduKind::ReleaseRq => Ok(Pdu::ReleaseRq),
        PduKind::ReleaseRp => Ok(Pdu::ReleaseRp),
        PduKind::AssociateRj => match body {
            [_, result, source, reason] => Ok(Pdu::AssociateRj {
                result: *result,
                source: *source,
                reason: *reason,
            }),
            _ => Err(PduFault::BadItem),
        },
        PduKind::Abort => match body {
            [_, _, source, reason] => Ok(Pdu::Abort {
                source: *source,
                reason: *reason,
            }),
            _ => Err(PduFault::BadItem),
        },
    }
}

/// Reads the PDU at the front of the bytes, or returns the first fault.
fn front_of<A: Allocator + Copy>(alloc: A, bytes: &[u8]) -> Result<(Pdu<A>, usize), PduFault>
    ensures { MatchResult result (λ x. IsFront bytes.now x.0 x.1) (IsFault A bytes.now) }
{
    let (kind, body, _) = split_pdu(bytes)?;
    if !lengths_fill(kind, body) {
        return Err(PduFault::BadLength);
    }
    let pdu = body_of(alloc, kind, body)?;
    Ok((pdu, 6 + body.len()))
}

/// Reads the PDU at the front of the bytes, and returns it with the number of its bytes.
///
/// # Errors
///
/// The first of these: fewer than 6 bytes (`Short`), an unknown type (`UnknownType`), a length over the limit of the
/// type (`TooLong`), fewer bytes than the length (`Short`), a length inside the body that does not match what it
/// measures (`BadLength`), anything else that the grammar of the PDU does not allow (`BadItem`). `Memory` is returned
/// only for bytes that do encode a PDU.
pub fn read_pdu<A: Allocator + Copy>(alloc: A, bytes: &[u8]) -> Result<(Pdu<A>, usize), PduFault>
    ensures found { IfOk result (λ x. (x.1 ≤ length bytes.now) × SpellsPdu (take x.1 bytes.now) x.0) }
    ensures only { (n : ℕ) → (pdu : Pdu A) → n ≤ length bytes.now → SpellsPdu (take n bytes.now) pdu
        → MatchResult result (λ x. x ≡ (pdu, n)) (λ e. e ≡ Memory) }
    ensures fault { IfErr result (IsFault A bytes.now) }
{
    front_of(alloc, bytes)
}

/// Reads the P-DATA-TF at the front of the bytes (PS3.8 section 9.3.5), and returns its PDVs with the number of its
/// bytes, or None if the PDU at the front has another type. It takes less time than `read_pdu`, since PDVs take less
/// room than the largest PDU.
///
/// # Errors
///
/// Those of `read_pdu`. A PDU of another type is not read beyond its header.
pub fn read_data<A: Allocator + Copy>(
    alloc: A,
    bytes: &[u8],
) -> Result<Option<(Pdvs<A>, usize)>, PduFault>
    ensures { MatchResult result (λ found. MatchOption found ((pdvs : List (Pdv A)) → (n : ℕ) → IsFront bytes.now (Data pdvs) n → ⊥) (λ x. IsFront bytes.now (Data x.0) x.1)) (IsFault A bytes.now) }
{
    let (kind, body, _) = split_pdu(bytes)?;
    let PduKind::Data = kind else {
        return Ok(None);
    };
    if !lengths_fill(kind, body) {
        return Err(PduFault::BadLength);
    }
    let pdvs = data_of(alloc, body)?;
    Ok(Some((pdvs, 6 + body.len())))
}
