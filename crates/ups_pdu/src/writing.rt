//! Writing a PDU (PS3.8 section 9.3).

ghost use Rattle.std.specs.Prelude.{◌≡◌, ◌<◌, ◌≤◌, ◌^◌, ◌++◌, ◌∷◌, [], ◌↔◌, List, ℕ, length, vec_len, OnOk, IfOk};
ghost use Rattle.std.specs.List.{flat_map, AllByRecursion};
ghost use Rattle.std.specs.Int.{w32, to_be_bytes};
ghost use Rattle.ups_pdu.specs.declared.pdu.Pdu.{Pdu};
ghost use Rattle.ups_pdu.specs.Spelling.{SpellsPdu};
ghost use Rattle.ups_pdu.specs.Written.{control_of, pdv_content, written_pdv, written_body, written_pdu};
ghost use Rattle.ups_pdu.specs.Fits.{Fits, IsWithin};

use crate::pdu::Pdu;
use crate::pdv::Pdv;
use crate::put::{put_answer, put_request};
use std::alloc::{AllocError, Allocator};

/// Returns the message control header of a PDV (PS3.8 annex E.2).
fn control_of<A: Allocator + Copy>(pdv: &Pdv<A>) -> u8
    ensures { result ≡ control_of pdv.now }
{
    u8::from(pdv.command) + if pdv.last { 2 } else { 0 }
}

/// Writes a presentation data value.
fn put_pdv<A: Allocator + Copy>(out: &mut Vec<u8, A>, pdv: &Pdv<A>) -> Result<(), AllocError>
    requires { length (pdv_content pdv.now) < 2 ^ 32 }
    ensures { OnOk result (out.new.items ≡ out.old.items ++ written_pdv pdv.now) }
{
    let bytes = pdv.bytes.as_slice();
    out.extend_from_slice(&(bytes.len() as u32 + 2).to_be_bytes())?;
    out.push(pdv.context)?;
    out.push(control_of(pdv))?;
    out.extend_from_slice(bytes)?;
    Ok(())
}

/// Writes presentation data values.
fn put_pdvs<A: Allocator + Copy>(out: &mut Vec<u8, A>, pdvs: &[Pdv<A>]) -> Result<(), AllocError>
    requires { AllByRecursion (λ p. length (pdv_content p) < 2 ^ 32) pdvs.now }
    ensures { OnOk result (out.new.items ≡ out.old.items ++ flat_map written_pdv pdvs.now) }
{
    for pdv in pdvs {
        put_pdv(out, pdv)?;
    }
    Ok(())
}

/// Writes the body of a PDU.
fn put_body<A: Allocator + Copy>(out: &mut Vec<u8, A>, pdu: &Pdu<A>) -> Result<(), AllocError>
    requires { Fits pdu.now }
    ensures { OnOk result (out.new.items ≡ out.old.items ++ written_body pdu.now) }
{
    match pdu {
        Pdu::AssociateRq(rq) => put_request(out, rq),
        Pdu::AssociateAc(ac) => put_answer(out, ac),
        Pdu::AssociateRj {
            result,
            source,
            reason,
        } => out.extend_from_slice(&[0, *result, *source, *reason]),
        Pdu::Data(pdvs) => put_pdvs(out, pdvs.as_slice()),
        Pdu::ReleaseRq | Pdu::ReleaseRp => out.extend_from_slice(&[0; 4]),
        Pdu::Abort { source, reason } => out.extend_from_slice(&[0, 0, *source, *reason]),
    }
}

/// Sets the length field of a PDU to the number of bytes after its header.
fn close_pdu<A: Allocator + Copy>(out: &mut Vec<u8, A>)
    requires some { 6 ≤ vec_len out.old }
    requires fits { vec_len out.old < 2 ^ 32 }
    ensures { (code : ℕ) → (body : List ℕ) → out.old.items ≡ code ∷ 0 ∷ 0 ∷ 0 ∷ 0 ∷ 0 ∷ body
        → out.new.items ≡ code ∷ 0 ∷ to_be_bytes w32 (length body) ++ body }
{
    let len = (out.len() - 6) as u32;
    let [first, second, third, fourth] = len.to_be_bytes();
    out[2] = first;
    out[3] = second;
    out[4] = third;
    out[5] = fourth;
}

/// Returns the number of bytes of a P-DATA-TF, or 10 for another PDU, since each has at least 10 bytes.
fn capacity_for<A: Allocator + Copy>(pdu: &Pdu<A>) -> usize {
    let Pdu::Data(pdvs) = pdu else {
        return 10;
    };
    let mut capacity: usize = 6;
    for pdv in pdvs.as_slice() {
        capacity = capacity.saturating_add(pdv.bytes.len()).saturating_add(6);
    }
    capacity
}

/// Encodes a PDU as bytes.
pub fn write_pdu<A: Allocator + Copy>(alloc: A, pdu: &Pdu<A>) -> Result<Vec<u8, A>, AllocError>
    requires { Fits pdu.now }
    ensures written { IfOk result (λ v. v.items ≡ written_pdu pdu.now) }
    // Reading the bytes gives the PDU again, no matter which bytes follow.
    ensures again { IfOk result (λ v. SpellsPdu v.items pdu.now) }
{
    let mut out = Vec::with_capacity(alloc, capacity_for(pdu))?;
    out.extend_from_slice(&[pdu.kind().code(), 0, 0, 0, 0, 0])?;
    put_body(&mut out, pdu)?;
    close_pdu(&mut out);
    Ok(out)
}

/// Does nothing at run time: its contract tells a proof that a PDU can be written if and only if some bytes encode it
/// and its written form is within the limits. (The written form can be longer than another encoding: a maximum length
/// is always written, and so is a transfer syntax of a refused presentation context.)
pub fn fits_where_spelled<A: Allocator + Copy>()
    ensures { (pdu : Pdu A) → Fits pdu ↔ (((bytes : List ℕ) × SpellsPdu bytes pdu) × IsWithin pdu) }
{}

/// Does nothing at run time: its contract tells a proof that bytes encode at most one PDU.
pub fn pdu_is_unique<A: Allocator + Copy>()
    ensures { (bytes : List ℕ) → (first second : Pdu A) → SpellsPdu bytes first → SpellsPdu bytes second → first ≡ second }
{}

/// Does nothing at run time: its contract tells a proof that a PDU encoded in at most 30,000 bytes can be written.
pub fn short_is_writable<A: Allocator + Copy>()
    ensures { (bytes : List ℕ) → (pdu : Pdu A) → SpellsPdu bytes pdu → length bytes ≤ 30000 → Fits pdu }
{}
