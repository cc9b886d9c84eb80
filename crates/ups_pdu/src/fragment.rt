//! Reading the presentation data values of a P-DATA-TF (PS3.8 section 9.3.5, annex E.2).

ghost use Rattle.std.specs.Prelude.{◌↔◌, List, ℕ, IsTrue, MatchOption, IfOk};
ghost use Rattle.ups_pdu.specs.Each.{Each};
ghost use Rattle.ups_pdu.specs.Fragment.{Fragment, IsChunk, IsFragment, FragmentsFill, IsPdv, SpellsPdv};

use crate::bytes::Bytes;
use crate::number::be_u32_at;
use crate::pdv::{Pdv, Pdvs};
use std::alloc::{AllocError, Allocator};

/// Reads a length and that many bytes, and returns these with the bytes that follow.
fn chunk_at(bytes: &[u8]) -> Option<(&[u8], &[u8])>
    ensures { MatchOption result ((chunk : List ℕ) → (rest : List ℕ) → IsChunk bytes.now chunk rest → ⊥) (λ x. IsChunk bytes.now x.0.now x.1.now) }
{
    let (len, rest) = be_u32_at(bytes)?;
    let len = len as usize;
    if rest.len() < len {
        return None;
    }
    Some(rest.split_at(len))
}

/// Reads the context id, the control byte and the message bytes of the PDV at the front, and returns them with the
/// bytes that follow.
fn fragment_at(bytes: &[u8]) -> Option<(u8, u8, &[u8], &[u8])>
    ensures { MatchOption result ((fragment : Fragment) → (rest : List ℕ) → IsFragment bytes.now fragment rest → ⊥)
        (λ x. IsFragment bytes.now (record { context = x.0; control = x.1; message = x.2.now }) x.3.now) }
{
    let (chunk, rest) = chunk_at(bytes)?;
    let [context, control, message @ ..] = chunk else {
        return None;
    };
    Some((*context, *control, message, rest))
}

/// Returns whether PDVs fill the bytes exactly.
pub(crate) fn fragments_fill(bytes: &[u8]) -> bool
    ensures { IsTrue result ↔ FragmentsFill bytes.now }
{
    let mut rest = bytes;
    while !rest.is_empty() {
        let Some((_, _, _, after)) = fragment_at(rest) else {
            return false;
        };
        rest = after;
    }
    true
}

/// Builds a PDV from a context id, a control byte and a copy of the message bytes.
fn pdv_of<A: Allocator + Copy>(
    alloc: A,
    context: u8,
    control: u8,
    message: &[u8],
) -> Result<Pdv<A>, AllocError>
    ensures { IfOk result (IsPdv (record { context = context; control = control; message = message.now })) }
{
    Ok(Pdv {
        context,
        command: control & 1 == 1,
        last: control & 2 == 2,
        bytes: Bytes::copy_of(alloc, message)?,
    })
}

/// Reads the PDVs that fill the body.
pub(crate) fn pdvs_of<A: Allocator + Copy>(alloc: A, body: &[u8]) -> Result<Pdvs<A>, AllocError>
    ensures { FragmentsFill body.now → IfOk result (λ pdvs. Each SpellsPdv body.now pdvs) }
{
    let mut pdvs = Vec::new(alloc);
    let mut rest = body;
    while let Some((context, control, message, after)) = fragment_at(rest) {
        pdvs.push(pdv_of(alloc, context, control, message)?)?;
        rest = after;
    }
    Ok(Pdvs::from_vec(pdvs))
}
