//! Cutting messages into fragments (PS3.8 annexes D.1 and E, PS3.7 section 6.3.1).

ghost use Rattle.std.specs.Prelude.{◌≡◌, ◌≤◌, ◌<◌, ◌⊎◌, ◌+◌, ◌-◌, ◌++◌, List, [], ◌∷◌, ℕ, Some, length, true, is_some, option_copied, unwrap_or, if◌then◌else◌, OnOk, IfOk, IfErr};
ghost use Rattle.std.specs.Int.{to_be_bytes, w32};
ghost use Rattle.std.specs.List.{flat_map, AllByRecursion};
ghost use Rattle.ups_pdu.specs.Written.{written_pdu};
ghost use Rattle.ups_pdu.specs.Fits.{Fits};
ghost use Rattle.ups_pdu.specs.Limits.{max_data_length};
ghost use Rattle.ups_assoc.specs.declared.fault.AssocFault.TheVariants.{Memory};
ghost use Rattle.ups_assoc.specs.declared.message.RawMessage.{RawMessage};
ghost use Rattle.ups_assoc.specs.declared.assembling.Begun.TheVariants.{Nothing};
ghost use Rattle.ups_assoc.specs.Limits.{longest_message};
ghost use Rattle.ups_assoc.specs.Messages.{is_accepted};
ghost use Rattle.ups_assoc.specs.Announcing.{data_follows};
ghost use Rattle.ups_assoc.specs.Feeding.{feeds};
ghost use Rattle.ups_assoc.specs.Cutting.{room, fragment, run, body_run, pieces, pdvs_in};

use crate::fault::AssocFault;
use crate::negotiating::counted;
use std::alloc::{AllocError, Allocator};
use ups_pdu::{Bytes, Pdu, PduKind, Pdv, Pdvs};

/// Returns the maximum number of bytes of a message in one PDU for a peer that announces the maximum length `max`:
/// the largest even number that leaves room for the length, the context id and the control header of the fragment.
pub fn room(max: u32) -> usize
    requires { (max ≡ 0) ⊎ (8 ≤ max) }
    ensures room { result ≡ room max }
    ensures some { 2 ≤ result }
    ensures most { result ≤ max_data_length - 6 }
{
    let len = counted(max) as usize - 6;
    len / 2 * 2
}

/// Returns a PDU with one fragment.
///
/// Errors: lack of memory.
fn fragment<A: Allocator + Copy>(
    alloc: A,
    context: u8,
    command: bool,
    last: bool,
    bytes: &[u8],
) -> Result<Pdu<A>, AllocError>
    ensures { IfOk result (λ p. p ≡ fragment context command last bytes.now) }
{
    let bytes = Bytes::copy_of(alloc, bytes)?;
    let mut pdvs = Vec::with_capacity(alloc, 1)?;
    pdvs.push(Pdv {
        context,
        command,
        last,
        bytes,
    })?;
    Ok(Pdu::Data(Pdvs::from_vec(pdvs)))
}

/// Returns the message control header of a PDV (PS3.8 annex E.2).
fn control_of(command: bool, last: bool) -> u8
    ensures { result ≡ (if command then 1 else 0) + (if last then 2 else 0) }
{
    u8::from(command) + if last { 2 } else { 0 }
}

/// Returns the headers of a P-DATA-TF with one PDV and of that PDV, which has a fragment of `len` bytes (PS3.8 sections
/// 9.3.5 and 9.3.5.1).
fn fragment_head(len: u32, context: u8, command: bool, last: bool) -> [u8; 12]
    requires { len ≤ max_data_length - 6 }
    ensures { result ≡ (4 ∷ 0 ∷ []) ++ (to_be_bytes w32 (len + 6) ++ (to_be_bytes w32 (len + 2) ++ (context ∷ ((if command then 1 else 0) + (if last then 2 else 0)) ∷ []))) }
{
    let [pdu_first, pdu_second, pdu_third, pdu_fourth] = (len + 6).to_be_bytes();
    let [pdv_first, pdv_second, pdv_third, pdv_fourth] = (len + 2).to_be_bytes();
    [
        PduKind::Data.code(),
        0,
        pdu_first,
        pdu_second,
        pdu_third,
        pdu_fourth,
        pdv_first,
        pdv_second,
        pdv_third,
        pdv_fourth,
        context,
        control_of(command, last),
    ]
}

/// Appends one fragment, as the bytes of a P-DATA-TF of its own (PS3.8 sections 9.3.5 and 9.3.5.1).
///
/// # Errors
///
/// If memory runs out.
pub fn put_fragment<A: Allocator + Copy>(
    out: &mut Vec<u8, A>,
    context: u8,
    command: bool,
    last: bool,
    bytes: &[u8],
) -> Result<(), AllocError>
    requires { length bytes.now ≤ max_data_length - 6 }
    ensures { OnOk result (out.new.items ≡ out.old.items ++ written_pdu {A = A} (fragment context command last bytes.now)) }
{
    let len = bytes.len() as u32;
    out.reserve(bytes.len() + 12)?;
    out.extend_from_slice(&fragment_head(len, context, command, last))?;
    out.extend_from_slice(bytes)?;
    Ok(())
}

/// Appends the fragments of a command set or of a data set, each in a PDU of its own. All but the last have `size`
/// bytes.
///
/// Errors: lack of memory.
fn put_run<A: Allocator + Copy>(
    alloc: A,
    out: &mut Vec<Pdu<A>, A>,
    size: usize,
    context: u8,
    command: bool,
    bytes: &[u8],
) -> Result<(), AllocError>
    requires { 0 < size }
    ensures { OnOk result (out.new.items ≡ out.old.items ++ run size context command bytes.now) }
{
    let mut rest = bytes;
    while rest.len() > size {
        let (front, after) = rest.split_at(size);
        out.push(fragment(alloc, context, command, false, front)?)?;
        rest = after;
    }
    out.push(fragment(alloc, context, command, true, rest)?)?;
    Ok(())
}

/// Appends the fragments of a data set, if there is one.
///
/// Errors: lack of memory.
fn put_body<A: Allocator + Copy>(
    alloc: A,
    out: &mut Vec<Pdu<A>, A>,
    size: usize,
    context: u8,
    body: Option<&[u8]>,
) -> Result<(), AllocError>
    requires { 0 < size }
    ensures { OnOk result (out.new.items ≡ out.old.items ++ body_run size context (option_copied body.entry)) }
{
    match body {
        Some(body) => put_run(alloc, out, size, context, false, body),
        None => Ok(()),
    }
}

/// Returns an upper bound on the number of PDUs that a message takes.
fn count(size: usize, command: &[u8], body: Option<&[u8]>) -> usize
    requires { 0 < size }
{
    let commands = command.len() / size;
    match body {
        Some(body) => commands.saturating_add(body.len() / size).saturating_add(2),
        None => commands.saturating_add(1),
    }
}

/// Cuts a message into PDUs for a peer that announces the maximum length `max`: the fragments of its command set,
/// then those of its data set if there is one, each in a PDU of its own.
///
/// # Errors
///
/// `Memory` if memory runs out.
pub fn cut<A: Allocator + Copy>(
    alloc: A,
    context: u8,
    command: &[u8],
    body: Option<&[u8]>,
    max: u32,
) -> Result<Vec<Pdu<A>, A>, AssocFault>
    requires max { (max ≡ 0) ⊎ (8 ≤ max) }
    ensures pieces { IfOk result (λ v. v.items ≡ pieces context command.now (option_copied body.entry) max) }
    ensures fits { IfOk result (λ v. AllByRecursion (λ p. Fits p) v.items) }
    ensures memory { IfErr result (λ e. e ≡ Memory) }
{
    let size = room(max);
    let mut pdus = Vec::with_capacity(alloc, count(size, command, body))?;
    put_run(alloc, &mut pdus, size, context, true, command)?;
    put_body(alloc, &mut pdus, size, context, body)?;
    Ok(pdus)
}

/// Does nothing at run time: its contract tells a proof that the PDUs into which a message on an accepted
/// presentation context is cut give that message again, if it has a data set exactly when its command set announces
/// one and is no longer than a message may be.
pub fn a_cut_message_is_whole_again<A: Allocator + Copy>()
    ensures { (ids : List ℕ) → (max : ℕ) → (message : RawMessage A) → ((max ≡ 0) ⊎ (8 ≤ max)) → is_accepted ids message.context ≡ true
        → is_some message.body ≡ data_follows message.command → length message.command + length (unwrap_or message.body []) ≤ longest_message
        → feeds ids (flat_map pdvs_in (pieces message.context message.command message.body max)) Nothing ≡ Some (message ∷ [], Nothing) }
{}
