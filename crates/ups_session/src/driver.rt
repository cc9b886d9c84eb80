//! The driver of a session, for either party: it reads PDUs from a reader, and writes what the party sends to a writer.

ghost use Rattle.std.specs.Prelude.{◌≡◌, [], ◌∷◌, ℕ, List, IfOk, MatchResult, OnOk, map};
ghost use Rattle.std.specs.Io.KnownBytes.{Consumes};
ghost use Rattle.ups_pdu.specs.Spelling.{SpellsPdu, IsFault};
ghost use Rattle.ups_session.specs.Fold.{bad, brings, closed, presentation_data, indications, Happens};
ghost use Rattle.ups_session.specs.Party.{indication_of, reaction_with, CanSend, Comes};
ghost use Rattle.ups_session.specs.Reading.{IsComplete};
ghost use Rattle.ups_session.specs.Session.{IsSession};
ghost use Rattle.ups_session.specs.Settled.{IsSettled};
ghost use Rattle.ups_session.specs.Turn.{IsTurn};
ghost use Rattle.ups_session.specs.WatchedIo.{Input};
ghost use Rattle.ups_session.specs.World.{Performed};

use crate::effect::Effect;
use crate::environment::Environment;
use crate::fault::{End, SessionFault};
use crate::indication::UlIndication;
use crate::party::Party;
use crate::pdu_io::{PduRead, read_one, trim};
use crate::watched_io::WatchedReader;
use std::alloc::Allocator;
use std::io::Read;
use ups_pdu::{Pdu, PduFault, Pdv, Pdvs, read_data, read_pdu};
use ups_ulstate::UlEvent;

/// Does what a party has decided to: what it sends is written, or the call that it makes is settled. The buffer is for the
/// bytes of one PDU after the other, as in all functions here.
///
/// Errors: a failed write; out of memory.
fn apply_effect<A: Allocator + Copy, E: Environment<A>, P: Party<A>>(
    party: &mut P,
    environment: &mut E,
    buffer: &mut Vec<u8, A>,
    effect: Effect<A, P::Call>,
) -> Result<(), SessionFault>
    requires ready { P.is_ready party.old }
    requires sendable { CanSend P.is_roomy effect }
    ensures settled { IsSettled (P.side (P.setup party.old)) (reaction_with P.call_view (P.view party.old) effect) (P.view party.new) (E.world environment.old) (E.world environment.new) result }
    ensures ready { OnOk result (P.is_ready party.new) }
    ensures setup { P.setup party.new ≡ P.setup party.old }
    ensures names { E.names environment.new ≡ E.names environment.old }
{
    match effect {
        Effect::Send(said) => environment.send_pdus(*buffer.allocator(), said.as_slice()),
        Effect::Respond(response) => environment.send_command(
            buffer,
            response.max,
            response.context,
            response.command.as_slice(),
        ),
        Effect::Call(call) => party.settle(environment, buffer, call),
    }
}

/// Processes an indication: the party reacts, and does what it has decided to.
///
/// Errors: a failed write; out of memory.
fn perform<A: Allocator + Copy, E: Environment<A>, P: Party<A>>(
    party: &mut P,
    environment: &mut E,
    buffer: &mut Vec<u8, A>,
    indication: &UlIndication<A>,
) -> Result<(), SessionFault>
    requires ready { P.is_ready party.old }
    requires comes { Comes (indication_of indication.now) }
    ensures performed { Performed (Happens (P.side (P.setup party.old))) (indication_of indication.now ∷ []) (P.view party.old) (P.view party.new) (E.world environment.old) (E.world environment.new) result }
    ensures ready { OnOk result (P.is_ready party.new) }
    ensures setup { P.setup party.new ≡ P.setup party.old }
    ensures names { E.names environment.new ≡ E.names environment.old }
{
    let alloc = *buffer.allocator();
    match party.react(alloc, indication) {
        Ok(effect) => apply_effect(party, environment, buffer, effect),
        Err(fault) => Err(fault),
    }
}

/// Processes a PDV: the party reacts, and does what it has decided to.
///
/// Errors: a failed write; out of memory.
fn process_pdv<A: Allocator + Copy, E: Environment<A>, P: Party<A>>(
    party: &mut P,
    environment: &mut E,
    buffer: &mut Vec<u8, A>,
    mut pdv: Pdv<A>,
) -> Result<(), SessionFault>
    requires ready { P.is_ready party.old }
    ensures performed { Performed (Happens (P.side (P.setup party.old))) (presentation_data pdv ∷ []) (P.view party.old) (P.view party.new) (E.world environment.old) (E.world environment.new) result }
    ensures ready { OnOk result (P.is_ready party.new) }
    ensures setup { P.setup party.new ≡ P.setup party.old }
    ensures names { E.names environment.new ≡ E.names environment.old }
{
    let alloc = *buffer.allocator();
    match party.react_to_pdv(alloc, &mut pdv) {
        Ok(effect) => apply_effect(party, environment, buffer, effect),
        Err(fault) => Err(fault),
    }
}

/// Processes the PDVs of a P-DATA-TF, in order (PS3.8 section 9.3.5).
///
/// Errors: a failed write; out of memory.
fn process_fragments<A: Allocator + Copy, E: Environment<A>, P: Party<A>>(
    party: &mut P,
    environment: &mut E,
    buffer: &mut Vec<u8, A>,
    pdvs: Pdvs<A>,
) -> Result<(), SessionFault>
    requires ready { P.is_ready party.old }
    ensures performed { Performed (Happens (P.side (P.setup party.old))) (map presentation_data pdvs) (P.view party.old) (P.view party.new) (E.world environment.old) (E.world environment.new) result }
    ensures ready { OnOk result (P.is_ready party.new) }
    ensures setup { P.setup party.new ≡ P.setup party.old }
    ensures names { E.names environment.new ≡ E.names environment.old }
{
    for pdv in pdvs.into_vec() {
        process_pdv(party, environment, buffer, pdv)?;
    }
    Ok(())
}

/// Returns the indication of a PDU.
///
/// Errors: the PDVs of a P-DATA-TF, of which each is an indication.
fn indication_by<A: Allocator + Copy>(pdu: Pdu<A>) -> Result<UlIndication<A>, Pdvs<A>>
    requires spelled { (bytes : List ℕ) × SpellsPdu bytes pdu }
    ensures indications { MatchResult result (λ i. indications pdu ≡ indication_of i ∷ []) (λ pdvs. indications pdu ≡ map presentation_data pdvs) }
    ensures comes { IfOk result (λ i. Comes (indication_of i)) }
{
    match pdu {
        Pdu::Data(pdvs) => Err(pdvs),
        Pdu::AssociateRq(request) => Ok(UlIndication::AssociateRq(request)),
        Pdu::AssociateAc(accept) => Ok(UlIndication::AssociateAc(accept)),
        Pdu::AssociateRj { .. } => Ok(UlIndication::Event(UlEvent::AssociateRj)),
        Pdu::ReleaseRq => Ok(UlIndication::Event(UlEvent::ReleaseRq)),
        Pdu::ReleaseRp => Ok(UlIndication::Event(UlEvent::ReleaseRp)),
        Pdu::Abort { .. } => Ok(UlIndication::Event(UlEvent::Abort)),
    }
}

/// Processes a PDU.
///
/// Errors: a failed write; out of memory.
fn process_pdu<A: Allocator + Copy, E: Environment<A>, P: Party<A>>(
    party: &mut P,
    environment: &mut E,
    buffer: &mut Vec<u8, A>,
    pdu: Pdu<A>,
) -> Result<(), SessionFault>
    requires ready { P.is_ready party.old }
    requires spelled { (bytes : List ℕ) × SpellsPdu bytes pdu }
    ensures performed { Performed (Happens (P.side (P.setup party.old))) (indications pdu) (P.view party.old) (P.view party.new) (E.world environment.old) (E.world environment.new) result }
    ensures ready { OnOk result (P.is_ready party.new) }
    ensures setup { P.setup party.new ≡ P.setup party.old }
    ensures names { E.names environment.new ≡ E.names environment.old }
{
    match indication_by(pdu) {
        Ok(indication) => perform(party, environment, buffer, &indication),
        Err(pdvs) => process_fragments(party, environment, buffer, pdvs),
    }
}

/// Processes bytes that are not a PDU.
///
/// Errors: a failed write; out of memory.
#[cold]
fn process_bad<A: Allocator + Copy, E: Environment<A>, P: Party<A>>(
    party: &mut P,
    environment: &mut E,
    buffer: &mut Vec<u8, A>,
    fault: PduFault,
) -> Result<(), SessionFault>
    requires ready { P.is_ready party.old }
    ensures performed { Performed (Happens (P.side (P.setup party.old))) (brings (bad fault)) (P.view party.old) (P.view party.new) (E.world environment.old) (E.world environment.new) result }
    ensures ready { OnOk result (P.is_ready party.new) }
    ensures setup { P.setup party.new ≡ P.setup party.old }
    ensures names { E.names environment.new ≡ E.names environment.old }
{
    let indication = UlIndication::InvalidPdu(fault);
    perform(party, environment, buffer, &indication)
}

/// Processes the end of the input.
///
/// Errors: a failed write; out of memory.
#[cold]
fn process_close<A: Allocator + Copy, E: Environment<A>, P: Party<A>>(
    party: &mut P,
    environment: &mut E,
    buffer: &mut Vec<u8, A>,
) -> Result<(), SessionFault>
    requires ready { P.is_ready party.old }
    ensures performed { Performed (Happens (P.side (P.setup party.old))) (brings closed) (P.view party.old) (P.view party.new) (E.world environment.old) (E.world environment.new) result }
    ensures ready { OnOk result (P.is_ready party.new) }
    ensures setup { P.setup party.new ≡ P.setup party.old }
    ensures names { E.names environment.new ≡ E.names environment.old }
{
    let indication = UlIndication::Event(UlEvent::TransportClosed);
    perform(party, environment, buffer, &indication)
}

/// Processes a PDU of the buffer that could not be read: its bytes are not a PDU, or memory ran out.
///
/// Errors: a failed write; out of memory.
#[cold]
fn process_fault<A: Allocator + Copy, E: Environment<A>, P: Party<A>>(
    party: &mut P,
    environment: &mut E,
    buffer: &mut Vec<u8, A>,
    fault: PduFault,
) -> Result<(), SessionFault>
    requires ready { P.is_ready party.old }
    ensures turn { (now : Input) → (input : List ℕ) → IsComplete input → IsFault A input fault → IsTurn (P.side (P.setup party.old)) (P.view party.old) (P.view party.new) now input (E.world environment.old) (E.world environment.new) result }
    ensures ready { OnOk result (P.is_ready party.new) }
    ensures setup { P.setup party.new ≡ P.setup party.old }
    ensures names { E.names environment.new ≡ E.names environment.old }
{
    match fault {
        PduFault::Memory => Err(SessionFault::Memory),
        _ => process_bad(party, environment, buffer, fault),
    }
}

/// Processes the PDU whose bytes the buffer holds, of any type.
///
/// Errors: a failed write; out of memory.
#[cold]
fn process_any<A: Allocator + Copy, E: Environment<A>, P: Party<A>>(
    party: &mut P,
    environment: &mut E,
    buffer: &mut Vec<u8, A>,
) -> Result<(), SessionFault>
    requires ready { P.is_ready party.old }
    requires complete { IsComplete buffer.old.items }
    ensures turn { (now : Input) → IsTurn (P.side (P.setup party.old)) (P.view party.old) (P.view party.new) now buffer.old.items (E.world environment.old) (E.world environment.new) result }
    ensures ready { OnOk result (P.is_ready party.new) }
    ensures setup { P.setup party.new ≡ P.setup party.old }
    ensures names { E.names environment.new ≡ E.names environment.old }
{
    let read = read_pdu(*buffer.allocator(), buffer.as_slice());
    trim(buffer);
    match read {
        Ok((pdu, _)) => process_pdu(party, environment, buffer, pdu),
        Err(fault) => process_fault(party, environment, buffer, fault),
    }
}

/// Processes the PDU whose bytes the buffer holds. Most are P-DATA-TFs, which are read by themselves: a function clears
/// the room of all its values before it begins, and that of a PDU of any type is large.
///
/// Errors: a failed write; out of memory.
fn process_whole<A: Allocator + Copy, E: Environment<A>, P: Party<A>>(
    party: &mut P,
    environment: &mut E,
    buffer: &mut Vec<u8, A>,
) -> Result<(), SessionFault>
    requires ready { P.is_ready party.old }
    requires complete { IsComplete buffer.old.items }
    ensures turn { (now : Input) → IsTurn (P.side (P.setup party.old)) (P.view party.old) (P.view party.new) now buffer.old.items (E.world environment.old) (E.world environment.new) result }
    ensures ready { OnOk result (P.is_ready party.new) }
    ensures setup { P.setup party.new ≡ P.setup party.old }
    ensures names { E.names environment.new ≡ E.names environment.old }
{
    match read_data(*buffer.allocator(), buffer.as_slice()) {
        Ok(Some((pdvs, _))) => {
            trim(buffer);
            process_fragments(party, environment, buffer, pdvs)
        }
        Ok(None) => process_any(party, environment, buffer),
        Err(fault) => process_fault(party, environment, buffer, fault),
    }
}

/// Reads the next PDU, or the end of the input, and processes it.
///
/// Errors: Read if a read failed or the input ended inside a PDU; a failed write; out of memory.
fn process_next<A: Allocator + Copy, R: Read, E: Environment<A>, P: Party<A>>(
    party: &mut P,
    reader: &mut WatchedReader<R>,
    environment: &mut E,
    buffer: &mut Vec<u8, A>,
) -> Result<(), SessionFault>
    requires ready { P.is_ready party.old }
    ensures one_turn { (input : List ℕ) × Consumes reader.old.left reader.new.left input
        × IsTurn (P.side (P.setup party.old)) (P.view party.old) (P.view party.new) reader.new input (E.world environment.old) (E.world environment.new) result }
    ensures ready { OnOk result (P.is_ready party.new) }
    ensures setup { P.setup party.new ≡ P.setup party.old }
    ensures names { E.names environment.new ≡ E.names environment.old }
{
    match read_one(reader, buffer) {
        Ok(PduRead::Whole) => process_whole(party, environment, buffer),
        Ok(PduRead::Bad(fault)) => process_bad(party, environment, buffer, fault),
        Ok(PduRead::Closed) => process_close(party, environment, buffer),
        Ok(PduRead::Cut | PduRead::Failed) => Err(SessionFault::Read),
        Err(fault) => Err(fault),
    }
}

/// Drives a party over an open transport connection (PS3.8 section 9.2), until the association has ended or `turns` PDUs
/// were read.
///
/// Errors: Read if a read failed or the input ended inside a PDU; Write if a write failed; Turns if `turns` PDUs were read
/// and the association has not ended; Memory if memory ran out.
pub(crate) fn drive<A: Allocator + Copy, R: Read, E: Environment<A>, P: Party<A>>(
    alloc: A,
    party: &mut P,
    reader: &mut WatchedReader<R>,
    environment: &mut E,
    turns: u64,
) -> Result<End, SessionFault>
    requires start { P.view party.old ≡ P.start }
    requires ready { P.is_ready party.old }
    ensures session { (input : List ℕ) × Consumes reader.old.left reader.new.left input
        × IsSession (P.side (P.setup party.old)) P.ending P.start turns reader.new input (E.world environment.old) (E.world environment.new) result }
    ensures names { E.names environment.new ≡ E.names environment.old }
{
    party.begin(alloc, environment)?;
    let mut buffer = Vec::new(alloc);
    let mut left = turns;
    while left > 0 {
        process_next(party, reader, environment, &mut buffer)?;
        if let Some(end) = party.end() {
            return Ok(end);
        }
        left -= 1;
    }
    Err(SessionFault::Turns)
}
