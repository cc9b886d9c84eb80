//! Association requests and the answers to them.

ghost use Rattle.std.specs.Prelude.{List, ℕ, IfOk};
ghost use Rattle.ups_pdu.specs.declared.pdu.Pdu.TheVariants.{AssociateRq as RequestPdu};
ghost use Rattle.ups_pdu.specs.Fits.{Fits};
ghost use Rattle.ups_pdu.specs.Spelling.{SpellsPdu};
ghost use Rattle.ups_assoc.specs.Negotiation.{IsWritable};

use crate::lines::line_of;
use crate::pdus::{encoded, fault_line};
use fixtures::add_bytes;
use std::alloc::{AllocError, Global};
use std::io;
use ups_assoc::{Config, Outcome, negotiate};
use ups_pdu::{Ae, AssociateRq, Pdu, PduFault, read_pdu};

/// Returns the outcome of an association request to the application entity UPSD, and the answer.
///
/// Errors: lack of memory.
pub(crate) fn request_line(alloc: Global, bytes: &[u8]) -> io::Result<String> {
    match outcome_and_answer(alloc, bytes) {
        Ok((told, answer)) => line_of(alloc, told.as_str(), &answer),
        Err(fault) => fault_line(alloc, fault),
    }
}

/// Returns the outcome of an association request as a text, and the answer. Any other PDU counts as BadItem.
fn outcome_and_answer(alloc: Global, bytes: &[u8]) -> Result<(String, Vec<u8>), PduFault> {
    let told = told_of(alloc, bytes)?;
    Ok((told, answer_to(alloc, bytes)?))
}

/// Returns the outcome of the encoded association request, as a text.
fn told_of(alloc: Global, bytes: &[u8]) -> Result<String, PduFault> {
    let outcome = outcome_of(alloc, bytes)?;
    Ok(described(alloc, &outcome)?)
}

/// Returns the encoded answer to the encoded association request.
fn answer_to(alloc: Global, bytes: &[u8]) -> Result<Vec<u8>, PduFault> {
    let answer = answer_of(outcome_of(alloc, bytes)?);
    encoded(alloc, &answer)
}

/// Returns the outcome of the encoded association request.
fn outcome_of(alloc: Global, bytes: &[u8]) -> Result<Outcome<Global>, PduFault>
    ensures { IfOk result IsWritable }
{
    let (pdu, _) = read_pdu(alloc, bytes)?;
    match pdu {
        Pdu::AssociateRq(request) => outcome_for(alloc, &request),
        _ => Err(PduFault::BadItem),
    }
}

/// Returns the outcome of an association request.
fn outcome_for(alloc: Global, request: &AssociateRq<Global>) -> Result<Outcome<Global>, PduFault>
    ensures { (bytes : List ℕ) → SpellsPdu bytes (RequestPdu request.now) → IfOk result IsWritable }
{
    let config = this_server()?;
    match negotiate(alloc, &config, request) {
        Ok(outcome) => Ok(outcome),
        Err(_) => Err(PduFault::Memory),
    }
}

/// Returns the configuration of the application entity UPSD, in UTC.
fn this_server() -> Result<Config, PduFault> {
    match Ae::of(b"UPSD") {
        Some(ae) => Ok(Config { ae, offset: 0 }),
        None => Err(PduFault::BadItem),
    }
}

/// Returns an outcome as a text: the title, the maximum length and the contexts of an acceptance, or the rejection.
fn described(alloc: Global, outcome: &Outcome<Global>) -> Result<String, AllocError> {
    match outcome {
        Outcome::Accept(accepted) => {
            let mut text = String::new(alloc);
            add_bytes(&mut text, accepted.ae.as_bytes())?;
            write!(text, " {} {:?}", accepted.max, accepted.contexts.as_slice())?;
            Ok(text)
        }
        Outcome::Reject(rejection) => format!(in alloc; "{rejection:?}"),
    }
}

/// Returns the answer with an outcome.
fn answer_of(outcome: Outcome<Global>) -> Pdu<Global>
    requires { IsWritable outcome }
    ensures { Fits result }
{
    match outcome {
        Outcome::Accept(acceptance) => Pdu::AssociateAc(acceptance.ac),
        Outcome::Reject(rejection) => Pdu::AssociateRj {
            result: rejection.result(),
            source: rejection.source(),
            reason: rejection.reason(),
        },
    }
}
