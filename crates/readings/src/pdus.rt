//! PDUs: what they say, and how they are written again.

ghost use Rattle.ups_pdu.specs.Fits.{Fits};

use crate::lines::{line_of, no_row, out_of_memory};
use fixtures::{add_bytes, read_short};
use std::alloc::{AllocError, Global};
use std::io;
use ups_pdu::*;

/// Returns a line with a fault.
///
/// Errors: lack of memory, also if that is the fault.
pub(crate) fn fault_line(alloc: Global, fault: PduFault) -> io::Result<String> {
    if fault == PduFault::Memory {
        return Err(out_of_memory());
    }
    let told = format!(in alloc; "{fault:?}")?;
    line_of(alloc, told.as_str(), b"")
}

/// Returns a line with the number of bytes that follow a header.
///
/// Errors: InvalidData if the header is not six bytes long; lack of memory.
pub(crate) fn header_line(alloc: Global, bytes: &[u8]) -> io::Result<String> {
    if bytes.len() != 6 {
        return Err(no_row());
    }
    match body_len(bytes) {
        Ok(len) => {
            let told = format!(in alloc; "{len}")?;
            line_of(alloc, told.as_str(), b"")
        }
        Err(fault) => fault_line(alloc, fault),
    }
}

/// Returns a line with the PDU at the front of bytes and the number of bytes it takes, and the PDU written again.
///
/// Errors: lack of memory.
pub(crate) fn pdu_line(alloc: Global, bytes: &[u8]) -> io::Result<String> {
    match told_and_written(alloc, bytes) {
        Ok((told, written)) => line_of(alloc, told.as_str(), &written),
        Err(fault) => fault_line(alloc, fault),
    }
}

/// Returns what the PDU at the front of bytes says, and the PDU written again. One too long for that counts as TooLong.
fn told_and_written(alloc: Global, bytes: &[u8]) -> Result<(String, Vec<u8>), PduFault> {
    let told = told_of(alloc, bytes)?;
    Ok((told, written(alloc, bytes)?))
}

/// Returns what the PDU at the front of bytes says.
fn told_of(alloc: Global, bytes: &[u8]) -> Result<String, PduFault> {
    let (pdu, taken) = read_pdu(alloc, bytes)?;
    described(alloc, &pdu, taken)
}

/// Writes again the PDU at the front of bytes.
fn written(alloc: Global, bytes: &[u8]) -> Result<Vec<u8>, PduFault> {
    let pdu = read_short(alloc, bytes)?;
    encoded(alloc, &pdu)
}

/// Returns an encoded PDU.
pub(crate) fn encoded(alloc: Global, pdu: &Pdu<Global>) -> Result<Vec<u8>, PduFault>
    requires { Fits pdu.now }
{
    Ok(write_pdu(alloc, pdu)?)
}

/// Returns what a PDU says and the number of bytes it takes, as a text.
fn described(alloc: Global, pdu: &Pdu<Global>, taken: usize) -> Result<String, PduFault> {
    let kind = pdu.kind();
    let mut text = format!(in alloc; "{kind:?} of {taken} bytes:")?;
    add_body(alloc, &mut text, pdu)?;
    Ok(text)
}

/// Adds what a PDU says.
fn add_body(alloc: Global, text: &mut String, pdu: &Pdu<Global>) -> Result<(), AllocError> {
    match pdu {
        Pdu::AssociateRq(request) => add_request(text, request),
        Pdu::AssociateAc(answer) => add_answer(text, answer),
        Pdu::AssociateRj {
            result,
            source,
            reason,
        } => write!(text, " result {result} source {source} reason {reason}"),
        Pdu::Data(pdvs) => add_fragments(alloc, text, pdvs.as_slice()),
        Pdu::ReleaseRq | Pdu::ReleaseRp => Ok(()),
        Pdu::Abort { source, reason } => write!(text, " source {source} reason {reason}"),
    }
}

/// Adds a word and bytes, with `_` for a space or a NUL.
fn add_word(text: &mut String, word: &str, bytes: &[u8]) -> Result<(), AllocError> {
    text.push_str(word)?;
    add_bytes(text, bytes)
}

/// Adds what an association request says.
fn add_request(text: &mut String, request: &AssociateRq<Global>) -> Result<(), AllocError> {
    write!(text, " version {}", request.protocol_version)?;
    add_word(text, " called ", request.called.as_slice())?;
    add_word(text, " calling ", request.calling.as_slice())?;
    add_word(
        text,
        " application ",
        request.application_context.as_bytes(),
    )?;
    add_proposed(text, request.contexts.as_slice())?;
    add_user(text, &request.user_information)
}

/// Adds what the acceptance of an association says.
fn add_answer(text: &mut String, answer: &AssociateAc<Global>) -> Result<(), AllocError> {
    write!(text, " version {}", answer.protocol_version)?;
    add_word(text, " called ", answer.called.as_slice())?;
    add_word(text, " calling ", answer.calling.as_slice())?;
    add_word(text, " application ", answer.application_context.as_bytes())?;
    add_answered(text, answer.contexts.as_slice())?;
    add_user(text, &answer.user_information)
}

/// Adds the proposed presentation contexts: the abstract syntax and the transfer syntaxes of each.
fn add_proposed(text: &mut String, contexts: &[ProposedContext<Global>]) -> Result<(), AllocError> {
    for context in contexts {
        add_context(text, context)?;
    }
    Ok(())
}

/// Adds a proposed presentation context.
fn add_context(text: &mut String, context: &ProposedContext<Global>) -> Result<(), AllocError> {
    write!(text, " context {}", context.id)?;
    add_word(text, " ", context.abstract_syntax.as_bytes())?;
    add_syntaxes(text, context.transfer_syntaxes.as_slice())
}

/// Adds transfer syntaxes.
fn add_syntaxes(text: &mut String, syntaxes: &[Uid]) -> Result<(), AllocError> {
    for syntax in syntaxes {
        add_word(text, " ", syntax.as_bytes())?;
    }
    Ok(())
}

/// Adds the answered presentation contexts: the transfer syntax of each, or the reason for refusing it.
fn add_answered(text: &mut String, contexts: &[AnsweredContext]) -> Result<(), AllocError> {
    for context in contexts {
        write!(text, " context {}", context.id)?;
        match context.answer {
            ContextAnswer::Accepted(syntax) => add_word(text, " accepted ", syntax.as_bytes())?,
            ContextAnswer::Refused(reason) => write!(text, " refused {reason}")?,
        }
    }
    Ok(())
}

/// Adds user information, leaving out what is absent.
fn add_user(text: &mut String, user: &UserInformation<Global>) -> Result<(), AllocError> {
    write!(text, " maximum {}", user.maximum_length)?;
    if let Some(class) = &user.implementation_class {
        add_word(text, " class ", class.as_bytes())?;
    }
    if let Some(window) = &user.asynchronous_window {
        write!(text, " window {} {}", window.invoked, window.performed)?;
    }
    add_roles(text, user.roles.as_slice())?;
    if let Some(version) = &user.implementation_version {
        add_word(text, " implementation ", version.as_slice())?;
    }
    Ok(())
}

/// Adds roles: the SOP class of each, and whether it is accepted as SCU and as SCP.
fn add_roles(text: &mut String, roles: &[Role]) -> Result<(), AllocError> {
    for role in roles {
        add_word(text, " role ", role.sop_class.as_bytes())?;
        write!(text, " scu {} scp {}", role.scu, role.scp)?;
    }
    Ok(())
}

/// Adds fragments.
fn add_fragments(alloc: Global, text: &mut String, pdvs: &[Pdv<Global>]) -> Result<(), AllocError> {
    for pdv in pdvs {
        add_fragment(alloc, text, pdv)?;
    }
    Ok(())
}

/// Adds a fragment: its context, its kind, whether it is the last, and its bytes in hex digits.
fn add_fragment(alloc: Global, text: &mut String, pdv: &Pdv<Global>) -> Result<(), AllocError> {
    let kind = if pdv.command { "command" } else { "data" };
    let last = if pdv.last { "last" } else { "more" };
    let digits = hex::encode(alloc, pdv.bytes.as_slice())?;
    write!(text, " context {} {kind} {last} <{digits}>", pdv.context)
}
