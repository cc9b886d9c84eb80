//! Reads a PDU from its bytes, and prints what it is.
#![tactic(auto)]

use std::alloc::Global;
use std::io;
use ups_pdu::{AssociateRq, Pdu, ProposedContext, read_pdu, without_padding};

/// An A-ASSOCIATE-RQ (PS3.8 section 9.3.2): SCHED1 asks UPSD for Verification in Implicit VR Little Endian.
const REQUEST: &[u8] = b"\x01\0\0\0\0\x9b\0\x01\0\0UPSD            SCHED1          \
    \0\0\0\0\0\0\0\0\0\0\0\0\0\0\0\0\0\0\0\0\0\0\0\0\0\0\0\0\0\0\0\0\
    \x10\0\0\x15\
    1.2.840.10008.3.1.1.1\
    \x20\0\0\x2e\x01\0\0\0\x30\0\0\x11\
    1.2.840.10008.1.1\
    \x40\0\0\x11\
    1.2.840.10008.1.2\
    \x50\0\0\x08\x51\0\0\x04\0\0\x40\0";

fn main(rt: HostRuntime) -> anyhow::Result<()> {
    print_pdu(&rt, REQUEST)?;
    print!(rt; "without the last byte: ")?;
    print_pdu(&rt, &REQUEST[..160])?;
    Ok(())
}

/// Prints what the PDU at the front of bytes is, or why there is none.
fn print_pdu<R: Print + AllocGlobal>(rt: &R, bytes: &[u8]) -> io::Result<()> {
    match read_pdu(rt.alloc(), bytes) {
        Ok((pdu, taken)) => describe(rt, &pdu, taken),
        Err(fault) => println!(rt; "{fault}"),
    }
}

fn describe<R: Print>(rt: &R, pdu: &Pdu<Global>, taken: usize) -> io::Result<()> {
    println!(rt; "{:?} of {taken} bytes", pdu.kind())?;
    match pdu {
        Pdu::AssociateRq(request) => print_request(rt, request),
        _ => Ok(()),
    }
}

/// Prints who asks whom, and for what.
fn print_request<R: Print>(rt: &R, request: &AssociateRq<Global>) -> io::Result<()> {
    let calling = without_padding(&request.calling).escape_ascii();
    let called = without_padding(&request.called).escape_ascii();
    println!(rt; "{calling} calls {called}")?;
    for context in request.contexts.as_slice() {
        print_context(rt, context)?;
    }
    Ok(())
}

fn print_context<R: Print>(rt: &R, context: &ProposedContext<Global>) -> io::Result<()> {
    let class = context.abstract_syntax.as_bytes().escape_ascii();
    println!(rt; "context {} for {class}", context.id)
}
