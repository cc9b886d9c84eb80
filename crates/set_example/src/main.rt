//! Reads a data set from its bytes, and prints its elements.
#![tactic(auto)]

use std::alloc::Global;
use std::io;
use ups_dataset::{Element, Value, read_set};
use ups_pdu::{TransferSyntax, without_padding};

/// Four elements in Explicit VR Little Endian (PS3.5 section 7.1.2). The third is a sequence of one item, which has one
/// element.
const BYTES: &[u8] = b"\x10\0\x10\0PN\x08\0DOE^JANE\
    \x40\0\x05\x40DT\x0e\0\
    20240229120000\
    \x40\0\x18\x40SQ\0\0\x14\0\0\0\xfe\xff\0\xe0\x0c\0\0\0\x08\0\0\x01SH\x04\0READ\
    \x74\0\0\x10CS\x0a\0SCHEDULED ";

fn main(rt: HostRuntime) -> anyhow::Result<()> {
    let set = read_set(rt.alloc(), TransferSyntax::Explicit, BYTES)?;
    for element in set.elements() {
        print_element(&rt, element)?;
    }
    Ok(())
}

fn print_element<R: Print>(rt: &R, element: &Element<Global>) -> io::Result<()> {
    let tag = element.tag;
    print!(rt; "({:04X},{:04X}) ", tag.group, tag.element)?;
    print!(rt; "{} ", element.vr.letters().escape_ascii())?;
    print_value(rt, &element.value)
}

fn print_value<R: Print>(rt: &R, value: &Value<Global>) -> io::Result<()> {
    match value {
        Value::Bytes(bytes) => {
            let text = without_padding(bytes.as_slice()).escape_ascii();
            println!(rt; "{text}")
        }
        Value::Items(items) => println!(rt; "{} item(s)", items.len()),
    }
}
