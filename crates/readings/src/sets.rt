//! Data sets: what they hold, and how they are written again.

use crate::lines::{line_of, no_row, out_of_memory};
use fixtures::described;
use std::alloc::{AllocError, Global};
use std::io;
use ups_dataset::{DataSet, Element, SetFault, read_set, write_set};
use ups_pdu::TransferSyntax;

/// Returns a line with the set encoded in one transfer syntax, and the set written in another.
///
/// Errors: lack of memory.
pub(crate) fn set_line(
    rt: &impl AllocGlobal,
    from: TransferSyntax,
    to: TransferSyntax,
    bytes: &[u8],
) -> io::Result<String> {
    match read_set(rt.alloc(), from, bytes) {
        Ok(set) => {
            let told = told_of(rt, &set)?;
            let written = written(rt.alloc(), to, &set)?;
            line_of(rt.alloc(), told.as_str(), &written)
        }
        Err(fault) => fault_line(rt.alloc(), fault),
    }
}

/// Returns a line with a fault.
///
/// Errors: lack of memory, also if that is the fault.
fn fault_line(alloc: Global, fault: SetFault) -> io::Result<String> {
    if fault == SetFault::Memory {
        return Err(out_of_memory());
    }
    let told = format!(in alloc; "{fault:?}")?;
    line_of(alloc, told.as_str(), b"")
}

/// Returns the number of bytes of a set in Explicit VR Little Endian, how deep its items nest, and what it holds.
fn told_of(rt: &impl AllocGlobal, set: &DataSet<Global>) -> Result<String, AllocError> {
    let text = described(set, rt)?;
    let depth = depth_of(set.elements());
    format!(in rt.alloc();
        "{} bytes, {depth} deep: {}",
        set.size(),
        text.as_str().trim_end()
    )
}

/// Returns how deep the items of elements nest.
fn depth_of(elements: &[Element<Global>]) -> u8 {
    let mut depth = 0u8;
    for element in elements {
        depth = depth.max(element.value.depth());
    }
    depth
}

/// Writes a set.
///
/// Errors: InvalidData if it is too long to be written; lack of memory.
fn written(alloc: Global, syntax: TransferSyntax, set: &DataSet<Global>) -> io::Result<Vec<u8>> {
    if set.size() >= 0x1_0000_0000 {
        return Err(no_row());
    }
    Ok(write_set(alloc, syntax, set)?)
}
