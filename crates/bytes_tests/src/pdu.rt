ghost use Rattle.ups_pdu.specs.Fits.{Fits};

use fixtures::vectors::{ACCEPTED, CREATE, REQUEST};
use fixtures::{Refusing, bytes_of, read_short};
use std::alloc::{Allocator, Global};
use std::test::*;
use ups_pdu::*;

/// Returns how many bytes of a PDU are read, or why none are.
fn taken<A: Allocator + Copy>(alloc: A, bytes: &[u8]) -> Result<usize, PduFault> {
    Ok(read_pdu(alloc, bytes)?.1)
}

/// Reads with each growth refused in turn, and returns their number.
fn growths_of_reading(heap: &Refusing<Global>, bytes: &[u8]) -> Result<u64, Fail> {
    for growth in 1..100 {
        heap.refuse(growth);
        match taken(heap, bytes) {
            Err(PduFault::Memory) => {}
            Ok(len) if len == bytes.len() => return Ok(growth - 1),
            _ => return Err("neither the PDU nor lack of memory".into()),
        }
    }
    Err("no end of growths".into())
}

/// Returns whether a PDU is encoded as these bytes, or None if memory runs out.
fn is_written<A: Allocator + Copy>(alloc: A, pdu: &Pdu<A>, bytes: &[u8]) -> Option<bool>
    requires { Fits pdu.now }
{
    let written = write_pdu(alloc, pdu).ok()?;
    Some(written.as_slice() == bytes)
}

/// Writes with each growth refused in turn, and returns their number.
fn growths_of_writing<A: Allocator + Copy>(
    heap: &Refusing<Global>,
    alloc: A,
    pdu: &Pdu<A>,
    bytes: &[u8],
) -> Result<u64, Fail>
    requires { Fits pdu.now }
{
    for growth in 1..100 {
        heap.refuse(growth);
        match is_written(alloc, pdu, bytes) {
            None => {}
            Some(true) => return Ok(growth - 1),
            Some(false) => return Err("other bytes".into()),
        }
    }
    Err("no end of growths".into())
}

/// Reads, then writes with each growth refused in turn, and returns their number.
fn growths_of_writing_again<A: Allocator + Copy>(
    heap: &Refusing<Global>,
    alloc: A,
    bytes: &[u8],
) -> Result<u64, Fail> {
    let pdu = read_short(alloc, bytes)?;
    growths_of_writing(heap, alloc, &pdu, bytes)
}

/// Returns whether the PDU of these bytes takes memory, to read and to write.
fn takes_memory(heap: &Refusing<Global>, bytes: &[u8]) -> Result<bool, Fail> {
    let reading = growths_of_reading(heap, bytes)?;
    heap.refuse(0);
    Ok(reading > 0 && growths_of_writing_again(heap, heap, bytes)? > 0)
}

/// Fails if the PDU of a text takes no memory to read, or none to write.
fn check_growths(rt: &impl AllocGlobal, text: &str) -> Result<(), Fail> {
    let bytes = bytes_of(rt, text)?;
    let heap = Refusing::new(rt.alloc());
    if !takes_memory(&heap, &bytes)? {
        return Err(text.into());
    }
    Ok(())
}

#[test]
fn each_refused_growth_is_memory(rt: HostRuntime) -> Result<(), Fail> {
    check_growths(&rt, REQUEST)?;
    check_growths(&rt, ACCEPTED)?;
    check_growths(&rt, CREATE)
}

/// Returns the number of PDVs and of bytes that are read of a P-DATA-TF, or None of another PDU.
fn read_as_data<A: Allocator + Copy>(
    alloc: A,
    bytes: &[u8],
) -> Result<Option<(usize, usize)>, PduFault> {
    match read_data(alloc, bytes)? {
        Some((pdvs, len)) => Ok(Some((pdvs.as_slice().len(), len))),
        None => Ok(None),
    }
}

/// Returns what is read of the PDU of a text as a P-DATA-TF.
fn as_data(rt: &impl AllocGlobal, text: &str) -> Result<Option<(usize, usize)>, Fail> {
    let bytes = bytes_of(rt, text)?;
    Ok(read_as_data(rt.alloc(), &bytes)?)
}

#[test]
fn only_a_p_data_tf_is_read_as_data(rt: HostRuntime) -> Result<(), Fail> {
    assert_eq!(rt; as_data(&rt, CREATE)?, Some((1, 104)));
    assert_eq!(rt; as_data(&rt, REQUEST)?, None);
    assert_eq!(rt; as_data(&rt, "05 00 00000004 00000000")?, None);
    Ok(())
}

#[test]
fn a_refused_growth_of_data_is_memory(rt: HostRuntime) -> Result<(), Fail> {
    let bytes = bytes_of(&rt, CREATE)?;
    let heap = Refusing::new(rt.alloc());
    heap.refuse(1);
    assert_eq!(rt; read_as_data(&heap, &bytes), Err(PduFault::Memory));
    Ok(())
}
