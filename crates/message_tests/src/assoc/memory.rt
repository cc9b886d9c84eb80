use super::associations::{request_in, this_server};
use super::fragments::{assembler_on, context, pdv};
use crate::rows::CREATE;
use fixtures::vectors::REQUEST;
use fixtures::{Refusing, bytes_of};
use std::alloc::{Allocator, Global};
use std::test::*;
use ups_assoc::*;
use ups_pdu::{AssociateRq, Pdu, Pdv, read_pdu};

type Heap<'a> = &'a Refusing<Global>;

/// The maximum number of growths that a test refuses in turn.
const GROWTHS: u64 = 100;

/// Returns whether a request is accepted.
fn is_accepted<A: Allocator + Copy>(
    alloc: A,
    config: &Config,
    request: &AssociateRq<A>,
) -> Result<bool, AssocFault> {
    match negotiate(alloc, config, request)? {
        Outcome::Accept(_) => Ok(true),
        Outcome::Reject(_) => Ok(false),
    }
}

/// Returns the number of the growth at which a request is accepted; each before it is refused, which is lack of memory.
fn growth_of_negotiating<A: Allocator + Copy>(
    heap: Heap<'_>,
    alloc: A,
    config: &Config,
    request: &AssociateRq<A>,
) -> Result<u64, Fail> {
    for growth in 1..GROWTHS {
        heap.refuse(growth);
        match is_accepted(alloc, config, request) {
            Err(AssocFault::Memory) => (),
            Ok(true) => return Ok(growth),
            _ => return Err("a rejection, or another fault".into()),
        }
    }
    Err("no end of growths".into())
}

/// The same for the request that a PDU is, and this server.
fn growth_of_answering<A: Allocator + Copy>(
    heap: Heap<'_>,
    alloc: A,
    pdu: &Pdu<A>,
) -> Result<u64, Fail> {
    growth_of_negotiating(heap, alloc, &this_server()?, request_in(pdu)?)
}

/// The same for the request encoded in the bytes.
fn growth_of_accepting<A: Allocator + Copy>(
    heap: Heap<'_>,
    alloc: A,
    bytes: &[u8],
) -> Result<u64, Fail> {
    let (pdu, _) = read_pdu(alloc, bytes)?;
    growth_of_answering(heap, alloc, &pdu)
}

#[test]
fn each_refused_growth_of_negotiating_is_memory(rt: HostRuntime) -> Result<(), Fail> {
    let heap = Refusing::new(rt.alloc());
    let bytes = bytes_of(&rt, REQUEST)?;
    assert!(rt; growth_of_accepting(&heap, &heap, &bytes)? > 3);
    Ok(())
}

/// The same for a new assembler.
fn growth_of_an_assembler(heap: Heap<'_>) -> Result<u64, Fail> {
    for growth in 1..GROWTHS {
        heap.refuse(growth);
        match Assembler::new(heap, &context(1)).err() {
            Some(AssocFault::Memory) => (),
            Some(_) => return Err("another fault".into()),
            None => return Ok(growth),
        }
    }
    Err("no end of growths".into())
}

#[test]
fn each_refused_growth_of_a_new_assembler_is_memory(rt: HostRuntime) -> Result<(), Fail> {
    let heap = Refusing::new(rt.alloc());
    assert!(rt; growth_of_an_assembler(&heap)? > 1);
    Ok(())
}

/// Adds a fragment with this message control header.
fn add<A: Allocator + Copy>(
    alloc: A,
    fragments: &mut Vec<Pdv<A>, A>,
    control: u8,
    bytes: &[u8],
) -> Result<(), Fail> {
    Ok(fragments.push(pdv(alloc, 1, control, bytes)?)?)
}

/// Returns the four fragments of a message. Only the last can need memory, because it follows one of the same data set.
fn fragments_on<A: Allocator + Copy>(alloc: A, command: &[u8]) -> Result<Vec<Pdv<A>, A>, Fail> {
    let mut fragments = Vec::new(alloc);
    add(alloc, &mut fragments, 1, command)?;
    add(alloc, &mut fragments, 3, b"")?;
    add(alloc, &mut fragments, 0, b"12")?;
    add(alloc, &mut fragments, 2, command)?;
    Ok(fragments)
}

/// Returns whether a fragment completes a message.
fn is_whole<A: Allocator + Copy>(
    assembler: &mut Assembler<A>,
    fragment: Pdv<A>,
) -> Result<bool, AssocFault> {
    Ok(assembler.feed(fragment)?.is_some())
}

/// What came of the fragments so far.
#[derive(Clone, Copy)]
enum Course {
    /// Each is taken, and no message is complete.
    More,
    /// A message is complete.
    Found,
    /// One is not taken, for lack of memory.
    Failed,
}

/// Returns what comes of one more fragment. The first fault must be lack of memory; after it each fragment must be
/// answered with `Failed`, and after a message none may follow.
fn course_after<A: Allocator + Copy>(
    assembler: &mut Assembler<A>,
    fragment: Pdv<A>,
    before: Course,
) -> Result<Course, Fail> {
    match (is_whole(assembler, fragment), before) {
        (Ok(false), Course::More) => Ok(Course::More),
        (Ok(true), Course::More) => Ok(Course::Found),
        (Err(AssocFault::Memory), Course::More) => Ok(Course::Failed),
        (Err(AssocFault::Failed), Course::Failed) => Ok(Course::Failed),
        _ => Err("another answer".into()),
    }
}

/// Returns what comes of fragments.
fn course_of<A: Allocator + Copy>(
    assembler: &mut Assembler<A>,
    fragments: Vec<Pdv<A>, A>,
) -> Result<Course, Fail> {
    let mut course = Course::More;
    for fragment in fragments {
        course = course_after(assembler, fragment, course)?;
    }
    Ok(course)
}

/// Returns what comes of the four fragments while the growth with this number is refused.
fn course_without(heap: Heap<'_>, command: &[u8], growth: u64) -> Result<Course, Fail> {
    let fragments = fragments_on(heap, command)?;
    let mut assembler = assembler_on(heap, 1)?;
    heap.refuse(growth);
    course_of(&mut assembler, fragments)
}

/// Returns the number of the growth at which the fragments are a message; each before it is refused.
fn growth_of_feeding(heap: Heap<'_>, command: &[u8]) -> Result<u64, Fail> {
    for growth in 1..GROWTHS {
        match course_without(heap, command, growth)? {
            Course::Failed => (),
            Course::Found => return Ok(growth),
            Course::More => return Err("neither a message nor a fault".into()),
        }
    }
    Err("no end of growths".into())
}

#[test]
fn each_refused_growth_of_feeding_is_memory_for_ever(rt: HostRuntime) -> Result<(), Fail> {
    let heap = Refusing::new(rt.alloc());
    let command = bytes_of(&rt, CREATE)?;
    assert!(rt; growth_of_feeding(&heap, &command)? > 1);
    Ok(())
}

/// Returns whether a message is cut into four PDUs.
fn is_cut<A: Allocator + Copy>(alloc: A, command: &[u8]) -> Result<bool, AssocFault> {
    let pdus = cut(alloc, 1, command, Some(b"12"), 40)?;
    Ok(pdus.len() == 4)
}

/// Returns the number of the growth at which a message is cut into four PDUs; each before it is refused, which is lack
/// of memory.
fn growth_of_cutting(heap: Heap<'_>, command: &[u8]) -> Result<u64, Fail> {
    for growth in 1..GROWTHS {
        heap.refuse(growth);
        match is_cut(heap, command) {
            Err(AssocFault::Memory) => (),
            Ok(true) => return Ok(growth),
            _ => return Err("other pieces, or another fault".into()),
        }
    }
    Err("no end of growths".into())
}

#[test]
fn each_refused_growth_of_cutting_is_memory(rt: HostRuntime) -> Result<(), Fail> {
    let heap = Refusing::new(rt.alloc());
    let command = bytes_of(&rt, CREATE)?;
    assert!(rt; growth_of_cutting(&heap, &command)? > 8);
    Ok(())
}
