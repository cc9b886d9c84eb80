//! Command sets when memory is short. What they say is tested by the rows of `rows/command_sets.rows`.

use fixtures::rows::{check, cut, number};
use fixtures::{Refusing, bytes_of};
use std::alloc::Global;
use std::test::Fail;
use ups_dimse::*;

/// Rows of the number of growths that reading a command set takes, and its bytes: only a list of attributes takes
/// memory.
const COMMANDS: &str =
    "0|00000000 04000000 5a000000 00000200 1a000000 PUSH 00000001 02000000 0001 00001001 02000000 0100 00000008 02000000 0100 00000010 08000000 \"1.2.3.4\" 00 00000210 02000000 0100
0|00000000 04000000 64000000 00000200 1a000000 PUSH 00000001 02000000 0081 00002001 02000000 0100 00000008 02000000 0101 00000009 02000000 0000 00000010 08000000 \"1.2.3.4\" 00 00000210 02000000 0100
0|00000000 04000000 50000000 00000200 1a000000 PUSH 00000001 02000000 4001 00001001 02000000 0100 00000008 02000000 0100 00000010 08000000 \"1.2.3.4\" 00
0|00000000 04000000 5a000000 00000200 1a000000 PUSH 00000001 02000000 4081 00002001 02000000 0100 00000008 02000000 0101 00000009 02000000 0000 00000010 08000000 \"1.2.3.4\" 00
0|00000000 04000000 50000000 00000300 1a000000 PUSH 00000001 02000000 1001 00001001 02000000 0200 00000008 02000000 0101 00000110 08000000 \"1.2.3.4\" 00
1|00000000 04000000 60000000 00000300 1a000000 PUSH 00000001 02000000 1001 00001001 02000000 0200 00000008 02000000 0101 00000110 08000000 \"1.2.3.4\" 00 00000510 08000000 74000010 08001800
0|00000000 04000000 5a000000 00000200 1a000000 PUSH 00000001 02000000 1081 00002001 02000000 0200 00000008 02000000 0100 00000009 02000000 0000 00000010 08000000 \"1.2.3.4\" 00
0|00000000 04000000 50000000 00000300 1a000000 PUSH 00000001 02000000 2001 00001001 02000000 0300 00000008 02000000 0100 00000110 08000000 \"1.2.3.4\" 00
0|00000000 04000000 5a000000 00000200 1a000000 PUSH 00000001 02000000 2081 00002001 02000000 0300 00000008 02000000 0101 00000009 02000000 0000 00000010 08000000 \"1.2.3.4\" 00
0|00000000 04000000 5a000000 00000300 1a000000 PUSH 00000001 02000000 3001 00001001 02000000 0400 00000008 02000000 0100 00000110 08000000 \"1.2.3.4\" 00 00000810 02000000 0301
0|00000000 04000000 64000000 00000200 1a000000 PUSH 00000001 02000000 3081 00002001 02000000 0400 00000008 02000000 0101 00000009 02000000 02c3 00000010 08000000 \"1.2.3.4\" 00 00000810 02000000 0301
0|00000000 04000000 38000000 00000200 12000000 VERIFICATION 00 00000001 02000000 3000 00001001 02000000 0700 00000008 02000000 0101
0|00000000 04000000 42000000 00000200 12000000 VERIFICATION 00 00000001 02000000 3080 00002001 02000000 0700 00000008 02000000 0101 00000009 02000000 0000
0|00000000 04000000 4a000000 00000200 1a000000 PULL 00000001 02000000 2000 00001001 02000000 0500 00000007 02000000 0000 00000008 02000000 0100
0|00000000 04000000 4a000000 00000200 1a000000 PULL 00000001 02000000 2000 00001001 02000000 0500 00000007 02000000 0100 00000008 02000000 0100
0|00000000 04000000 4a000000 00000200 1a000000 PULL 00000001 02000000 2000 00001001 02000000 0500 00000007 02000000 ffff 00000008 02000000 0100
0|00000000 04000000 40000000 00000200 1a000000 PULL 00000001 02000000 2000 00001001 02000000 0500 00000008 02000000 0100
0|00000000 04000000 4a000000 00000200 1a000000 PULL 00000001 02000000 2080 00002001 02000000 0500 00000008 02000000 0100 00000009 02000000 00ff
0|00000000 04000000 1e000000 00000001 02000000 ff0f 00002001 02000000 0500 00000008 02000000 0101";

type Heap<'a> = &'a Refusing<Global>;

/// Reads with each growth refused in turn, which is lack of memory; returns the command, and how many were refused.
fn read_in_turn<'a>(heap: Heap<'a>, bytes: &[u8]) -> Result<(Command<Heap<'a>>, u64), Fail> {
    for growth in 1..100u64 {
        heap.refuse(growth);
        let read = read_command(heap, bytes);
        heap.refuse(0);
        match read {
            Ok(command) => return Ok((command, growth - 1)),
            Err(DimseFault::Memory) => (),
            Err(_) => return Err("another fault".into()),
        }
    }
    Err("never read".into())
}

/// Writes with each growth refused in turn; returns whether these bytes were written, and how many growths were
/// refused.
fn write_in_turn<'a>(
    heap: Heap<'a>,
    command: &Command<Heap<'a>>,
    bytes: &[u8],
) -> Result<(bool, u64), Fail> {
    if !command.fits() {
        return Err("too long".into());
    }
    for growth in 1..100u64 {
        heap.refuse(growth);
        let written = write_command(heap, command);
        heap.refuse(0);
        if let Ok(written) = written {
            return Ok((written.as_slice() == bytes, growth - 1));
        }
    }
    Err("never written".into())
}

/// Returns how many growths are refused until bytes are read as a command, and until that is written; and whether the
/// same bytes are written.
fn refused_on(heap: Heap<'_>, bytes: &[u8]) -> Result<(u64, u64, bool), Fail> {
    let (command, reading) = read_in_turn(heap, bytes)?;
    let (same, writing) = write_in_turn(heap, &command, bytes)?;
    Ok((reading, writing, same))
}

/// The same for the bytes of a text.
fn refused_growths(rt: &impl AllocGlobal, digits: &str) -> Result<(u64, u64, bool), Fail> {
    let bytes = bytes_of(rt, digits)?;
    let heap = Refusing::new(rt.alloc());
    refused_on(&heap, &bytes)
}

/// Returns whether a row says how many growths reading its command set takes. Writing it takes one: room for all of it.
fn is_refused_in_turn(rt: &impl AllocGlobal, row: &str) -> Result<bool, Fail> {
    let (growths, digits) = cut(row, "|")?;
    let (reading, writing, is_same) = refused_growths(rt, digits)?;
    Ok(reading == number(growths)? && writing == 1 && is_same)
}

#[test]
fn a_refused_growth_is_want_of_memory(rt: HostRuntime) -> Result<(), Fail> {
    for row in COMMANDS.lines() {
        check(row, is_refused_in_turn(&rt, row)?)?;
    }
    Ok(())
}
