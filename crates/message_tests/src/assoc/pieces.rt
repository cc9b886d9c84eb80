use super::fragments::{are_bytes, assembler_on, is_answered, named};
use crate::rows::CREATE;
use fixtures::bytes_of;
use fixtures::rows::{self, check, cut_twice};
use std::alloc::Global;
use std::test::*;
use ups_assoc::*;
use ups_pdu::{Bytes, Pdu, Pdv};

/// Returns the only fragment of a PDU.
fn pdv_in(pdu: &Pdu<Global>) -> Result<&Pdv<Global>, Fail> {
    let Pdu::Data(pdvs) = pdu else {
        return Err("no P-DATA-TF".into());
    };
    let [pdv] = pdvs.as_slice() else {
        return Err("more than one fragment".into());
    };
    Ok(pdv)
}

/// Returns whether a fragment is of a command or a data set, and whether it is the last.
fn kind_of(pdv: &Pdv<Global>) -> &'static str {
    match (pdv.command, pdv.last) {
        (true, true) => "command last",
        (true, false) => "command",
        (false, true) => "data last",
        (false, false) => "data",
    }
}

/// Returns whether a PDU is as a text says: the length of its fragment, and its kind.
fn is_piece(pdu: &Pdu<Global>, expected: &str) -> Result<bool, Fail> {
    let pdv = pdv_in(pdu)?;
    let (length, kind) = rows::cut(expected, " ")?;
    Ok(pdv.bytes.len() == length.parse::<usize>()? && kind_of(pdv) == kind)
}

/// Returns whether PDUs are as a text says.
fn are_pieces(pdus: &[Pdu<Global>], expected: &str) -> Result<bool, Fail> {
    let mut rest = pdus;
    for piece in expected.split(", ") {
        let Some((first, behind)) = rest.split_first() else {
            return Ok(false);
        };
        if !is_piece(first, piece)? {
            return Ok(false);
        }
        rest = behind;
    }
    Ok(rest.is_empty())
}

/// Cuts a command into pieces, with a data set or without.
fn cut_at(
    alloc: Global,
    command: &[u8],
    body: Option<&[u8]>,
    max: u32,
) -> Result<Vec<Pdu<Global>>, Fail> {
    if max > 0 && max < 8 {
        return Err("no such maximum length".into());
    }
    Ok(cut(alloc, 1, command, body, max)?)
}

/// Cuts the command of a text into pieces, with a data set unless that is `-`.
fn cut_of(
    rt: &impl AllocGlobal,
    command: &str,
    body: &str,
    max: u32,
) -> Result<Vec<Pdu<Global>>, Fail> {
    let command = bytes_of(rt, command)?;
    if body == "-" {
        return cut_at(rt.alloc(), &command, None, max);
    }
    let body = bytes_of(rt, body)?;
    cut_at(rt.alloc(), &command, Some(&body), max)
}

/// Rows of a command, a data set and a maximum length, and the pieces: a command of 102 bytes; the largest even length
/// that the peer accepts; a data set of no bytes, and none.
const PIECES: &str = "CREATED|- 32|26 command, 26 command, 26 command, 24 command last
00*5|- 8|2 command, 2 command, 1 command last
00*5|- 9|2 command, 2 command, 1 command last
00*5|- 10|4 command, 1 command last
00*4|- 10|4 command last
00*16379|- 16383|16376 command, 3 command last
00*16378|- 0|16378 command last
00*16379|- 0|16378 command, 1 command last
00*16379|- 16384|16378 command, 1 command last
00*16379|- 16385|16378 command, 1 command last
\"12\"|\"\" 8|2 command last, 0 data last
\"12\"|- 8|2 command last";

/// Cuts a command into pieces as a text says: the data set, or `-`, and the maximum length.
fn cut_as(rt: &impl AllocGlobal, command: &str, how: &str) -> Result<Vec<Pdu<Global>>, Fail> {
    let (body, max) = rows::cut(how, " ")?;
    cut_of(rt, named(command), body, max.parse::<u32>()?)
}

/// Returns whether a row says what its command and data set are cut into.
fn are_pieces_of(rt: &impl AllocGlobal, row: &str) -> Result<bool, Fail> {
    let (command, how, expected) = cut_twice(row, "|", "|")?;
    let pdus = cut_as(rt, command, how)?;
    are_pieces(&pdus, expected)
}

#[test]
fn each_piece_is_as_long_as_the_peer_takes(rt: HostRuntime) -> Result<(), Fail> {
    for row in PIECES.lines() {
        check(row, are_pieces_of(&rt, row)?)?;
    }
    Ok(())
}

/// Encodes a P-DATA-TF with one fragment on the presentation context 3, after a byte that was there before.
fn fragment_of(alloc: Global, kind: &str, bytes: &[u8]) -> Result<Vec<u8>, Fail> {
    if bytes.len() > 16_378 {
        return Err("too long a fragment".into());
    }
    let (command, last) = (kind.starts_with("command"), kind.ends_with("last"));
    let mut out = Vec::from_slice(alloc, &[0xff])?;
    put_fragment(&mut out, 3, command, last, bytes)?;
    Ok(out)
}

/// Rows of the kind of a fragment, its bytes, and the P-DATA-TF: the type 04H, a reserved byte and the length of the
/// rest, then the length of the fragment, its context and its control header (PS3.8 section 9.3.5 and annex E.2).
const FRAGMENTS: &str = "command|AABB|FF 0400 00000008 00000004 03 01 AABB
command last|AABB|FF 0400 00000008 00000004 03 03 AABB
data|AABB|FF 0400 00000008 00000004 03 00 AABB
data last|AABB|FF 0400 00000008 00000004 03 02 AABB
data last||FF 0400 00000006 00000002 03 02
data last|00*16378|FF 0400 00004000 00003FFC 03 02 00*16378";

/// Returns whether a row says which bytes a fragment is written as.
fn is_fragment_of(rt: &impl AllocGlobal, row: &str) -> Result<bool, Fail> {
    let (kind, bytes, expected) = cut_twice(row, "|", "|")?;
    let bytes = bytes_of(rt, bytes)?;
    let written = fragment_of(rt.alloc(), kind, &bytes)?;
    are_bytes(rt, &written, expected)
}

#[test]
fn a_fragment_is_written_as_a_pdu_of_its_own(rt: HostRuntime) -> Result<(), Fail> {
    for row in FRAGMENTS.lines() {
        check(row, is_fragment_of(&rt, row)?)?;
    }
    Ok(())
}

#[test]
fn the_longest_fragment_is_even(rt: HostRuntime) -> Result<(), Fail> {
    assert_eq!(rt; room(0), 16_378);
    assert_eq!(rt; room(8), 2);
    assert_eq!(rt; room(16_383), 16_376);
    Ok(())
}

/// Returns a copy of the only fragment of a PDU.
fn copy_of(alloc: Global, pdu: &Pdu<Global>) -> Result<Pdv<Global>, Fail> {
    let found = pdv_in(pdu)?;
    Ok(Pdv {
        context: found.context,
        command: found.command,
        last: found.last,
        bytes: Bytes::copy_of(alloc, found.bytes.as_slice())?,
    })
}

/// Returns whether a PDU is answered as a text says.
fn is_given(
    rt: &impl AllocGlobal,
    assembler: &mut Assembler<Global>,
    pdu: &Pdu<Global>,
    expected: &str,
) -> Result<bool, Fail> {
    is_answered(rt, assembler, copy_of(rt.alloc(), pdu)?, expected)
}

/// Returns whether only the last of some PDUs completes a message, which must be as a text says.
fn are_given(
    rt: &impl AllocGlobal,
    assembler: &mut Assembler<Global>,
    pdus: &[Pdu<Global>],
    message: &str,
) -> Result<bool, Fail> {
    let Some((last, others)) = pdus.split_last() else {
        return Ok(false);
    };
    for pdu in others {
        if !is_given(rt, assembler, pdu, "more")? {
            return Ok(false);
        }
    }
    is_given(rt, assembler, last, message)
}

/// The same for a new assembler.
fn give(rt: &impl AllocGlobal, pdus: &[Pdu<Global>], message: &str) -> Result<bool, Fail> {
    let mut assembler = assembler_on(rt.alloc(), 1)?;
    are_given(rt, &mut assembler, pdus, message)
}

/// Returns whether a message that is cut for a peer is put together again.
fn is_whole_again(rt: &impl AllocGlobal, max: u32) -> Result<bool, Fail> {
    let pdus = cut_of(rt, CREATE, "\"0123456789\"", max)?;
    give(rt, &pdus, "1|CREATE|\"0123456789\"")
}

#[test]
fn what_is_cut_is_put_together_again(rt: HostRuntime) -> Result<(), Fail> {
    for max in [0, 8, 9, 11, 12, 16_384] {
        assert!(rt; is_whole_again(&rt, max)?, "at {max}");
    }
    Ok(())
}
