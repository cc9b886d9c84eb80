use crate::rows::{CREATE, CREATED};
use fixtures::bytes_of;
use fixtures::rows::{check, cut, cut_twice};
use std::alloc::{Allocator, Global};
use std::test::*;
use ups_assoc::*;
use ups_pdu::{Bytes, Pdv, TransferSyntax};

/// Returns the accepted contexts: one, with this id.
pub(crate) fn context(id: u8) -> [AcceptedContext; 1] {
    [AcceptedContext {
        id,
        sop_class: SopClass::UpsPush,
        transfer_syntax: TransferSyntax::Implicit,
    }]
}

/// Returns a fragment with this message control header (PS3.8 annex E.2).
pub(crate) fn pdv<A: Allocator + Copy>(
    alloc: A,
    context: u8,
    control: u8,
    bytes: &[u8],
) -> Result<Pdv<A>, Fail> {
    Ok(Pdv {
        context,
        command: control & 1 == 1,
        last: control & 2 == 2,
        bytes: Bytes::copy_of(alloc, bytes)?,
    })
}

/// Returns the text for `bytes_of` of a word, which may be CREATE or CREATED.
pub(crate) fn named(word: &str) -> &str {
    match word {
        "CREATE" => CREATE,
        "CREATED" => CREATED,
        other => other,
    }
}

/// Returns the fragment of a text: its context, its control header and its contents.
fn fragment(rt: &impl AllocGlobal, text: &str) -> Result<Pdv<Global>, Fail> {
    let (id, control, content) = cut_twice(text, " ", " ")?;
    let bytes = bytes_of(rt, named(content))?;
    pdv(
        rt.alloc(),
        id.parse::<u8>()?,
        control.parse::<u8>()?,
        &bytes,
    )
}

/// Returns whether these are the bytes of a text.
pub(crate) fn are_bytes(rt: &impl AllocGlobal, found: &[u8], text: &str) -> Result<bool, Fail> {
    let bytes = bytes_of(rt, text)?;
    Ok(bytes.as_slice() == found)
}

/// Returns whether a message has the data set of a text, or none if that is `-`.
fn has_body(rt: &impl AllocGlobal, message: &RawMessage<Global>, text: &str) -> Result<bool, Fail> {
    match &message.body {
        Some(found) => Ok(text != "-" && are_bytes(rt, found.as_slice(), text)?),
        None => Ok(text == "-"),
    }
}

/// Returns whether a message is that of a text: its context, its command, and its data set or `-`.
fn is_message(
    rt: &impl AllocGlobal,
    message: &RawMessage<Global>,
    text: &str,
) -> Result<bool, Fail> {
    let (id, command, body) = cut_twice(text, "|", "|")?;
    if message.context != id.parse::<u8>()? {
        return Ok(false);
    }
    Ok(are_bytes(rt, message.command.as_slice(), named(command))? && has_body(rt, message, body)?)
}

/// Returns whether what a fragment completes is as a text says: `more` for nothing, or a message.
fn is_completed(
    rt: &impl AllocGlobal,
    found: &Option<RawMessage<Global>>,
    expected: &str,
) -> Result<bool, Fail> {
    match found {
        Some(message) => is_message(rt, message, expected),
        None => Ok(expected == "more"),
    }
}

/// Returns the name of a fault.
fn name_of(fault: AssocFault) -> &'static str {
    match fault {
        AssocFault::UnknownContext => "UnknownContext",
        AssocFault::MixedContext => "MixedContext",
        AssocFault::DataWithoutCommand => "DataWithoutCommand",
        AssocFault::TooLong => "TooLong",
        AssocFault::Memory => "Memory",
        AssocFault::Failed => "Failed",
    }
}

/// Returns whether a fragment is answered as a text says: with `more`, a message or a fault.
pub(crate) fn is_answered(
    rt: &impl AllocGlobal,
    assembler: &mut Assembler<Global>,
    fragment: Pdv<Global>,
    expected: &str,
) -> Result<bool, Fail> {
    match assembler.feed(fragment) {
        Ok(found) => is_completed(rt, &found, expected),
        Err(fault) => Ok(name_of(fault) == expected),
    }
}

/// Returns whether a fragment is answered as a row says: the fragment, `=` and its answer.
fn is_step(
    rt: &impl AllocGlobal,
    assembler: &mut Assembler<Global>,
    step: &str,
) -> Result<bool, Fail> {
    let (text, expected) = cut(step, "=")?;
    is_answered(rt, assembler, fragment(rt, text)?, expected)
}

/// Returns an assembler with one accepted context, which has this id.
pub(crate) fn assembler_on<A: Allocator + Copy>(alloc: A, id: u8) -> Result<Assembler<A>, Fail> {
    Ok(Assembler::new(alloc, &context(id))?)
}

/// Returns an assembler with the contexts 1 and 5 accepted.
fn an_assembler(alloc: Global) -> Result<Assembler<Global>, Fail> {
    let ([one], [five]) = (context(1), context(5));
    Ok(Assembler::new(alloc, &[one, five])?)
}

/// Returns whether each fragment of a row is answered as the row says.
fn are_steps(
    rt: &impl AllocGlobal,
    assembler: &mut Assembler<Global>,
    row: &str,
) -> Result<bool, Fail> {
    for step in row.split(", ") {
        if !is_step(rt, assembler, step)? {
            return Ok(false);
        }
    }
    Ok(true)
}

/// The same for a new assembler with the contexts 1 and 5 accepted.
fn are_answered(rt: &impl AllocGlobal, row: &str) -> Result<bool, Fail> {
    let mut assembler = an_assembler(rt.alloc())?;
    are_steps(rt, &mut assembler, row)
}

/// Rows of fragments and their answers: an unknown presentation context; another context inside a message, or a command
/// when data is due; data that no whole command announces; messages; what comes after a fault.
const FRAGMENTS: &str = "0 3 CREATED=UnknownContext
2 3 CREATED=UnknownContext
3 3 CREATED=UnknownContext
3 2 CREATED=UnknownContext
1 1 00=more, 255 1 00=UnknownContext
1 3 CREATE=more, 3 2 00=UnknownContext
1 1 CREATE=more, 5 1 00=MixedContext
1 1 CREATE=more, 5 0 00=MixedContext
1 3 CREATE=more, 5 3 CREATED=MixedContext
1 3 CREATE=more, 5 2 00=MixedContext
1 3 CREATE=more, 1 3 CREATED=MixedContext
1 3 CREATE=more, 1 0 00=more, 1 1 00=MixedContext
1 2 00=DataWithoutCommand
1 0 00=DataWithoutCommand
1 1 CREATE=more, 1 2 00=DataWithoutCommand
1 3 CREATED=1|CREATED|-, 1 2 00=DataWithoutCommand
1 3 CREATE=more, 1 2 00=1|CREATE|00
1 3 CREATED=1|CREATED|-, 5 3 CREATED=5|CREATED|-
1 3 CREATE=more, 1 2 \"1234\"=1|CREATE|\"1234\", 1 3 CREATED=1|CREATED|-
3 3 CREATED=UnknownContext, 1 3 CREATED=Failed, 3 3 CREATED=Failed
1 2 CREATED=DataWithoutCommand, 1 3 CREATED=Failed, 1 2 CREATED=Failed";

#[test]
fn each_fragment_is_answered(rt: HostRuntime) -> Result<(), Fail> {
    for row in FRAGMENTS.lines() {
        check(row, are_answered(&rt, row)?)?;
    }
    Ok(())
}

/// Returns whether a fragment does not complete a message.
fn is_more(
    rt: &impl AllocGlobal,
    assembler: &mut Assembler<Global>,
    control: u8,
    byte: u8,
) -> Result<bool, Fail> {
    let fragment = pdv(rt.alloc(), 255, control, &[byte])?;
    Ok(assembler.feed(fragment)?.is_none())
}

/// Feeds bytes in fragments of one byte each, with the control header `control`, or `last` for the last one; fails if
/// one completes a message.
fn feed_each(
    rt: &impl AllocGlobal,
    assembler: &mut Assembler<Global>,
    bytes: &[u8],
    control: u8,
    last: u8,
) -> Result<(), Fail> {
    for (place, byte) in bytes.iter().enumerate() {
        let is_last = place + 1 == bytes.len();
        if !is_more(rt, assembler, if is_last { last } else { control }, *byte)? {
            return Err("a message before its end".into());
        }
    }
    Ok(())
}

/// Returns whether the command set CREATE, and six bytes of data after it, are a message once their end is announced.
fn is_whole_of_bytes(
    rt: &impl AllocGlobal,
    assembler: &mut Assembler<Global>,
) -> Result<bool, Fail> {
    let command = bytes_of(rt, CREATE)?;
    feed_each(rt, assembler, &command, 1, 3)?;
    feed_each(rt, assembler, b"abcdef", 0, 0)?;
    is_step(rt, assembler, "255 2 =255|CREATE|\"abcdef\"")
}

#[test]
fn fragments_of_one_byte_give_the_message(rt: HostRuntime) -> Result<(), Fail> {
    let mut assembler = assembler_on(rt.alloc(), 255)?;
    assert!(rt; is_whole_of_bytes(&rt, &mut assembler)?);
    Ok(())
}

/// Returns whether neither a command set nor 63 fragments of 16,384 bytes of data after it complete a message.
fn is_begun(rt: &impl AllocGlobal, assembler: &mut Assembler<Global>) -> Result<bool, Fail> {
    let mut is_more = is_step(rt, assembler, "1 3 CREATE=more")?;
    for _ in 0..63 {
        is_more = is_more && is_step(rt, assembler, "1 0 00*16384=more")?;
    }
    Ok(is_more)
}

/// Returns the fault at the last fragment of a message, after 63 fragments of 16,384 bytes of data; there must be none
/// before it.
fn fault_at_last(
    rt: &impl AllocGlobal,
    assembler: &mut Assembler<Global>,
    last: &str,
) -> Result<Option<AssocFault>, Fail> {
    if !is_begun(rt, assembler)? {
        return Err("a message before its end".into());
    }
    Ok(assembler.feed(fragment(rt, last)?).err())
}

/// The same for a new assembler.
fn fault_at_the_end(rt: &impl AllocGlobal, last: &str) -> Result<Option<AssocFault>, Fail> {
    let mut assembler = assembler_on(rt.alloc(), 1)?;
    fault_at_last(rt, &mut assembler, last)
}

#[test]
fn a_message_has_at_most_1048576_bytes(rt: HostRuntime) -> Result<(), Fail> {
    // The command has 92 bytes: 63 fragments of 16,384 bytes and one of 16,292 fill the message.
    assert_eq!(rt; fault_at_the_end(&rt, "1 2 00*16292")?, None);
    assert_eq!(rt;
        fault_at_the_end(&rt, "1 2 00*16293")?,
        Some(AssocFault::TooLong)
    );
    Ok(())
}
