//! The text of an accepted request. That it is read again as the request is checked by `telling`, so nothing is promised
//! here.

use std::alloc::{AllocError, Allocator};
use ups_dataset::{Tag, vr_of};
use ups_journal::{Columns, Record, RecordedOperation};
use ups_pdu::{Bytes, RegisteredUid};

/// The digits of a byte.
const DIGITS: [u8; 16] = *b"0123456789ABCDEF";

/// The attributes of a subscription: Deletion Lock and Receiving AE.
const LOCK: Tag = Tag {
    group: 0x0074,
    element: 0x1230,
};

const RECEIVER: Tag = Tag {
    group: 0x0074,
    element: 0x1234,
};

/// Appends a byte as two hex digits.
fn put_hex<A: Allocator + Copy>(out: &mut Vec<u8, A>, byte: u8) -> Result<(), AllocError> {
    out.push(DIGITS[usize::from(byte / 16)])?;
    out.push(DIGITS[usize::from(byte % 16)])?;
    Ok(())
}

/// Returns whether a byte stands for itself in a word, and is visible.
fn is_plain(byte: u8) -> bool {
    33 <= byte && byte <= 126 && byte != b'%'
}

/// Appends a text that stands for these bytes, all of them.
fn put_text<A: Allocator + Copy>(out: &mut Vec<u8, A>, bytes: &[u8]) -> Result<(), AllocError> {
    for byte in bytes {
        if is_plain(*byte) {
            out.push(*byte)?;
        } else {
            out.push(b'%')?;
            put_hex(out, *byte)?;
        }
    }
    Ok(())
}

/// Appends a space and a word with these bytes.
fn put_word<A: Allocator + Copy>(out: &mut Vec<u8, A>, bytes: &[u8]) -> Result<(), AllocError> {
    out.push(b' ')?;
    put_text(out, bytes)
}

/// Appends a number.
fn put_number<A: Allocator + Copy>(
    alloc: A,
    out: &mut Vec<u8, A>,
    number: u64,
) -> Result<(), AllocError> {
    let digits = format!(in alloc; "{number}")?;
    out.extend_from_slice(digits.as_bytes())
}

/// Appends a tag.
fn put_tag<A: Allocator + Copy>(out: &mut Vec<u8, A>, tag: Tag) -> Result<(), AllocError> {
    for byte in tag.group.to_be_bytes() {
        put_hex(out, byte)?;
    }
    for byte in tag.element.to_be_bytes() {
        put_hex(out, byte)?;
    }
    Ok(())
}

/// Appends a space, a tag, an equals sign and a text that stands for these bytes.
fn put_attribute<A: Allocator + Copy>(
    out: &mut Vec<u8, A>,
    tag: Tag,
    value: &[u8],
) -> Result<(), AllocError> {
    out.push(b' ')?;
    put_tag(out, tag)?;
    out.push(b'=')?;
    put_text(out, value)
}

/// An element as it is encoded in Explicit VR Little Endian.
#[derive(Clone, Copy)]
struct RawElement<'a> {
    tag: Tag,
    vr: [u8; 2],
    whole: &'a [u8],
    value: &'a [u8],
}

/// Returns whether the length field of a value representation has four bytes (PS3.5 section 7.1.2).
fn is_long(vr: [u8; 2]) -> bool {
    match vr {
        [b'O', b'B' | b'D' | b'F' | b'L' | b'V' | b'W'] => true,
        [b'S', b'Q' | b'V'] => true,
        [b'U', b'C' | b'N' | b'R' | b'T' | b'V'] => true,
        _ => false,
    }
}

/// Returns the number of bytes of a value, and that of those before it.
fn lengths_at(bytes: &[u8], vr: [u8; 2]) -> Option<(usize, usize)> {
    if is_long(vr) {
        let [_, _, _, _, _, _, _, _, a, b, c, d, ..] = bytes else {
            return None;
        };
        let len = u32::from_le_bytes([*a, *b, *c, *d]);
        return Some((usize::try_from(len).ok()?, 12));
    }
    let [_, _, _, _, _, _, a, b, ..] = bytes else {
        return None;
    };
    Some((usize::from(u16::from_le_bytes([*a, *b])), 8))
}

/// Returns the element that bytes begin with, and what follows it.
fn element_at(bytes: &[u8]) -> Option<(RawElement<'_>, &[u8])> {
    let (tag, behind) = Tag::at(bytes)?;
    let [high, low, ..] = behind else {
        return None;
    };
    let vr = [*high, *low];
    let (len, head) = lengths_at(bytes, vr)?;
    let (whole, rest) = bytes.split_at_checked(head.checked_add(len)?)?;
    let (_, value) = whole.split_at_checked(head)?;
    Some((
        RawElement {
            tag,
            vr,
            whole,
            value,
        },
        rest,
    ))
}

/// Appends an element: as an attribute if its value representation is that of the dictionary, and it is no sequence;
/// otherwise a colon and its bytes as hex digits.
fn put_element<A: Allocator + Copy>(
    out: &mut Vec<u8, A>,
    element: &RawElement<'_>,
) -> Result<(), AllocError> {
    if element.vr == vr_of(element.tag).letters() && element.vr != [b'S', b'Q'] {
        return put_attribute(out, element.tag, element.value);
    }
    out.extend_from_slice(b" :")?;
    for byte in element.whole {
        put_hex(out, *byte)?;
    }
    Ok(())
}

/// Appends the elements whose tags are below `end`, and returns what follows them.
fn put_elements_below<'a, A: Allocator + Copy>(
    out: &mut Vec<u8, A>,
    encoded: &'a [u8],
    end: Option<Tag>,
) -> Result<&'a [u8], AllocError> {
    let mut rest = encoded;
    for _ in 0..encoded.len() {
        let Some((element, behind)) = element_at(rest) else {
            return Ok(rest);
        };
        if end.is_some_and(|end| element.tag >= end) {
            return Ok(rest);
        }
        put_element(out, &element)?;
        rest = behind;
    }
    Ok(rest)
}

/// Appends the words of a data set.
fn put_elements<A: Allocator + Copy>(
    out: &mut Vec<u8, A>,
    encoded: &Option<Bytes<A>>,
) -> Result<(), AllocError> {
    out.extend_from_slice(b" :")?;
    if let Some(encoded) = encoded {
        let _rest = put_elements_below(out, encoded.as_slice(), None)?;
    }
    Ok(())
}

/// Returns the bytes of a column, or none.
fn cell<A: Allocator + Copy>(column: &Option<Bytes<A>>) -> &[u8] {
    match column {
        Some(bytes) => bytes.as_slice(),
        None => b"-",
    }
}

/// Appends the word of an instance. One that is no step is told by a word that is no UID.
fn put_instance<A: Allocator + Copy>(
    out: &mut Vec<u8, A>,
    columns: &Columns<A>,
) -> Result<(), AllocError> {
    let instance = cell(&columns.instance);
    if instance == RegisteredUid::GlobalSubscription.text() {
        return out.extend_from_slice(b" global");
    }
    if instance == RegisteredUid::FilteredGlobalSubscription.text() {
        return out.extend_from_slice(b" filtered");
    }
    put_word(out, instance)
}

/// Appends the word of a Transaction UID: `-` for none, and one that is no UID for a malformed one.
fn put_transaction<A: Allocator + Copy>(
    out: &mut Vec<u8, A>,
    transaction: &Option<Bytes<A>>,
) -> Result<(), AllocError> {
    match transaction {
        None => out.extend_from_slice(b" -"),
        Some(uid) if uid.as_slice().is_empty() => out.extend_from_slice(b" %2D"),
        Some(uid) => put_word(out, uid.as_slice()),
    }
}

/// Appends the words of a subscription, with its attributes and its keys in the order of a data set.
fn put_subscription<A: Allocator + Copy>(
    out: &mut Vec<u8, A>,
    columns: &Columns<A>,
) -> Result<(), AllocError> {
    let receiver = cell(&columns.receiver);
    let lock: &[u8] = if columns.deletion_lock == Some(true) {
        b"TRUE"
    } else {
        b"FALSE"
    };
    put_word(out, receiver)?;
    put_word(out, lock)?;
    out.extend_from_slice(b" :")?;
    let keys: &[u8] = match &columns.attributes {
        Some(keys) => keys.as_slice(),
        None => &[],
    };
    let rest = put_elements_below(out, keys, Some(LOCK))?;
    put_attribute(out, LOCK, lock)?;
    let rest = put_elements_below(out, rest, Some(RECEIVER))?;
    put_attribute(out, RECEIVER, receiver)?;
    let _rest = put_elements_below(out, rest, None)?;
    Ok(())
}

/// Appends the words of a change of state.
fn put_change<A: Allocator + Copy>(
    out: &mut Vec<u8, A>,
    columns: &Columns<A>,
) -> Result<(), AllocError> {
    let state: &[u8] = match columns.state {
        Some(state) => state.text(),
        None => b"-",
    };
    put_word(out, state)?;
    put_transaction(out, &columns.transaction_uid)
}

/// Appends the verb of a request and the words after it.
fn put_request<A: Allocator + Copy>(
    alloc: A,
    out: &mut Vec<u8, A>,
    columns: &Columns<A>,
) -> Result<(), AllocError> {
    match columns.operation {
        RecordedOperation::Create => {
            out.extend_from_slice(b" create")?;
            put_instance(out, columns)?;
            put_elements(out, &columns.attributes)?;
        }
        RecordedOperation::Change => {
            out.extend_from_slice(b" change")?;
            put_instance(out, columns)?;
            put_change(out, columns)?;
        }
        RecordedOperation::AskCancel => {
            out.extend_from_slice(b" cancel")?;
            put_instance(out, columns)?;
            put_elements(out, &columns.attributes)?;
        }
        RecordedOperation::Set => {
            out.extend_from_slice(b" set")?;
            put_instance(out, columns)?;
            out.extend_from_slice(b" -")?;
            put_elements(out, &columns.attributes)?;
        }
        RecordedOperation::Subscribe => {
            out.extend_from_slice(b" subscribe")?;
            put_instance(out, columns)?;
            put_subscription(out, columns)?;
        }
        RecordedOperation::Unsubscribe => {
            out.extend_from_slice(b" unsubscribe")?;
            put_instance(out, columns)?;
            put_word(out, cell(&columns.receiver))?;
        }
        RecordedOperation::Suspend => {
            out.extend_from_slice(b" suspend")?;
            put_instance(out, columns)?;
            put_word(out, cell(&columns.receiver))?;
        }
        RecordedOperation::Acknowledge => {
            out.extend_from_slice(b" ack ")?;
            put_number(alloc, out, columns.event.unwrap_or(0))?;
        }
        RecordedOperation::Sweep => out.extend_from_slice(b" sweep")?,
        RecordedOperation::Reserve => {
            out.extend_from_slice(b" reserve")?;
            put_instance(out, columns)?;
        }
    }
    Ok(())
}

/// Returns the text of an accepted request.
pub(crate) fn written<A: Allocator + Copy>(
    alloc: A,
    stored: &Record<A>,
) -> Result<Vec<u8, A>, AllocError> {
    let mut out = Vec::new(alloc);
    put_number(alloc, &mut out, stored.moment)?;
    put_word(&mut out, stored.title.as_slice())?;
    put_request(alloc, &mut out, &stored.request)?;
    Ok(out)
}
