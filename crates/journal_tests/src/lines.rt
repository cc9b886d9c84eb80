//! Records as lines.
//!
//! The words of a line are the columns of a record: the number of the caller, the title, the moment, the operation, the
//! instance, the Transaction UID, the state, the receiver, the lock, the number and the offset. After a bar come the
//! bytes of the attributes, as in `fixtures::bytes_of`. `-` stands for an empty column, `()` for an empty text, and in
//! a word `_` for a space and `~` for a NUL.

use fixtures::bytes_of;
use fixtures::rows::{cut, number};
use std::alloc::Allocator;
use std::fmt::Display;
use std::test::Fail;
use ups_cycle::StepState;
use ups_journal::{Columns, Record, RecordedOperation};
use ups_pdu::Bytes;

/// Returns the word at a place in a line, or an empty text if there is none.
pub(crate) fn word_at(line: &str, place: usize) -> &str {
    line.split(' ').nth(place).unwrap_or("")
}

/// Returns the bytes that a word stands for.
pub(crate) fn word_bytes<A: Allocator + Copy>(alloc: A, word: &str) -> Result<Bytes<A>, Fail> {
    let mut bytes = Vec::new(alloc);
    for byte in word.as_bytes() {
        bytes.push(match *byte {
            b'_' => b' ',
            b'~' => 0,
            other => other,
        })?;
    }
    Ok(Bytes::from_vec(bytes))
}

/// Returns the text of a column.
fn text_column<A: Allocator + Copy>(alloc: A, word: &str) -> Result<Option<Bytes<A>>, Fail> {
    match word {
        "-" => Ok(None),
        "()" => Ok(Some(Bytes::from_vec(Vec::new(alloc)))),
        _ => Ok(Some(word_bytes(alloc, word)?)),
    }
}

/// Returns the number of a column.
fn number_column(word: &str) -> Result<Option<u64>, Fail> {
    if word == "-" {
        return Ok(None);
    }
    Ok(Some(number(word)?))
}

/// Returns the offset of a column.
fn offset_column(word: &str) -> Result<Option<i16>, Fail> {
    if word == "-" {
        return Ok(None);
    }
    Ok(Some(word.parse::<i16>()?))
}

/// Returns the lock of a column.
fn lock_column(word: &str) -> Result<Option<bool>, Fail> {
    match word {
        "-" => Ok(None),
        "true" => Ok(Some(true)),
        "false" => Ok(Some(false)),
        _ => Err("a lock".into()),
    }
}

/// Returns the state of a column.
fn state_column(word: &str) -> Result<Option<StepState>, Fail> {
    match word {
        "-" => Ok(None),
        "SCHEDULED" => Ok(Some(StepState::Scheduled)),
        "IN_PROGRESS" => Ok(Some(StepState::InProgress)),
        "COMPLETED" => Ok(Some(StepState::Completed)),
        "CANCELED" => Ok(Some(StepState::Canceled)),
        _ => Err("a state".into()),
    }
}

/// Returns the operation that a word names.
fn operation_column<A: Allocator + Copy>(alloc: A, word: &str) -> Result<RecordedOperation, Fail> {
    let name = word_bytes(alloc, word)?;
    Ok(RecordedOperation::named(name.as_slice()).ok_or("an operation")?)
}

/// Returns the attributes of a column.
fn set_column<A: Allocator + Copy>(
    rt: &impl AllocGlobal,
    alloc: A,
    spelled: &str,
) -> Result<Option<Bytes<A>>, Fail> {
    if spelled == "-" {
        return Ok(None);
    }
    let bytes = bytes_of(rt, spelled)?;
    Ok(Some(Bytes::copy_of(alloc, &bytes)?))
}

/// Returns the columns of a line that are not texts, and no others.
fn plain_columns<A: Allocator + Copy>(alloc: A, line: &str) -> Result<Columns<A>, Fail> {
    let operation = operation_column(alloc, word_at(line, 3))?;
    let state = state_column(word_at(line, 6))?;
    let lock = lock_column(word_at(line, 8))?;
    let number = number_column(word_at(line, 9))?;
    let offset = offset_column(word_at(line, 10))?;
    Ok(Columns {
        operation,
        instance: None,
        transaction_uid: None,
        state,
        receiver: None,
        deletion_lock: lock,
        event: number,
        utc_offset: offset,
        attributes: None,
    })
}

/// Sets the columns of a line that are texts.
fn put_texts<A: Allocator + Copy>(
    alloc: A,
    columns: &mut Columns<A>,
    line: &str,
) -> Result<(), Fail> {
    columns.instance = text_column(alloc, word_at(line, 4))?;
    columns.transaction_uid = text_column(alloc, word_at(line, 5))?;
    columns.receiver = text_column(alloc, word_at(line, 7))?;
    Ok(())
}

/// Returns the columns of a line, with these attributes.
fn columns_of<A: Allocator + Copy>(
    rt: &impl AllocGlobal,
    alloc: A,
    line: &str,
    spelled: &str,
) -> Result<Columns<A>, Fail> {
    let mut columns = plain_columns(alloc, line)?;
    put_texts(alloc, &mut columns, line)?;
    columns.attributes = set_column(rt, alloc, spelled)?;
    Ok(columns)
}

/// Returns the number of the caller, which a line begins with.
pub(crate) fn caller_of(line: &str) -> Result<u32, Fail> {
    Ok(word_at(line, 0).parse::<u32>()?)
}

/// Returns the moment of a line.
pub(crate) fn moment_of(line: &str) -> Result<u64, Fail> {
    number(word_at(line, 2))
}

/// Returns the record of a line.
pub(crate) fn record_of_line<A: Allocator + Copy>(
    rt: &impl AllocGlobal,
    alloc: A,
    line: &str,
) -> Result<Record<A>, Fail> {
    let (front, spelled) = cut(line, " |")?;
    let caller = caller_of(front)?;
    let moment = moment_of(front)?;
    let title = text_column(alloc, word_at(front, 1))?.ok_or("a title")?;
    Ok(Record {
        caller,
        title,
        moment,
        request: columns_of(rt, alloc, front, spelled.trim())?,
    })
}

/// Adds bytes as hex digits.
fn put_hex(text: &mut String, bytes: &[u8]) -> Result<(), Fail> {
    for byte in bytes {
        write!(text, "{byte:02X}")?;
    }
    Ok(())
}

/// Adds the bytes of a column in parentheses, or a dash.
fn put_bytes<A: Allocator + Copy>(
    text: &mut String,
    column: &Option<Bytes<A>>,
) -> Result<(), Fail> {
    match column {
        Some(bytes) => {
            text.push_str(" (")?;
            put_hex(text, bytes.as_slice())?;
            Ok(text.push(')')?)
        }
        None => Ok(text.push_str(" -")?),
    }
}

/// Adds the value of a column, or a dash.
fn put_shown<T: Display + Copy>(text: &mut String, column: Option<T>) -> Result<(), Fail> {
    match column {
        Some(value) => write!(text, " {value}")?,
        None => text.push_str(" -")?,
    }
    Ok(())
}

/// Adds the columns of a request.
fn put_columns<A: Allocator + Copy>(text: &mut String, columns: &Columns<A>) -> Result<(), Fail> {
    write!(text, " {} {:?}", columns.operation, columns.state)?;
    put_shown(text, columns.deletion_lock)?;
    put_shown(text, columns.event)?;
    put_shown(text, columns.utc_offset)?;
    put_bytes(text, &columns.instance)?;
    put_bytes(text, &columns.transaction_uid)?;
    put_bytes(text, &columns.receiver)?;
    put_bytes(text, &columns.attributes)
}

/// Returns a record as a text, with bytes as hex digits.
pub(crate) fn told<A: Allocator + Copy>(
    rt: &impl AllocGlobal,
    stored: &Record<A>,
) -> Result<String, Fail> {
    let mut text = String::new(rt.alloc());
    write!(text, "{} {}", stored.caller, stored.moment)?;
    text.push_str(" (")?;
    put_hex(&mut text, stored.title.as_slice())?;
    text.push(')')?;
    put_columns(&mut text, &stored.request)?;
    Ok(text)
}
