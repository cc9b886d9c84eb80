//! How requests change steps, and what is shown of steps, with each growth refused in turn.
//!
//! A row begins with the least number of growths. A refused growth makes the call fail, and leaves what it was given as
//! it was; the last call, in which no growth is refused, does what its row says.

use super::words::{request_of, row_of};
use super::*;
use fixtures::rows::{cut_twice, number};
use fixtures::words::{set_of, tags_of};
use std::alloc::AllocError;
use ups_dataset::Tag;

/// What is held of a step, or `none`; a request two minutes after 1970 began; and what is held after it: the state, the
/// Transaction UID of the claim, when the state became final, and the attributes. With `show` and tags, the attributes
/// that are held; and the status, and those of the attributes that are listed and shown.
const CHANGED: &str = "\
# A step is created with its UIDs, and without a Transaction UID
1: none | create 1.2.3.1 B -> SCHEDULED none never 00080016=1.2.840.10008.5.1.4.34.6.1 00080018=1.2.3.1_ 00404005=20240229120000 00404041=READY_ 00741000=SCHEDULED_ 00741200=MEDIUM 00741204=CT_READ_
1: none | create 1.2.3.1 B 00080016=2.99 00080018=2.98 -> SCHEDULED none never 00080016=1.2.840.10008.5.1.4.34.6.1 00080018=1.2.3.1_ 00404005=20240229120000 00404041=READY_ 00741000=SCHEDULED_ 00741200=MEDIUM 00741204=CT_READ_
1: none | create 1.2.3.44 -> SCHEDULED none never 00080016=1.2.840.10008.5.1.4.34.6.1 00080018=1.2.3.44
1: none | create 1.2.3.1 B 00081195= -> SCHEDULED none never 00080016=1.2.840.10008.5.1.4.34.6.1 00080018=1.2.3.1_ 00404005=20240229120000 00404041=READY_ 00741000=SCHEDULED_ 00741200=MEDIUM 00741204=CT_READ_
1: none | create 1.2.3.1 B 00081195=~~ -> SCHEDULED none never 00080016=1.2.840.10008.5.1.4.34.6.1 00080018=1.2.3.1_ 00404005=20240229120000 00404041=READY_ 00741000=SCHEDULED_ 00741200=MEDIUM 00741204=CT_READ_
1: none | create 1.2.3.1 B 00081195=2.1234 -> SCHEDULED none never 00080016=1.2.840.10008.5.1.4.34.6.1 00080018=1.2.3.1_ 00404005=20240229120000 00404041=READY_ 00741000=SCHEDULED_ 00741200=MEDIUM 00741204=CT_READ_
# A step is claimed
2: SCHEDULED - 00741000=SCHEDULED 00741204=CT_READ | 1 1.2.3.1 00741000=IN_PROGRESS 00081195=2.1 -> IN_PROGRESS 2.1 never 00741000=IN_PROGRESS_ 00741204=CT_READ_
# A step is set
2: SCHEDULED - 00741000=SCHEDULED 00741204=CT_READ | set 1.2.3.1 00081195=2.1 00741204=MR_READ -> SCHEDULED none never 00741000=SCHEDULED_ 00741204=MR_READ_
# A step that nobody has claimed is canceled by request
10: SCHEDULED - B | 2 1.2.3.1 00081195=2.1 00741204=MR_READ 00741238=stop 0074100e=[00080100=110513] -> CANCELED none 120 00404005=20240229120000 00404041=READY_ 00741000=CANCELED 00741002=[00404052=19700101000200+0000_ 0074100e=* 00741238=stop ] 00741200=MEDIUM 00741204=CT_READ_
10: SCHEDULED - 00741000=SCHEDULED 00741204=CT_READ | 2 1.2.3.1 00741238=stop 0074100e=[00080100=110513] -> CANCELED none 120 00741000=CANCELED 00741002=[00404052=19700101000200+0000_ 0074100e=* 00741238=stop ] 00741204=CT_READ_
# A claimed step is left as it is
1: IN_PROGRESS 2.1 00741000=SCHEDULED 00741204=CT_READ | 2 1.2.3.1 00741238=stop 0074100e=[00080100=110513] -> IN_PROGRESS 2.1 never 00741000=SCHEDULED_ 00741204=CT_READ_
# The ninth level of items is not held, which is told without memory
1: SCHEDULED - | 2 1.2.3.1 deep 7 -> CANCELED none 120 00741000=CANCELED 00741002=[00404052=19700101000200+0000_ 0074100e=* ]
0: SCHEDULED - | 2 1.2.3.1 deep 8 -> the items of the step would nest more than 8 deep, after 0 growths
0: IN_PROGRESS - | 2 1.2.3.1 deep 8 -> IN_PROGRESS none never
# All attributes
1: B 00080016=1.2.840.10008.5.1.4.34.6.1 00080018=1.2.3.1 | show -> 0000 00080016=1.2.840.10008.5.1.4.34.6.1 00080018=1.2.3.1_ 00404005=20240229120000 00404041=READY_ 00741000=SCHEDULED_ 00741200=MEDIUM 00741204=CT_READ_
# Those that are listed, of which each is there
1: B 00080016=1.2.840.10008.5.1.4.34.6.1 00080018=1.2.3.1 | show 00741204 00741000 -> 0000 00741000=SCHEDULED_ 00741204=CT_READ_
# Those that are listed, of which one is absent
1: B 00080016=1.2.840.10008.5.1.4.34.6.1 00080018=1.2.3.1 | show 00100010 00741204 -> 0001 00741204=CT_READ_
# The Transaction UID is never shown
2: B 00080016=1.2.840.10008.5.1.4.34.6.1 00080018=1.2.3.1 | show 00081195 00741000 -> 0001 00741000=SCHEDULED_
2: B 00080016=1.2.840.10008.5.1.4.34.6.1 00080018=1.2.3.1 | show 00741000 00081195 -> 0001 00741000=SCHEDULED_
0: B 00080016=1.2.840.10008.5.1.4.34.6.1 00080018=1.2.3.1 | show 00081195 -> 0001";

/// Adds the Transaction UID of a claim, or `none`.
fn add_claim(text: &mut String, transaction: &Option<Uid>) -> Result<(), Fail> {
    match transaction {
        Some(uid) => Ok(add_bytes(text, uid.as_bytes())?),
        None => Ok(text.push_str("none")?),
    }
}

/// Adds when a state became final, or `never`.
fn add_end(text: &mut String, final_at: Option<u64>) -> Result<(), Fail> {
    match final_at {
        Some(moment) => Ok(write!(text, " {moment} ")?),
        None => Ok(text.push_str(" never ")?),
    }
}

/// Adds what is held of a step beside its attributes.
fn add_held<A: Allocator + Copy>(text: &mut String, row: &Row<A>) -> Result<(), Fail> {
    add_bytes(text, row.state.text())?;
    text.push(' ')?;
    add_claim(text, &row.transaction)?;
    add_end(text, row.final_at)
}

/// Returns what is held of a step as text.
fn held_text<A: Allocator + Copy>(rt: &impl AllocGlobal, row: &Row<A>) -> Result<String, Fail> {
    let mut text = String::new(rt.alloc());
    add_held(&mut text, row)?;
    add_set(rt, &mut text, &row.attributes)?;
    Ok(text)
}

/// Returns the outcome of a change, which takes `growths` growths, as text.
fn made_text<A: Allocator + Copy>(
    rt: &impl AllocGlobal,
    growths: u64,
    made: &Result<Row<A>, ChangeFault>,
) -> Result<String, Fail> {
    match made {
        Ok(after) => held_text(rt, after),
        Err(fault) => Ok(format!(in rt.alloc(); "{fault}, after {growths} growths")?),
    }
}

/// Returns the outcome of a change, which takes `growths` growths, as text, or None if one more was refused.
fn made_or_refused<A: Allocator + Copy>(
    rt: &impl AllocGlobal,
    growths: u64,
    is_refused: bool,
    made: &Result<Row<A>, ChangeFault>,
) -> Result<Option<String>, Fail> {
    if !is_refused {
        return Ok(Some(made_text(rt, growths, made)?));
    }
    match made {
        Err(ChangeFault::Memory) => Ok(None),
        _ => Err("a growth was refused, and the change is made".into()),
    }
}

/// Returns the outcome of a request on a step, which takes `growths` growths, as text, or None if one more is refused.
fn changed_or_refused<'a>(
    rt: &impl AllocGlobal,
    heap: &'a Refusing<Global>,
    before: Option<&Row<&'a Refusing<Global>>>,
    request: &Request<&'a Refusing<Global>>,
    growths: u64,
) -> Result<Option<String>, Fail> {
    let made = change(heap, before, request, 120, 0);
    made_or_refused(rt, growths, !heap.is_armed(), &made)
}

/// Returns the number of growths that a request on a step takes, and its outcome as text.
fn changed_text<'a>(
    rt: &impl AllocGlobal,
    heap: &'a Refusing<Global>,
    before: Option<&Row<&'a Refusing<Global>>>,
    request: &Request<&'a Refusing<Global>>,
) -> Result<(u64, String), Fail> {
    for growths in 0..GROWTHS {
        heap.refuse(growths + 1);
        if let Some(text) = changed_or_refused(rt, heap, before, request, growths)? {
            return Ok((growths, text));
        }
    }
    Err("there are more growths".into())
}

/// Returns the number of growths that the change of a step by a message takes, and its outcome as text.
fn changed_by<'a>(
    rt: &impl AllocGlobal,
    heap: &'a Refusing<Global>,
    before: Option<&Row<&'a Refusing<Global>>>,
    message: &str,
) -> Result<(u64, String), Fail> {
    let request = request_of(heap, message)?;
    changed_text(rt, heap, before, &request)
}

/// Returns the number of growths that a change of what is held of a step takes, and its outcome as text.
fn changed(
    rt: &impl AllocGlobal,
    heap: &Refusing<Global>,
    held: &str,
    message: &str,
) -> Result<(u64, String), Fail> {
    heap.refuse(0);
    let before = row_of(heap, held)?;
    changed_by(rt, heap, before.as_ref(), message)
}

/// Returns a status and attributes as text.
fn set_text<A: Allocator + Copy>(
    rt: &impl AllocGlobal,
    status: Status,
    set: &DataSet<A>,
) -> Result<String, Fail> {
    let mut text = format!(in rt.alloc(); "{:04X} ", status.code())?;
    add_set(rt, &mut text, set)?;
    Ok(text)
}

/// Returns a reply as text: its status, and the attributes that it shows.
fn reply_text<A: Allocator + Copy>(
    rt: &impl AllocGlobal,
    reply: &Reply<A>,
) -> Result<String, Fail> {
    match reply {
        Reply::Set(status, set) => set_text(rt, *status, set),
        _ => Err("a reply without attributes".into()),
    }
}

/// Returns a reply as text, or None if it is missing because a growth was refused.
fn reply_or_refused<A: Allocator + Copy>(
    rt: &impl AllocGlobal,
    is_refused: bool,
    reply: &Result<Reply<A>, AllocError>,
) -> Result<Option<String>, Fail> {
    match reply {
        Ok(reply) if !is_refused => Ok(Some(reply_text(rt, reply)?)),
        Err(_) if is_refused => Ok(None),
        _ => Err("no lack of memory where a growth is refused".into()),
    }
}

/// Returns the reply that shows attributes as text, or None if a growth is refused for it.
fn shown_or_refused<'a>(
    rt: &impl AllocGlobal,
    heap: &'a Refusing<Global>,
    held: &DataSet<&'a Refusing<Global>>,
    listed: &[Tag],
) -> Result<Option<String>, Fail> {
    let reply = shown(held, listed);
    reply_or_refused(rt, !heap.is_armed(), &reply)
}

/// Returns the number of growths that showing attributes takes, and the reply as text.
fn shown_text<'a>(
    rt: &impl AllocGlobal,
    heap: &'a Refusing<Global>,
    held: &DataSet<&'a Refusing<Global>>,
    listed: &[Tag],
) -> Result<(u64, String), Fail> {
    for growths in 0..GROWTHS {
        heap.refuse(growths + 1);
        if let Some(text) = shown_or_refused(rt, heap, held, listed)? {
            return Ok((growths, text));
        }
    }
    Err("there are more growths".into())
}

/// Returns the number of growths that showing the attributes of a row takes, and the reply as text.
fn shown_in_row(
    rt: &impl AllocGlobal,
    heap: &Refusing<Global>,
    held: &str,
    listed: &str,
) -> Result<(u64, String), Fail> {
    heap.refuse(0);
    let listed = tags_of(rt.alloc(), listed)?;
    let held = set_of(heap, held)?;
    shown_text(rt, heap, &held, &listed)
}

/// Returns whether a row says what is found, and the least number of growths.
fn is_so(rt: &impl AllocGlobal, heap: &Refusing<Global>, row: &str) -> Result<bool, Fail> {
    let (rest, expected) = cut(row, " -> ")?;
    let (least, held, asked) = cut_twice(rest, ": ", " | ")?;
    let least = number(least)?;
    let (growths, found) = match asked.strip_prefix("show") {
        Some(listed) => shown_in_row(rt, heap, held, listed)?,
        None => changed(rt, heap, held, asked)?,
    };
    Ok(growths >= least && found.as_str().trim_end() == expected)
}

/// Fails with the first row that does not say what is found.
fn check_rows(rt: &impl AllocGlobal, heap: &Refusing<Global>) -> Result<(), Fail> {
    for row in CHANGED.lines() {
        check(row, row.starts_with("# ") || is_so(rt, heap, row)?)?;
    }
    Ok(())
}

#[test]
fn steps_are_changed_and_shown_as_their_rows_say(rt: HostRuntime) -> Result<(), Fail> {
    let heap = Refusing::new(rt.alloc());
    check_rows(&rt, &heap)
}

#[test]
fn lack_of_memory_is_told(rt: HostRuntime) -> Result<(), Fail> {
    let memory = format!(in rt.alloc(); "{}", ChangeFault::Memory)?;
    check_same("memory", memory.as_str(), "out of memory")
}
