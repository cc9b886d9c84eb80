//! The contents of event reports, encoded in Explicit VR Little Endian.

use fixtures::rows::{behind, check, cut, cut_twice, number};
use fixtures::{Refusing, bytes_of, title, uid};
use std::alloc::{Allocator, Global};
use std::test::Fail;
use ups_cycle::StepState;
use ups_dataset::{DataSet, read_set, write_set};
use ups_life::{Entry, Event, EventKind, InputReadiness, Request, StepUid, Transaction};
use ups_pdu::TransferSyntax;
use ups_reports::{payload, type_id};

/// The maximum number of growths that a test refuses in turn.
const GROWTHS: u64 = 100;

/// Words, and the bytes that each stands for.
const WORDS: &str = r#"READY: 40004140 "CS" 0600 "READY "
INCOMPLETE: 40004140 "CS" 0a00 "INCOMPLETE"
UNAVAILABLE: 40004140 "CS" 0c00 "UNAVAILABLE "
NO_READINESS: 40004140 "CS" 0000
SCHEDULED: 74000010 "CS" 0a00 "SCHEDULED "
IN_PROGRESS: 74000010 "CS" 0c00 "IN PROGRESS "
COMPLETED: 74000010 "CS" 0a00 "COMPLETED "
CANCELED: 74000010 "CS" 0800 "CANCELED"
CONTACT: 74000a10 "UR" 0000 08000000 "urn:x:1 " 74000c10 "LO" 0400 "Duty"
CODE: 74000e10 "SQ" 0000 16000000 feff00e0 0e000000 08000001 "SH" 0600 "110513"
LABEL: 74000412 "LO" 0800 "CT READ "
REQUESTER: 74003612 "AE" 0400 "DOC "
REASON: 74003812 "LT" 0400 "stop"
STATION: 40002540 "SQ" 0000 14000000 feff00e0 0c000000 08000001 "SH" 0400 "CT1 "
PROGRESS: 74000210 "SQ" 0000 12000000 feff00e0 0a000000 74000410 "DS" 0200 "50"
PERFORMERS: 40003440 "SQ" 0000 ffffffff
ITEM: feff00e0 ffffffff
ITEM_END: feff0de0 00000000
SEQUENCE_END: feffdde0 00000000
NAME: 40003740 "PN" 0400 "A^B "
DR1: 40000940 "SQ" 0000 14000000 feff00e0 0c000000 08000001 "SH" 0400 "DR1 "
DR2: 40000940 "SQ" 0000 14000000 feff00e0 0c000000 08000001 "SH" 0400 "DR2 "
NO_PERFORMER: 40000940 "SQ" 0000 00000000
HOSP: 40003640 "LO" 0400 "HOSP"
HOME: 40003640 "LO" 0400 "HOME"
NO_ORGANIZATION: 40003640 "LO" 0000"#;

/// The least number of growths; the type of an event, the state of the step after it, and its readiness; the request of
/// DOC that caused the event; and what the event says.
const ROWS: &str = "\
# The state of a step is reported, and nothing that its creation sent beside
1: 1|SCHEDULED|READY; create CONTACT CODE LABEL REASON -> READY SCHEDULED
1: 1|IN PROGRESS|READY; create CONTACT CODE LABEL REASON -> READY IN_PROGRESS
1: 1|COMPLETED|READY; create CONTACT CODE LABEL REASON -> READY COMPLETED
1: 1|CANCELED|READY; create CONTACT CODE LABEL REASON -> READY CANCELED
# The readiness of a step is reported
1: 1|SCHEDULED|READY; create CONTACT CODE LABEL REASON -> READY SCHEDULED
1: 1|SCHEDULED|INCOMPLETE; create CONTACT CODE LABEL REASON -> INCOMPLETE SCHEDULED
1: 1|SCHEDULED|UNAVAILABLE; create CONTACT CODE LABEL REASON -> UNAVAILABLE SCHEDULED
1: 1|SCHEDULED|; create CONTACT CODE LABEL REASON -> NO_READINESS SCHEDULED
# A cancellation is reported with its reason
1: 1|IN PROGRESS|READY; cancel CONTACT CODE LABEL REASON -> READY IN_PROGRESS
4: 1|CANCELED|READY; cancel CONTACT CODE LABEL REASON -> READY CANCELED CODE REASON
1: 1|CANCELED|READY; cancel -> READY CANCELED
# A performer is told who asks to cancel
5: 2|IN PROGRESS|READY; cancel CONTACT CODE LABEL REASON -> CONTACT CODE REQUESTER REASON
5: 2|CANCELED|READY; cancel CONTACT CODE LABEL REASON -> CONTACT CODE REQUESTER REASON
1: 2|IN PROGRESS|READY; cancel -> REQUESTER
# Progress is reported as it is set
1: 3|IN PROGRESS|READY; set STATION PROGRESS -> PROGRESS
0: 3|IN PROGRESS|READY; set CONTACT CODE LABEL REASON ->
4: 3|CANCELED|READY; set STATION PERFORMERS ITEM DR1 NAME ITEM_END SEQUENCE_END PROGRESS -> PROGRESS
# An assignment names the first performer
1: 5|SCHEDULED|READY; set STATION PROGRESS -> STATION
1: 5|SCHEDULED|READY; set STATION PERFORMERS SEQUENCE_END PROGRESS -> NO_PERFORMER STATION NO_ORGANIZATION
1: 5|SCHEDULED|READY; set STATION PERFORMERS ITEM NAME ITEM_END SEQUENCE_END PROGRESS -> NO_PERFORMER STATION NO_ORGANIZATION
1: 5|SCHEDULED|READY; set STATION PERFORMERS ITEM DR1 HOSP NAME ITEM_END ITEM DR2 HOME NAME ITEM_END SEQUENCE_END PROGRESS -> DR1 STATION HOSP
12: 5|CANCELED|READY; set STATION PERFORMERS ITEM DR1 NAME ITEM_END SEQUENCE_END PROGRESS -> DR1 STATION NO_ORGANIZATION";

/// Returns the bytes that words stand for.
fn bytes_by(rt: &impl AllocGlobal, words: &str) -> Result<Vec<u8>, Fail> {
    let mut text = String::new(rt.alloc());
    for word in words.split_ascii_whitespace() {
        text.push_str(behind(WORDS, word, ": ")?)?;
        text.push(' ')?;
    }
    bytes_of(rt, text.as_str())
}

/// Returns the UID of the step of the events.
fn step_of_events() -> Result<StepUid, Fail> {
    Ok(StepUid::of(uid("1.2.3.4")?).ok_or("the UID of a step")?)
}

/// Returns the kind of events whose type has this number.
fn kind_of(number: u64) -> Result<EventKind, Fail> {
    let kind = match number {
        1 => EventKind::StateReport,
        2 => EventKind::CancelRequested,
        3 => EventKind::ProgressReport,
        _ => EventKind::Assigned,
    };
    if u64::from(type_id(kind)) != number {
        return Err("a kind has another type".into());
    }
    Ok(kind)
}

/// Returns an event of the step: the number of its type, the state and the readiness.
fn event_of(text: &str) -> Result<Event, Fail> {
    let (kind, state, readiness) = cut_twice(text, "|", "|")?;
    Ok(Event {
        number: 1,
        entry: 0,
        kind: kind_of(number(kind)?)?,
        step: step_of_events()?,
        state: StepState::of(state.as_bytes()).ok_or("a state")?,
        readiness: InputReadiness::of(readiness.as_bytes()),
    })
}

/// Returns a request on a step with a set.
fn request_of<A: Allocator + Copy>(verb: &str, step: StepUid, set: DataSet<A>) -> Request<A> {
    match verb {
        "create" => Request::Create {
            step,
            attributes: set,
        },
        "cancel" => Request::AskCancel {
            step: Some(step),
            reasons: set,
        },
        _ => Request::Set {
            step: Some(step),
            transaction: Transaction::Absent,
            attributes: set,
        },
    }
}

/// Returns the set that words stand for.
fn set_by<'a>(
    rt: &impl AllocGlobal,
    heap: &'a Refusing<Global>,
    words: &str,
) -> Result<DataSet<&'a Refusing<Global>>, Fail> {
    heap.refuse(0);
    let bytes = bytes_by(rt, words)?;
    Ok(read_set(heap, TransferSyntax::Explicit, &bytes)?)
}

/// Returns the entry of a request: a verb, and the words of a set.
fn entry_of<'a>(
    rt: &impl AllocGlobal,
    heap: &'a Refusing<Global>,
    text: &str,
) -> Result<Entry<&'a Refusing<Global>>, Fail> {
    let (verb, words) = text.split_once(' ').unwrap_or((text, ""));
    let ae = title("DOC")?;
    let step = step_of_events()?;
    let set = set_by(rt, heap, words)?;
    Ok(Entry {
        caller: 0,
        ae,
        moment: 0,
        request: request_of(verb, step, set),
    })
}

/// Returns the number of growths that the contents of an event take, each refused in turn, and the contents.
fn told_in_turn<'a>(
    heap: &'a Refusing<Global>,
    event: &Event,
    entry: &Entry<&'a Refusing<Global>>,
) -> Result<(u64, DataSet<&'a Refusing<Global>>), Fail> {
    for growths in 0..GROWTHS {
        heap.refuse(growths + 1);
        let set = payload(heap, event, entry);
        let is_refused = !heap.is_armed();
        match set {
            Ok(set) if !is_refused => return Ok((growths, set)),
            Err(_) if is_refused => (),
            _ => return Err("no lack of memory where a growth is refused".into()),
        }
    }
    Err("there are more growths".into())
}

/// Returns whether a set is encoded as these bytes.
fn is_written<A: Allocator + Copy>(set: &DataSet<A>, bytes: &[u8]) -> Result<bool, Fail> {
    if set.size() >= 0x1_0000_0000 {
        return Err("a set of 4 GB or more".into());
    }
    Ok(write_set(set.allocator(), TransferSyntax::Explicit, set)?.as_slice() == bytes)
}

/// Returns whether an event of an entry says these bytes, with at least `least` growths.
fn says<'a>(
    heap: &'a Refusing<Global>,
    event: &Event,
    entry: &Entry<&'a Refusing<Global>>,
    least: u64,
    bytes: &[u8],
) -> Result<bool, Fail> {
    let (growths, set) = told_in_turn(heap, event, entry)?;
    heap.refuse(0);
    Ok(growths >= least && is_written(&set, bytes)?)
}

/// Returns whether an event of an entry says these bytes, given the words for the event and for the number of growths.
fn says_by_words<'a>(
    heap: &'a Refusing<Global>,
    event: &str,
    entry: &Entry<&'a Refusing<Global>>,
    least: &str,
    bytes: &[u8],
) -> Result<bool, Fail> {
    let event = event_of(event)?;
    says(heap, &event, entry, number(least)?, bytes)
}

/// Returns whether the event of a row says these bytes.
fn is_said(
    rt: &impl AllocGlobal,
    heap: &Refusing<Global>,
    row: &str,
    bytes: &[u8],
) -> Result<bool, Fail> {
    let (least, event, request) = cut_twice(row, ": ", "; ")?;
    let entry = entry_of(rt, heap, request)?;
    says_by_words(heap, event, &entry, least, bytes)
}

/// Returns whether an event says what its row says.
fn is_so(rt: &impl AllocGlobal, heap: &Refusing<Global>, row: &str) -> Result<bool, Fail> {
    let (row, said) = cut(row, " ->")?;
    let bytes = bytes_by(rt, said)?;
    is_said(rt, heap, row, &bytes)
}

#[test]
fn events_say_what_their_rows_say(rt: HostRuntime) -> Result<(), Fail> {
    let heap = Refusing::new(rt.alloc());
    for row in ROWS.lines() {
        check(row, row.starts_with("# ") || is_so(&rt, &heap, row)?)?;
    }
    Ok(())
}
