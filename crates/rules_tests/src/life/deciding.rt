//! The decisions about requests.

use super::words::{request_of, row_of};
use super::*;
use fixtures::rows::cut;

/// Tables. A heading has the columns: what is held of a step, and the request, with the text of a row in place of `..`;
/// `none` is no step, `removed` one that was there before. A row ends with the decision in each column.
const DECIDED: &str = "\
# A step is created once: none | create 1.2.3.1 ..; removed | create 1.2.3.1 ..
B -> 0000 0111
 -> C309 0111
# A step is created as scheduled: none | create 1.2.3.1 B ..
00741000=SCHEDULED -> 0000
00741000=IN_PROGRESS -> C309
00741000=COMPLETED -> C309
00741000=CANCELED -> C309
00741000=scheduled -> C309
00741000=SCHEDULE -> C309
00741000= -> C309
-00741000 -> C309
00741000=<> -> C309
# A step is created without a Transaction UID: none | create 1.2.3.1 B ..
00081195= -> 0000
00081195=~~ -> 0000
00081195=2.1~ -> 0106
00081195=1.2.3.44 -> 0106
00081195=<> -> 0106
# Each checked attribute has to be there with a value: none | create 1.2.3.1 B -..; none | create 1.2.3.1 B ..=; none | create 1.2.3.1 B ..=__; none | create 1.2.3.1 B -.. ..=<>
00404005 -> 0120 0121 0121 0106
00404041 -> 0120 0121 0121 0106
00741200 -> 0120 0121 0121 0106
00741204 -> 0120 0121 0121 0106
# Only the defined terms are taken: none | create 1.2.3.1 B ..
00404041=INCOMPLETE -> 0000
00404041=UNAVAILABLE -> 0000
00404041=READY -> 0000
00404041=MAYBE -> 0106
00404041=ready -> 0106
00404041=HIGH -> 0106
00741200=HIGH -> 0000
00741200=MEDIUM -> 0000
00741200=LOW -> 0000
00741200=URGENT -> 0106
00741200=READY -> 0106
00741204=ANY_TEXT -> 0000
00404005=2024 -> 0000
00404005=20240229120000.5-0500 -> 0000
00404005=20230229 -> 0106
00404005=NOON -> 0106
# The first fault by rising tag is told: none | create 1.2.3.1 ..
 -> C309
00081195=2.1 -> C309
00081195=2.1 00741000=SCHEDULED -> 0106
00741000=SCHEDULED 00741204= -> 0120
00741000=SCHEDULED 00741204= 00404041=MAYBE -> 0120
00741000=SCHEDULED 00741204= 00404041=MAYBE 00404005= -> 0121
00741000=SCHEDULED 00741204= 00404041=MAYBE 00404005=2024 -> 0106
00741000=SCHEDULED 00741204= 00404041=READY 00404005=2024 -> 0120
00741000=SCHEDULED 00741204= 00404041=READY 00404005=2024 00741200=URGENT -> 0106
00741000=SCHEDULED 00741204= 00404041=READY 00404005=2024 00741200=LOW -> 0121
00741000=SCHEDULED 00741204=CT_READ 00404041=READY 00404005=2024 00741200=LOW -> 0000
# The life cycle is that of the standard: none | ..; SCHEDULED - 00741216=[00404050=20240229120100,00404051=20240229120200] 00741002=[00404052=20240229120300] | ..; IN_PROGRESS 2.1 | ..; IN_PROGRESS 2.1 00741216=[00404050=20240229120100,00404051=20240229120200] 00741002=[00404052=20240229120300] | ..; COMPLETED 2.1 00741216=[00404050=20240229120100,00404051=20240229120200] 00741002=[00404052=20240229120300] | ..; CANCELED 2.1 00741216=[00404050=20240229120100,00404051=20240229120200] 00741002=[00404052=20240229120300] | ..; CANCELED - | ..
create 1.2.3.1 B -> 0000 0111 0111 0111 0111 0111 0111
1 1.2.3.1 00741000=IN_PROGRESS 00081195=2.1 -> C307 0000 C302 C302 C300 C300 C300
1 1.2.3.1 00741000=IN_PROGRESS 00081195=2.9 -> C307 0000 C302 C302 C300 C300 C300
1 1.2.3.1 00741000=IN_PROGRESS 00081195=01 -> C307 C301 C301 C301 C301 C301 C301
1 1.2.3.1 00741000=IN_PROGRESS -> C307 C301 C301 C301 C301 C301 C301
1 1.2.3.1 00741000=SCHEDULED 00081195=2.1 -> C307 C303 C303 C303 C303 C303 C303
1 1.2.3.1 00741000=COMPLETED 00081195=2.1 -> C307 C310 C304 0000 B306 C300 C301
1 1.2.3.1 00741000=COMPLETED 00081195=2.9 -> C307 C310 C301 C301 C301 C301 C301
1 1.2.3.1 00741000=COMPLETED 00081195=01 -> C307 C301 C301 C301 C301 C301 C301
1 1.2.3.1 00741000=COMPLETED -> C307 C301 C301 C301 C301 C301 C301
1 1.2.3.1 00741000=CANCELED 00081195=2.1 -> C307 C310 C304 0000 C300 B304 C301
1 1.2.3.1 00741000=CANCELED 00081195=2.9 -> C307 C310 C301 C301 C301 C301 C301
1 1.2.3.1 00741000=CANCELED 00081195=01 -> C307 C301 C301 C301 C301 C301 C301
1 1.2.3.1 00741000=CANCELED -> C307 C301 C301 C301 C301 C301 C301
2 1.2.3.1 -> C307 0000 0000 0000 C311 B304 B304
set 1.2.3.1 00741204=MR_READ 00081195=2.1 -> C307 C310 0000 0000 C300 C300 C300
set 1.2.3.1 00741204=MR_READ 00081195=2.9 -> C307 C310 C301 C301 C300 C300 C300
set 1.2.3.1 00741204=MR_READ 00081195=01 -> C307 C310 C301 C301 C300 C300 C300
set 1.2.3.1 00741204=MR_READ -> C307 0000 C301 C301 C300 C300 C300
# A step is completed after what was performed is told: IN_PROGRESS 2.1 B .. | 1 1.2.3.1 00741000=COMPLETED 00081195=2.1; IN_PROGRESS 2.1 B .. | 1 1.2.3.1 00741000=CANCELED 00081195=2.1
00741216=[00404050=20240229120100,00404051=20240229120200] -> 0000 C304
00741216=[00404050=20240229120100,00404051=20240229120200,00404052=20240229120300] -> 0000 C304
00741216=<> -> C304 C304
00741216=[] -> C304 C304
00741216=[00404050=20240229120100,00404051=20240229120200][00404050=20240229120100,00404051=20240229120200] -> C304 C304
00741216=[00404050=20240229120100][00404051=20240229120200] -> C304 C304
00741216=[00404050=20240229120100] -> C304 C304
00741216=[00404051=20240229120200] -> C304 C304
00741216=[00404050=20240229120100,00404051=__] -> C304 C304
00741216=[00404050=<>,00404051=20240229120200] -> C304 C304
# It is told in a sequence: IN_PROGRESS 2.1 .. | 1 1.2.3.1 00741000=COMPLETED 00081195=2.1
00404050=20240229120100 00404051=20240229120200 -> C304
00741216=20240229120100 00404051=20240229120200 -> C304
# A step is canceled after its time is told: IN_PROGRESS 2.1 B .. | 1 1.2.3.1 00741000=CANCELED 00081195=2.1; IN_PROGRESS 2.1 B .. | 1 1.2.3.1 00741000=COMPLETED 00081195=2.1
00741002=[00404052=20240229120300] -> 0000 C304
00741002=[00404052=20240229120300,00741238=stop] -> 0000 C304
00741002=<> -> C304 C304
00741002=[00741238=stop] -> C304 C304
00741002=[00404052=20240229120300][00404052=20240229120300] -> C304 C304
00741002=[00404052=~~] -> C304 C304
00741002=[00404052=<>] -> C304 C304
# It is told in a sequence: IN_PROGRESS 2.1 .. | 1 1.2.3.1 00741000=CANCELED 00081195=2.1
00404052=20240229120300 -> C304
00741002=20240229120300 -> C304
# How deep the reasons nest is not decided here: SCHEDULED - | 2 1.2.3.1 ..; IN_PROGRESS - | 2 1.2.3.1 ..
deep 7 -> 0000 0000
deep 8 -> 0000 0000";

/// Returns columns with a text in their gaps.
fn filled(rt: &impl AllocGlobal, columns: &str, text: &str) -> Result<String, Fail> {
    let mut filled = String::new(rt.alloc());
    for (place, part) in columns.split("..").enumerate() {
        filled.push_str(if place > 0 { text } else { "" })?;
        filled.push_str(part)?;
    }
    Ok(filled)
}

/// Returns the number of the decision about a request, or None if it takes memory.
fn number_of<A: Allocator + Copy>(
    heap: &Refusing<Global>,
    row: Option<&Row<A>>,
    is_used: bool,
    request: &Request<A>,
) -> Option<u16> {
    heap.refuse(1);
    let status = verdict(row, is_used, request);
    if heap.is_armed() {
        Some(status.code())
    } else {
        None
    }
}

/// Returns the number of the decision in a column, or None if it takes memory.
fn number_in(heap: &Refusing<Global>, column: &str) -> Result<Option<u16>, Fail> {
    heap.refuse(0);
    let (held, message) = cut(column, " | ")?;
    let row = row_of(heap, held)?;
    let request = request_of(heap, message)?;
    Ok(number_of(heap, row.as_ref(), held != "none", &request))
}

/// Adds the number of the decision in a column.
fn add_number(text: &mut String, heap: &Refusing<Global>, column: &str) -> Result<(), Fail> {
    match number_in(heap, column)? {
        Some(number) => Ok(write!(text, " {number:04X}")?),
        None => Err("a decision takes memory".into()),
    }
}

/// Returns the decision in each of these columns.
fn decided(rt: &impl AllocGlobal, heap: &Refusing<Global>, columns: &str) -> Result<String, Fail> {
    let mut numbers = String::new(rt.alloc());
    for column in columns.split("; ") {
        add_number(&mut numbers, heap, column)?;
    }
    Ok(numbers)
}

/// Fails if a decision in the columns is not the one in a row.
fn check_row(
    rt: &impl AllocGlobal,
    heap: &Refusing<Global>,
    columns: &str,
    row: &str,
) -> Result<(), Fail> {
    let (text, wanted) = cut(row, " ->")?;
    let columns = filled(rt, columns, text)?;
    check_same(row, decided(rt, heap, columns.as_str())?.as_str(), wanted)
}

/// Fails if a decision is not the one in the rows of a section.
fn check_section(
    rt: &impl AllocGlobal,
    heap: &Refusing<Global>,
    section: &str,
) -> Result<(), Fail> {
    let (heading, rows) = cut(section, "\n")?;
    let (_, columns) = cut(heading, ": ")?;
    for row in rows.lines() {
        check_row(rt, heap, columns, row)?;
    }
    Ok(())
}

/// Fails if a decision is not the one in the rows.
fn check_sections(rt: &impl AllocGlobal, heap: &Refusing<Global>) -> Result<(), Fail> {
    for section in DECIDED.split("# ") {
        if !section.is_empty() {
            check_section(rt, heap, section)?;
        }
    }
    Ok(())
}

// PS3.4 CC.1.1, CC.2.1, CC.2.2, CC.2.5, CC.2.6.
#[test]
fn requests_are_decided_as_the_tables_say(rt: HostRuntime) -> Result<(), Fail> {
    let heap = Refusing::new(rt.alloc());
    check_sections(&rt, &heap)
}

#[test]
fn the_checked_attributes_have_their_rules(rt: HostRuntime) -> Result<(), Fail> {
    let mut text = String::new(rt.alloc());
    for checked in CHECKED {
        let part = format!(in rt.alloc(); "{:08x} {:?} ", checked.tag.number(), checked.rule)?;
        text.push_str(part.as_str())?;
    }
    assert_eq!(rt;
        text.as_str(),
        "00404005 DateTime 00404041 Readiness 00741200 Priority 00741204 AnyText "
    );
    Ok(())
}
