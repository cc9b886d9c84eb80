//! Requests that are recorded, and read again.

use crate::days::request_of;
use crate::lines::{caller_of, moment_of, record_of_line, told, word_at, word_bytes};
use fixtures::rows::{check_same, cut_twice};
use std::alloc::Allocator;
use std::test::Fail;
use ups_journal::laws::what_is_recorded_is_read_again;
use ups_journal::{entry_of, record_of};
use ups_life::Entry;
use ups_pdu::Ae;

/// What happens; the request, by the words of a message, whose keys are read with an offset of 60 minutes; and the
/// record, as a line. The columns and the bytes were written by hand, from PS3.5 sections 7.1.2 and 7.5.
pub(crate) const SECTIONS: &str =
    r#"A step is created: its instance, and its attributes by rising tag
create 1.2.3.1 00741204=CT_READ_ 00741200=MEDIUM
7 SCHED1 1709208000 create 1.2.3.1 - - - - - - | 74000012 "CS" 0600 "MEDIUM" 74000412 "LO" 0800 "CT READ "
# A step is created by the last caller there can be, with a title of 16 characters, at the moment 0 and without attributes
create 2.25.340282366920938463463374607431768211455
4294967295 A_LONGER_TITLE16 0 create 2.25.340282366920938463463374607431768211455 - - - - - - |
# A step is claimed: the state that it is to have, and the Transaction UID
1 1.2.3.1 00741000=IN_PROGRESS 00081195=2.25.1
0 PERFORM1 1709208060 change_state 1.2.3.1 2.25.1 IN_PROGRESS - - - - | -
# A step is completed
1 1.2.3.1 00741000=COMPLETED 00081195=2.25.1
0 PERFORM1 1709208060 change_state 1.2.3.1 2.25.1 COMPLETED - - - - | -
# A step is canceled by its performer
1 1.2.3.1 00741000=CANCELED 00081195=2.25.1
0 PERFORM1 1709208060 change_state 1.2.3.1 2.25.1 CANCELED - - - - | -
# A change without a Transaction UID has none in its record
1 1.2.3.1 00741000=SCHEDULED
0 PERFORM1 1709208060 change_state 1.2.3.1 - SCHEDULED - - - - | -
# A change with a Transaction UID that is none has an empty one, and an instance that is none is no column
1 01 00741000=CANCELED 00081195=01
0 PERFORM1 1709208060 change_state - () CANCELED - - - - | -
# A cancel is asked for with reasons: a code in a sequence, and a text
2 1.2.3.1 0074100e=[00080100=110513] 00741238=STOP
1 WATCH1 1709208070 request_cancel 1.2.3.1 - - - - - - | 74000E10 "SQ" 0000 16000000 FEFF00E0 0E000000 08000001 "SH" 0600 "110513" 74003812 "LT" 0400 "STOP"
# A cancel is asked for without reasons: an empty data set is no empty column
2 1.2.3.1
1 WATCH1 1709208070 request_cancel 1.2.3.1 - - - - - - |
# A performer sets attributes: its Transaction UID is a column, and stays among the attributes
set 1.2.3.1 00081195=2.25.1 00741216=[00404050=20240229120100]
0 PERFORM1 1709208080 set 1.2.3.1 2.25.1 - - - - - | 08009511 "UI" 0600 "2.25.1" 74001612 "SQ" 0000 1E000000 FEFF00E0 16000000 40005040 "DT" 0E00 "20240229120100"
# Attributes of a scheduled step are set: a Transaction UID without a value is none
set 1.2.3.1 00081195= 00741202=READS 00741002=<>
0 SCHED1 1709208080 set 1.2.3.1 - - - - - - | 08009511 "UI" 0000 74000210 "SQ" 0000 00000000 74000212 "LO" 0600 "READS "
# A watcher subscribes to a step with a lock
3 1.2.3.1 00741234=WATCH1 00741230=TRUE
2 WATCH1 1709208090 subscribe 1.2.3.1 - - WATCH1 true - - | -
# A watcher is subscribed by another to a step whose instance is none
3 01 00741234=WATCH2 00741230=FALSE
2 WATCH1 1709208090 subscribe - - - WATCH2 false - - | -
# A watcher subscribes to each step: the instance that stands for them (PS3.4 CC.2.3)
3 global 00741234=WATCH1 00741230=FALSE
2 WATCH1 1709208090 subscribe 1.2.840.10008.5.1.4.34.5 - - WATCH1 false - - | -
# A watcher subscribes by keys: the instance for that, the keys without receiver and lock, and by which offset they are read
3 filtered 00741234=WATCH1 00741230=FALSE 00404005=20240301- 00741202=RE*
2 WATCH1 1709208090 subscribe 1.2.840.10008.5.1.4.34.5.1 - - WATCH1 false - 60 | 40000540 "DT" 0A00 "20240301- " 74000212 "LO" 0400 "RE* "
# A watcher unsubscribes from a step
4 1.2.3.1 00741234=WATCH1
2 WATCH1 1709208100 unsubscribe 1.2.3.1 - - WATCH1 - - - | -
# A watcher unsubscribes from all steps
4 global 00741234=WATCH1
2 WATCH1 1709208100 unsubscribe 1.2.840.10008.5.1.4.34.5 - - WATCH1 - - - | -
# A watcher unsubscribes from all steps by the instance of the filtered subscription, which says the same
4 filtered 00741234=WATCH1
2 WATCH1 1709208100 unsubscribe 1.2.840.10008.5.1.4.34.5 - - WATCH1 - - - | -
# A watcher is not subscribed to steps that are yet to come any more
5 filtered 00741234=WATCH1
2 WATCH1 1709208110 suspend 1.2.840.10008.5.1.4.34.5 - - WATCH1 - - - | -
# A watcher acknowledges its events up to the last number there can be
ack 18446744073709551615
2 WATCH1 1709208120 acknowledge - - - - - 18446744073709551615 - | -
# Steps are removed at the last moment there is
sweep
3 UPS_SERVER 253402250399 sweep - - - - - - - | -
# An instance UID is reserved
reserve 1.2.3.1
3 UPS_SERVER 1709208130 reserve 1.2.3.1 - - - - - - | -"#;

/// Returns the entry of a request, with the caller, the title and the moment of a line.
pub(crate) fn entry_of_words<A: Allocator + Copy>(
    alloc: A,
    words: &str,
    line: &str,
) -> Result<Entry<A>, Fail> {
    let title = word_bytes(alloc, word_at(line, 1))?;
    let ae = Ae::of(title.as_slice()).ok_or("a title")?;
    Ok(Entry {
        caller: caller_of(line)?,
        ae,
        moment: moment_of(line)?,
        request: request_of(alloc, words, 60)?,
    })
}

/// Returns the record of an entry, as a text.
fn recorded(rt: &impl AllocGlobal, words: &str, line: &str) -> Result<String, Fail> {
    let entry = entry_of_words(rt.alloc(), words, line)?;
    told(rt, &record_of(rt.alloc(), &entry)?)
}

/// Returns the record of the entry that is read from the record of an entry.
fn recorded_twice(rt: &impl AllocGlobal, words: &str, line: &str) -> Result<String, Fail> {
    let entry = entry_of_words(rt.alloc(), words, line)?;
    let again = what_is_recorded_is_read_again(rt.alloc(), &entry)?;
    told(rt, &record_of(rt.alloc(), &again)?)
}

/// Returns the record of the entry that is read from a line.
fn read(rt: &impl AllocGlobal, line: &str) -> Result<String, Fail> {
    let stored = record_of_line(rt, rt.alloc(), line)?;
    let entry = entry_of(rt.alloc(), &stored)?;
    told(rt, &record_of(rt.alloc(), &entry)?)
}

/// Returns the record of a line, as a text.
fn written(rt: &impl AllocGlobal, line: &str) -> Result<String, Fail> {
    told(rt, &record_of_line(rt, rt.alloc(), line)?)
}

#[test]
fn each_request_is_recorded_column_by_column(rt: HostRuntime) -> Result<(), Fail> {
    for section in SECTIONS.split("\n# ") {
        let (heading, words, line) = cut_twice(section, "\n", "\n")?;
        let wanted = written(&rt, line)?;
        check_same(
            heading,
            recorded(&rt, words, line)?.as_str(),
            wanted.as_str(),
        )?;
    }
    Ok(())
}

#[test]
fn each_record_is_read_as_its_request(rt: HostRuntime) -> Result<(), Fail> {
    for section in SECTIONS.split("\n# ") {
        let (heading, words, line) = cut_twice(section, "\n", "\n")?;
        let wanted = written(&rt, line)?;
        check_same(heading, read(&rt, line)?.as_str(), wanted.as_str())?;
        check_same(
            heading,
            recorded_twice(&rt, words, line)?.as_str(),
            wanted.as_str(),
        )?;
    }
    Ok(())
}
