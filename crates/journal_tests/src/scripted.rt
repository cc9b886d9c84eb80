//! Records as lines of a script, and lines as records.

use crate::lines::record_of_line;
use crate::recorded::SECTIONS;
use fixtures::rows::{check_same, cut_twice};
use std::str;
use std::test::Fail;
use ups_journal::record_of;
use ups_requests::{Untold, entry_in, line_of};

/// The lines of the records of `SECTIONS`, in their order. The bytes were written by hand, from PS3.5 section 7.1.2.
const LINES: &str = "\
1709208000 SCHED1 create 1.2.3.1 : 00741200=MEDIUM 00741204=CT%20READ%20
0 A%20LONGER%20TITLE16 create 2.25.340282366920938463463374607431768211455 :
1709208060 PERFORM1 change 1.2.3.1 IN%20PROGRESS 2.25.1
1709208060 PERFORM1 change 1.2.3.1 COMPLETED 2.25.1
1709208060 PERFORM1 change 1.2.3.1 CANCELED 2.25.1
1709208060 PERFORM1 change 1.2.3.1 SCHEDULED -
1709208060 PERFORM1 change - CANCELED %2D
1709208070 WATCH1 cancel 1.2.3.1 : :74000E105351000016000000FEFF00E00E0000000800000153480600313130353133 00741238=STOP
1709208070 WATCH1 cancel 1.2.3.1 :
1709208080 PERFORM1 set 1.2.3.1 - : 00081195=2.25.1 :74001612535100001E000000FEFF00E0160000004000504044540E003230323430323239313230313030
1709208080 SCHED1 set 1.2.3.1 - : 00081195= :740002105351000000000000 00741202=READS%20
1709208090 WATCH1 subscribe 1.2.3.1 WATCH1 TRUE : 00741230=TRUE 00741234=WATCH1
1709208090 WATCH1 subscribe - WATCH2 FALSE : 00741230=FALSE 00741234=WATCH2
1709208090 WATCH1 subscribe global WATCH1 FALSE : 00741230=FALSE 00741234=WATCH1
1709208090 WATCH1 subscribe filtered WATCH1 FALSE : 00404005=20240301-%20 00741202=RE*%20 00741230=FALSE 00741234=WATCH1
1709208100 WATCH1 unsubscribe 1.2.3.1 WATCH1
1709208100 WATCH1 unsubscribe global WATCH1
1709208100 WATCH1 unsubscribe global WATCH1
1709208110 WATCH1 suspend global WATCH1
1709208120 WATCH1 ack 18446744073709551615
253402250399 UPS%20SERVER sweep
1709208130 UPS%20SERVER reserve 1.2.3.1";

/// Lines of further requests, as they are written: a private element with its VR, a sequence whose last item has no
/// elements, spaces and a NUL at the end of values, bytes beyond ASCII, an N-SET with a malformed Transaction UID, and
/// keys before, between and behind Deletion Lock and Receiving AE.
const OTHERS: &str = "\
60 S create 1.2.3.1 : :090010004C4F040041434D45 :09000110555302000700
60 S create 1.2.3.1 : :740002105351000010000000FEFF00E000000000FEFF00E000000000
60 S create 1.2.3.1 : 00081195=2.1%00 00741204=A%20%20%20 00741238=%C3%A9
60 S set 1.2.3.1 - : 00081195=0.01
60 W1 subscribe filtered W1 TRUE : 00404041=READY%20 00741200=HIGH 00741230=TRUE 00741232=%00%00 00741234=W1 00780001=%00%00";

/// Lines that tell no request: no exact ones, and those that ask for none.
const NONE: &str = "\
60 S create 1.2.3.1 00741204=A
60 S create 1.2.3.1
60 S set 1.2.3.1 2.1 00741204=A
60 S find :
60 S get 1.2.3.1
60 S held
60 S create global :
60 S reserve global
60 S reserve 1.2.3.1 1.2.3.2
60 S create 1.2.3.1 : 00741204";

/// Returns the line of the request that a line tells, for keys that are read with an offset of 60 minutes.
fn line_again(rt: &impl AllocGlobal, line: &str) -> Result<String, Fail> {
    let alloc = rt.alloc();
    let Ok(entry) = entry_in(alloc, line.as_bytes(), 7, 60) else {
        return Err(line.into());
    };
    let again = line_of(alloc, &record_of(alloc, &entry)?, 60)?;
    let text = str::from_utf8(&again).ok().ok_or("a text")?;
    Ok(text.to_owned(alloc)?)
}

/// Returns the line of a record.
fn line_of_record(rt: &impl AllocGlobal, record: &str) -> Result<String, Fail> {
    let alloc = rt.alloc();
    let stored = record_of_line(rt, alloc, record)?;
    let line = line_of(alloc, &stored, 60)?;
    let text = str::from_utf8(&line).ok().ok_or("a text")?;
    Ok(text.to_owned(alloc)?)
}

#[test]
fn each_record_has_its_line(rt: HostRuntime) -> Result<(), Fail> {
    let mut lines = LINES.lines();
    for section in SECTIONS.split("\n# ") {
        let (heading, _, record) = cut_twice(section, "\n", "\n")?;
        let wanted = lines.next().ok_or("a line")?;
        check_same(heading, line_of_record(&rt, record)?.as_str(), wanted)?;
    }
    check_same("the lines", lines.next().unwrap_or(""), "")
}

#[test]
fn each_line_tells_the_record_that_has_it(rt: HostRuntime) -> Result<(), Fail> {
    for line in LINES.lines() {
        check_same(line, line_again(&rt, line)?.as_str(), line)?;
    }
    for line in OTHERS.lines() {
        check_same(line, line_again(&rt, line)?.as_str(), line)?;
    }
    Ok(())
}

#[test]
fn other_lines_tell_none(rt: HostRuntime) -> Result<(), Fail> {
    for line in NONE.lines() {
        match entry_in(rt.alloc(), line.as_bytes(), 7, 60) {
            Err(Untold::Unsayable) => {}
            _ => return Err(line.into()),
        }
    }
    Ok(())
}
