//! Records that are not valid.

use crate::lines::record_of_line;
use fixtures::rows::{check_same, cut};
use std::test::Fail;
use ups_journal::entry_of;

/// What is wrong; and records with a column that no request has, each with its fault. Records without a fault, marked
/// `read`, are among them.
const SECTIONS: &str = r#"Who asks has a title, without spaces at its ends
0 SCHED1 1709208000 sweep - - - - - - - | - -> read
0 () 1709208000 sweep - - - - - - - | - -> BadTitle
0 SCHED1_ 1709208000 sweep - - - - - - - | - -> BadTitle
0 _SCHED1 1709208000 sweep - - - - - - - | - -> BadTitle
0 SCHED\1 1709208000 sweep - - - - - - - | - -> BadTitle
0 SEVENTEEN_LETTERS 1709208000 sweep - - - - - - - | - -> BadTitle
# A creation has an instance, which is that of a step, and attributes
0 SCHED1 1709208000 create 1.2.3.1 - - - - - - | -> read
0 SCHED1 1709208000 create - - - - - - - | -> BadColumns
0 SCHED1 1709208000 create () - - - - - - | -> BadInstance
0 SCHED1 1709208000 create 1.2.3.01 - - - - - - | -> BadInstance
0 SCHED1 1709208000 create 1.2.3.1~ - - - - - - | -> BadInstance
0 SCHED1 1709208000 create 1.2.3.1_ - - - - - - | -> BadInstance
0 SCHED1 1709208000 create 1.2.840.10008.5.1.4.34.5 - - - - - - | -> BadInstance
0 SCHED1 1709208000 create 1.2.840.10008.5.1.4.34.5.1 - - - - - - | -> BadInstance
0 SCHED1 1709208000 create 1.2.3.1 - - - - - - | - -> BadColumns
# A creation has nothing else
0 SCHED1 1709208000 create 1.2.3.1 2.25.1 - - - - - | -> BadColumns
0 SCHED1 1709208000 create 1.2.3.1 () - - - - - | -> BadColumns
0 SCHED1 1709208000 create 1.2.3.1 - SCHEDULED - - - - | -> BadColumns
0 SCHED1 1709208000 create 1.2.3.1 - - WATCH1 - - - | -> BadColumns
0 SCHED1 1709208000 create 1.2.3.1 - - - false - - | -> BadColumns
0 SCHED1 1709208000 create 1.2.3.1 - - - - 1 - | -> BadColumns
0 SCHED1 1709208000 create 1.2.3.1 - - - - - 0 | -> BadColumns
# A change has a state, and of an instance and a Transaction UID what was sent
0 PERFORM1 1709208060 change_state - - IN_PROGRESS - - - - | - -> read
0 PERFORM1 1709208060 change_state 1.2.3.1 2.25.1 - - - - - | - -> BadColumns
0 PERFORM1 1709208060 change_state 1.2.3.1 2.25.01 IN_PROGRESS - - - - | - -> BadTransaction
0 PERFORM1 1709208060 change_state 1.2.3.1 2.25.1~ IN_PROGRESS - - - - | - -> BadTransaction
0 PERFORM1 1709208060 change_state 1..3 2.25.1 IN_PROGRESS - - - - | - -> BadInstance
0 PERFORM1 1709208060 change_state 1.2.840.10008.5.1.4.34.5 - IN_PROGRESS - - - - | - -> BadInstance
0 PERFORM1 1709208060 change_state 1.2.3.1 2.25.1 IN_PROGRESS - - - - | -> BadColumns
0 PERFORM1 1709208060 change_state 1.2.3.1 2.25.1 IN_PROGRESS - true - - | - -> BadColumns
# A request to cancel has reasons, if only an empty data set, and no Transaction UID
0 WATCH1 1709208070 request_cancel - - - - - - - | -> read
0 WATCH1 1709208070 request_cancel 1.2.3.1 - - - - - - | - -> BadColumns
0 WATCH1 1709208070 request_cancel 1.2.3.1 2.25.1 - - - - - | -> BadColumns
0 WATCH1 1709208070 request_cancel 1.2.840.10008.5.1.4.34.5.1 - - - - - - | -> BadInstance
# An N-SET has attributes, and names no state
0 SCHED1 1709208080 set - () - - - - - | -> read
0 SCHED1 1709208080 set 1.2.3.1 - - - - - - | - -> BadColumns
0 SCHED1 1709208080 set 1.2.3.1 - COMPLETED - - - - | -> BadColumns
0 SCHED1 1709208080 set 1.2.3.1 TWO - - - - - | -> BadTransaction
# Attributes are bytes as they are written: with each length given, by rising tag, of even length
0 SCHED1 1709208080 set - - - - - - - | 74000212 "LO" 0600 "READS " -> read
0 SCHED1 1709208080 set - - - - - - - | 74000210 "SQ" 0000 08000000 FEFF00E0 00000000 -> read
0 SCHED1 1709208080 set - - - - - - - | 74000210 "SQ" 0000 FFFFFFFF FEFF00E0 00000000 FEFFDDE0 00000000 -> BadSet
0 SCHED1 1709208080 set - - - - - - - | 74000210 "SQ" 0000 10000000 FEFF00E0 FFFFFFFF FEFF0DE0 00000000 -> BadSet
0 SCHED1 1709208080 set - - - - - - - | 74000000 "UL" 0400 0E000000 74000212 "LO" 0600 "READS " -> BadSet
0 SCHED1 1709208080 set - - - - - - - | 74000412 "LO" 0200 "A " 74000212 "LO" 0200 "B " -> BadSet
0 SCHED1 1709208080 set - - - - - - - | 74000212 "LO" 0200 "A " 74000212 "LO" 0200 "B " -> BadSet
0 SCHED1 1709208080 set - - - - - - - | 74000212 "LO" 0500 "READS" -> BadSet
0 SCHED1 1709208080 set - - - - - - - | 74000212 "LO" 0800 "READS " -> BadSet
0 SCHED1 1709208080 set - - - - - - - | 74000212 06000000 "READS " -> BadSet
0 SCHED1 1709208080 set - - - - - - - | 74000212 "LO" 0600 "READS " 00 -> BadSet
# A subscription has a receiver and a lock
0 WATCH1 1709208090 subscribe - - - WATCH1 false - - | - -> read
0 WATCH1 1709208090 subscribe 1.2.3.1 - - - false - - | - -> BadColumns
0 WATCH1 1709208090 subscribe 1.2.3.1 - - WATCH1 - - - | - -> BadColumns
0 WATCH1 1709208090 subscribe 1.2.3.1 - - () false - - | - -> BadReceiver
0 WATCH1 1709208090 subscribe 1.2.3.1 - - WATCH1_ false - - | - -> BadReceiver
0 WATCH1 1709208090 subscribe 1.2.3.1 2.25.1 - WATCH1 false - - | - -> BadColumns
0 WATCH1 1709208090 subscribe 1.2.840.10008.5.1.4.34.6 - - WATCH1 false - - | - -> read
0 WATCH1 1709208090 subscribe WATCH1 - - WATCH1 false - - | - -> BadInstance
# A filter has keys and an offset, and nothing but a filter has them
0 WATCH1 1709208090 subscribe 1.2.840.10008.5.1.4.34.5.1 - - WATCH1 false - -300 | 74000212 "LO" 0400 "RE* " -> read
0 WATCH1 1709208090 subscribe 1.2.840.10008.5.1.4.34.5.1 - - WATCH1 false - - | 74000212 "LO" 0400 "RE* " -> BadColumns
0 WATCH1 1709208090 subscribe 1.2.840.10008.5.1.4.34.5.1 - - WATCH1 false - -300 | - -> BadColumns
0 WATCH1 1709208090 subscribe 1.2.840.10008.5.1.4.34.5 - - WATCH1 false - -300 | - -> BadColumns
0 WATCH1 1709208090 subscribe 1.2.840.10008.5.1.4.34.5 - - WATCH1 false - - | 74000212 "LO" 0400 "RE* " -> BadColumns
0 WATCH1 1709208090 subscribe 1.2.3.1 - - WATCH1 false - - | -> BadColumns
# The keys of a filter can be read, and one of them asks for something
0 WATCH1 1709208090 subscribe 1.2.840.10008.5.1.4.34.5.1 - - WATCH1 false - 0 | -> BadKeys
0 WATCH1 1709208090 subscribe 1.2.840.10008.5.1.4.34.5.1 - - WATCH1 false - 0 | 74000212 "LO" 0000 -> BadKeys
0 WATCH1 1709208090 subscribe 1.2.840.10008.5.1.4.34.5.1 - - WATCH1 false - 0 | 74000212 "LO" 0200 "* " -> BadKeys
0 WATCH1 1709208090 subscribe 1.2.840.10008.5.1.4.34.5.1 - - WATCH1 false - 0 | 40000540 "DT" 0A00 "20241301- " -> BadKeys
0 WATCH1 1709208090 subscribe 1.2.840.10008.5.1.4.34.5.1 - - WATCH1 false - 0 | 74000212 "LO" 0300 "RE*" -> BadSet
# An end of subscriptions has a receiver, and is at a step, everywhere by the one instance that says so, or nowhere
0 WATCH1 1709208100 unsubscribe - - - WATCH1 - - - | - -> read
0 WATCH1 1709208100 unsubscribe 1.2.3.1 - - - - - - | - -> BadColumns
0 WATCH1 1709208100 unsubscribe 1.2.3.1 - - WATCH1 false - - | - -> BadColumns
0 WATCH1 1709208100 unsubscribe 1.2.3.1 - - _ - - - | - -> BadReceiver
0 WATCH1 1709208100 unsubscribe 1.2.840.10008.5.1.4.34.5.1 - - WATCH1 - - - | - -> BadInstance
# A suspension is on the one instance of the global subscription
0 WATCH1 1709208110 suspend 1.2.840.10008.5.1.4.34.5 - - WATCH1 - - - | - -> read
0 WATCH1 1709208110 suspend 1.2.840.10008.5.1.4.34.5.1 - - WATCH1 - - - | - -> BadInstance
0 WATCH1 1709208110 suspend 1.2.3.1 - - WATCH1 - - - | - -> BadInstance
0 WATCH1 1709208110 suspend - - - WATCH1 - - - | - -> BadInstance
0 WATCH1 1709208110 suspend 1.2.840.10008.5.1.4.34.5 - - - - - - | - -> BadColumns
0 WATCH1 1709208110 suspend 1.2.840.10008.5.1.4.34.5 - - W\ - - - | - -> BadReceiver
# An acknowledgement has a number, and a sweep nothing
0 WATCH1 1709208120 acknowledge - - - - - 0 - | - -> read
0 WATCH1 1709208120 acknowledge - - - - - - - | - -> BadColumns
0 WATCH1 1709208120 acknowledge 1.2.3.1 - - - - 1 - | - -> BadColumns
0 WATCH1 1709208120 acknowledge - - - WATCH1 - 1 - | - -> BadColumns
0 WATCH1 1709208120 sweep - - - - - 1 - | - -> BadColumns
0 WATCH1 1709208120 sweep - - - - - - - | -> BadColumns
# A reservation has an instance, which is that of a step, and nothing else
0 SCHED1 1709208130 reserve 1.2.3.1 - - - - - - | - -> read
0 SCHED1 1709208130 reserve - - - - - - - | - -> BadColumns
0 SCHED1 1709208130 reserve () - - - - - - | - -> BadInstance
0 SCHED1 1709208130 reserve 1.2.3.01 - - - - - - | - -> BadInstance
0 SCHED1 1709208130 reserve 1.2.3.1~ - - - - - - | - -> BadInstance
0 SCHED1 1709208130 reserve 1.2.840.10008.5.1.4.34.5 - - - - - - | - -> BadInstance
0 SCHED1 1709208130 reserve 1.2.840.10008.5.1.4.34.5.1 - - - - - - | - -> BadInstance
0 SCHED1 1709208130 reserve 1.2.3.1 2.25.1 - - - - - | - -> BadColumns
0 SCHED1 1709208130 reserve 1.2.3.1 - SCHEDULED - - - - | - -> BadColumns
0 SCHED1 1709208130 reserve 1.2.3.1 - - WATCH1 - - - | - -> BadColumns
0 SCHED1 1709208130 reserve 1.2.3.1 - - - false - - | - -> BadColumns
0 SCHED1 1709208130 reserve 1.2.3.1 - - - - 1 - | - -> BadColumns
0 SCHED1 1709208130 reserve 1.2.3.1 - - - - - 0 | - -> BadColumns
0 SCHED1 1709208130 reserve 1.2.3.1 - - - - - - | -> BadColumns
# A moment is any number: whether it has a date is asked where the record is restored
0 WATCH1 18446744073709551615 sweep - - - - - - - | - -> read"#;

/// Returns the fault of a line, or `read`.
fn fault_of(rt: &impl AllocGlobal, line: &str) -> Result<String, Fail> {
    let stored = record_of_line(rt, rt.alloc(), line)?;
    match entry_of(rt.alloc(), &stored) {
        Ok(_) => Ok(format!(in rt.alloc(); "read")?),
        Err(fault) => Ok(format!(in rt.alloc(); "{fault:?}")?),
    }
}

/// Compares the fault of a row with what the row says.
fn is_told(rt: &impl AllocGlobal, row: &str) -> Result<(), Fail> {
    let (line, fault) = cut(row, " -> ")?;
    check_same(row, fault_of(rt, line)?.as_str(), fault)
}

#[test]
fn a_spoilt_record_stands_for_no_request(rt: HostRuntime) -> Result<(), Fail> {
    for section in SECTIONS.split("\n# ") {
        for row in section.lines().skip(1) {
            is_told(&rt, row)?;
        }
    }
    Ok(())
}
