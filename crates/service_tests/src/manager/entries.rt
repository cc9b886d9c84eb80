use super::{answer_to, picture};
use fixtures::rows::check_same;
use std::alloc::Global;
use std::test::Fail;
use ups_manager::*;

/// Sections, each with its own manager: what happens, and how it is asked, by callers or as a service. Then come lines
/// with their replies, and all that the manager tells in the end: the entries, and for each step its holder and what is
/// shown.
const SECTIONS: &str = "An entry says who asked, when and what | by callers
7 SCHED2 0 create 1.2.3.1 - -| -> 0000
0 SCHED1 1709208000 create 1.2.3.22 - -|00100020=4711 -> 0000
9 PERFORM2 1709208120 create 1.2.3.1 - -| -> 0111
9 PERFORM2 1709208120 set 1.2.3.1 - -|00100020=4712 -> 0000
0 PERFORM1 1709208060 change 1.2.3.1 IN_PROGRESS 2.1| -> 0000
7 SCHED2 0 cancel 1.2.3.1 - -|00741238=stop -> 0000
4294967295 PERFORM1 253402250399 set 1.2.3.1 - 2.1|00741216/00404050=20240229120100,00404051=20240229120200 -> 0000
0 PERFORM1 1709208060 change 1.2.3.1 COMPLETED 2.1| -> 0000
7 SCHED2 0 create 1.2.3.1 - -|00404005=20240229120000 00404041=READY_ 00741000=SCHEDULED_ 00741200=MEDIUM 00741204=CT_READ_
0 SCHED1 1709208000 create 1.2.3.22 - -|00100020=4711 00404005=20240229120000 00404041=READY_ 00741000=SCHEDULED_ 00741200=MEDIUM 00741204=CT_READ_
9 PERFORM2 1709208120 set 1.2.3.1 - -|00100020=4712
0 PERFORM1 1709208060 change 1.2.3.1 IN PROGRESS 2.1|
7 SCHED2 0 cancel 1.2.3.1 - -|00741238=stop
4294967295 PERFORM1 253402250399 set 1.2.3.1 - 2.1|00741216=[00404050=20240229120100 00404051=20240229120200 ]
0 PERFORM1 1709208060 change 1.2.3.1 COMPLETED 2.1|
0 PERFORM1: 0000 00080016=1.2.840.10008.5.1.4.34.6.1 00080018=1.2.3.1_ 00100020=4712 00404005=20240229120000 00404041=READY_ 00741000=COMPLETED_ 00741200=MEDIUM 00741204=CT_READ_ 00741216=[00404050=20240229120100 00404051=20240229120200 ]
-: C307
-: C307
# Each step has the holder that claimed it | by callers
0 SCHED1 1709208000 create 1.2.3.1 - -| -> 0000
0 SCHED1 1709208000 create 1.2.3.2 - -| -> 0000
0 SCHED1 1709208000 create 1.2.3.3 - -| -> 0000
9 PERFORM2 1709208120 change 1.2.3.2 IN_PROGRESS 2.1| -> 0000
4294967295 PERFORM1 1709208060 change 1.2.3.1 IN_PROGRESS 2.1| -> 0000
0 SCHED1 1709208000 set 1.2.3.2 - 2.1|00741216/00404050=20240229120100,00404051=20240229120200 -> 0000
0 SCHED1 1709208000 cancel 1.2.3.2 - -| -> 0000
0 PERFORM1 1709208060 change 1.2.3.2 COMPLETED 2.1| -> 0000
0 SCHED1 1709208000 create 1.2.3.1 - -|00404005=20240229120000 00404041=READY_ 00741000=SCHEDULED_ 00741200=MEDIUM 00741204=CT_READ_
0 SCHED1 1709208000 create 1.2.3.2 - -|00404005=20240229120000 00404041=READY_ 00741000=SCHEDULED_ 00741200=MEDIUM 00741204=CT_READ_
0 SCHED1 1709208000 create 1.2.3.3 - -|00404005=20240229120000 00404041=READY_ 00741000=SCHEDULED_ 00741200=MEDIUM 00741204=CT_READ_
9 PERFORM2 1709208120 change 1.2.3.2 IN PROGRESS 2.1|
4294967295 PERFORM1 1709208060 change 1.2.3.1 IN PROGRESS 2.1|
0 SCHED1 1709208000 set 1.2.3.2 - 2.1|00741216=[00404050=20240229120100 00404051=20240229120200 ]
0 SCHED1 1709208000 cancel 1.2.3.2 - -|
0 PERFORM1 1709208060 change 1.2.3.2 COMPLETED 2.1|
4294967295 PERFORM1: 0000 00080016=1.2.840.10008.5.1.4.34.6.1 00080018=1.2.3.1_ 00404005=20240229120000 00404041=READY_ 00741000=IN_PROGRESS_ 00741200=MEDIUM 00741204=CT_READ_
9 PERFORM2: 0000 00080016=1.2.840.10008.5.1.4.34.6.1 00080018=1.2.3.2_ 00404005=20240229120000 00404041=READY_ 00741000=COMPLETED_ 00741200=MEDIUM 00741204=CT_READ_ 00741216=[00404050=20240229120100 00404051=20240229120200 ]
-: 0000 00080016=1.2.840.10008.5.1.4.34.6.1 00080018=1.2.3.3_ 00404005=20240229120000 00404041=READY_ 00741000=SCHEDULED_ 00741200=MEDIUM 00741204=CT_READ_
# A service answers and enters as caller 0, and an item without keys asks for its sequence | as a service
7 SCHED1 1709208000 create 1.2.3.1 - -| -> 0000
9 PERFORM2 1709208120 create 1.2.3.1 - -| -> 0111
9 PERFORM2 1709208120 change 1.2.3.1 IN_PROGRESS 2.1| -> 0000
9 PERFORM2 1709208120 cancel 1.2.3.1 - -| -> 0000
9 PERFORM2 1709208120 set 1.2.3.1 - 2.2|00741216/00404050=20240229120100,00404051=20240229120200 -> C301
7 SCHED1 1709208000 get 1.2.3.1 - -| -> 0000 00080016=1.2.840.10008.5.1.4.34.6.1 00080018=1.2.3.1_ 00404005=20240229120000 00404041=READY_ 00741000=IN_PROGRESS_ 00741200=MEDIUM 00741204=CT_READ_
7 SCHED1 1709208000 find 1.2.3.1 - -|00081195=2.7|00100010=* |00741002/|00751001= -> 0000 00081195= 00100010= 00741002= 00751001=
0 SCHED1 1709208000 create 1.2.3.1 - -|00404005=20240229120000 00404041=READY_ 00741000=SCHEDULED_ 00741200=MEDIUM 00741204=CT_READ_
0 PERFORM2 1709208120 change 1.2.3.1 IN PROGRESS 2.1|
0 PERFORM2 1709208120 cancel 1.2.3.1 - -|
0 PERFORM2: 0000 00080016=1.2.840.10008.5.1.4.34.6.1 00080018=1.2.3.1_ 00404005=20240229120000 00404041=READY_ 00741000=IN_PROGRESS_ 00741200=MEDIUM 00741204=CT_READ_
-: C307
-: C307";

/// Returns the row that a line makes. A line that enters no request must change nothing that the manager tells.
fn row_of(
    rt: &impl AllocGlobal,
    manager: &mut Manager<Global>,
    line: &str,
    is_service: bool,
) -> Result<String, Fail> {
    let entries = manager.history().len();
    let before = picture(rt, manager)?;
    let reply = answer_to(rt, manager, line, is_service)?;
    let is_entered = manager.history().len() > entries;
    if !is_entered && picture(rt, manager)?.as_str() != before.as_str() {
        return Err("a line without an entry that changes what is told".into());
    }
    Ok(format!(in rt.alloc(); "{line} -> {reply}\n")?)
}

/// Returns the rows that a section's lines make, and all that the manager tells in the end.
fn rows_with(
    rt: &impl AllocGlobal,
    manager: &mut Manager<Global>,
    rows: &str,
    is_service: bool,
) -> Result<String, Fail> {
    let mut text = String::new(rt.alloc());
    for row in rows.lines() {
        if let Some((line, _)) = row.split_once(" -> ") {
            text.push_str(row_of(rt, manager, line, is_service)?.as_str())?;
        }
    }
    text.push_str(picture(rt, manager)?.as_str())?;
    Ok(text)
}

/// The same with a new manager.
fn rows_of(rt: &impl AllocGlobal, rows: &str, is_service: bool) -> Result<String, Fail> {
    let mut manager = Manager::new(rt.alloc(), &[], 60, 0, 10)?;
    rows_with(rt, &mut manager, rows, is_service)
}

#[test]
fn a_manager_replies_and_enters_as_each_section_says(rt: HostRuntime) -> Result<(), Fail> {
    for section in SECTIONS.split("\n# ") {
        let (heading, rows) = section.split_once('\n').ok_or("rows")?;
        let found = rows_of(&rt, rows, heading.ends_with("as a service"))?;
        check_same(heading, found.as_str().trim_end(), rows)?;
    }
    Ok(())
}
