//! Managers restored from records.

use crate::days::{
    DaySettings, SETTINGS, a_day, a_manager, go_on, number_at, picture, told_of_the_day, whole,
};
use crate::lines::{record_of_line, word_at, word_bytes};
use fixtures::rows::{check_same, cut, cut_twice, number};
use std::alloc::Global;
use std::test::Fail;
use ups_journal::{Record, record_of};
use ups_manager::*;
use ups_restore::{Restoration, Restored, restore, restore_each, restore_one};

/// What a manager tells after the day: the holder of each step, by the number of its caller; the steps held, with their
/// states; and the events that are pending for each watcher, with their numbers and the places of their requests in the
/// history.
///
/// WATCH1 has acknowledged two of its events; that of the claim is superseded by that of the completion. The step that
/// the sweep removed is still reported.
const TOLD: &str = "\
1.2.3.1 5 PERFORM1
1.2.3.2 -
1.2.3.3 13 PERFORM2
00080018=1.2.3.1_ 00741000=COMPLETED_
00080018=1.2.3.3_ 00741000=IN_PROGRESS_
WATCH1 5 6 StateReport 1.2.3.2
WATCH1 6 8 StateReport 1.2.3.1
WATCH2 3 8 StateReport 1.2.3.1
WATCH3 1 9 StateReport 1.2.3.1
WATCH3 2 9 StateReport 1.2.3.2
WATCH3 4 12 StateReport 1.2.3.3
";

/// How records are entered, and what is told then.
#[derive(Clone, Copy)]
enum Way<'a> {
    /// All at once: all that the manager tells.
    AtOnce,
    /// One by one: the same.
    OneByOne,
    /// All at once: what it tells about its steps and watchers.
    Picture,
    /// All at once, and then a creation: the same, and the offset in the record of the first request.
    Then(&'a str),
    /// All at once: why it stops, or a dash.
    Stop,
    /// One by one, if some may be left out: the outcome of each, and the counts.
    Outcomes,
    /// All at once, if some may be left out: the counts, or why it stops.
    Counts,
}

/// Makes a manager enter all records at once, and returns all that it tells then.
fn told_at_once(
    rt: &impl AllocGlobal,
    manager: &mut Manager<Global>,
    records: &[Record<Global>],
) -> Result<String, Fail> {
    restore(rt.alloc(), manager, records)?;
    whole(rt, rt.alloc(), manager)
}

/// Makes a manager enter records one by one, and returns all that it tells then.
fn told_one_by_one(
    rt: &impl AllocGlobal,
    manager: &mut Manager<Global>,
    records: &[Record<Global>],
) -> Result<String, Fail> {
    for stored in records {
        restore_one(rt.alloc(), manager, stored)?;
    }
    whole(rt, rt.alloc(), manager)
}

/// Makes a manager enter all records at once, and returns what it tells then about its steps and watchers.
fn picture_after(
    rt: &impl AllocGlobal,
    manager: &mut Manager<Global>,
    records: &[Record<Global>],
) -> Result<String, Fail> {
    restore(rt.alloc(), manager, records)?;
    picture(rt, rt.alloc(), manager)
}

/// Returns the offset in the record of the first request in a manager's history.
fn first_offset(rt: &impl AllocGlobal, manager: &Manager<Global>) -> Result<Option<i16>, Fail> {
    let entry = manager.history().first().ok_or("an entry")?;
    Ok(record_of(rt.alloc(), entry)?.request.utc_offset)
}

/// Makes a manager enter all records at once and then a creation, and returns what it tells then about its steps and
/// watchers, and the offset in the record of its first request.
fn told_after(
    rt: &impl AllocGlobal,
    manager: &mut Manager<Global>,
    records: &[Record<Global>],
    creation: &str,
) -> Result<String, Fail> {
    restore(rt.alloc(), manager, records)?;
    go_on(rt.alloc(), manager, creation)?;
    let offset = first_offset(rt, manager)?;
    let mut text = picture(rt, rt.alloc(), manager)?;
    write!(text, "{offset:?}")?;
    Ok(text)
}

/// Returns why a manager does not enter all records, or a dash if it does.
fn stop_of(
    rt: &impl AllocGlobal,
    manager: &mut Manager<Global>,
    records: &[Record<Global>],
) -> Result<String, Fail> {
    match restore(rt.alloc(), manager, records) {
        Ok(()) => Ok(format!(in rt.alloc(); "-")?),
        Err(fault) => Ok(format!(in rt.alloc(); "{fault}")?),
    }
}

/// Makes a manager take records one by one, of which some may be left out, and adds the outcome of each.
fn put_outcomes(
    rt: &impl AllocGlobal,
    text: &mut String,
    manager: &mut Manager<Global>,
    records: &[Record<Global>],
) -> Result<(), Fail> {
    let mut counts = Restoration::new();
    for stored in records {
        match counts.take(rt.alloc(), manager, stored, true) {
            Ok(Restored::Entered) => text.push('+')?,
            Ok(Restored::LeftOut) => text.push('-')?,
            Err(refusal) => {
                return Ok(write!(text, " {} {} {refusal}", counts.entered, counts.left_out)?);
            }
        }
    }
    Ok(write!(text, " {} {}", counts.entered, counts.left_out)?)
}

/// The same, as a text.
fn outcomes_of(
    rt: &impl AllocGlobal,
    manager: &mut Manager<Global>,
    records: &[Record<Global>],
) -> Result<String, Fail> {
    let mut text = String::new(rt.alloc());
    put_outcomes(rt, &mut text, manager, records)?;
    Ok(text)
}

/// Makes a manager take all records, and returns how many it entered and left out, or why it stops.
fn counts_of(
    rt: &impl AllocGlobal,
    manager: &mut Manager<Global>,
    records: &[Record<Global>],
) -> Result<String, Fail> {
    match restore_each(rt.alloc(), manager, records, true) {
        Ok(counts) => Ok(format!(in rt.alloc(); "{} {}", counts.entered, counts.left_out)?),
        Err(fault) => Ok(format!(in rt.alloc(); "{fault}")?),
    }
}

/// Makes a manager enter records in a way, and returns what is told then.
fn told_by(
    rt: &impl AllocGlobal,
    manager: &mut Manager<Global>,
    records: &[Record<Global>],
    way: Way<'_>,
) -> Result<String, Fail> {
    match way {
        Way::AtOnce => told_at_once(rt, manager, records),
        Way::OneByOne => told_one_by_one(rt, manager, records),
        Way::Picture => picture_after(rt, manager, records),
        Way::Then(creation) => told_after(rt, manager, records, creation),
        Way::Stop => stop_of(rt, manager, records),
        Way::Outcomes => outcomes_of(rt, manager, records),
        Way::Counts => counts_of(rt, manager, records),
    }
}

/// The same with a new manager that has these settings.
fn told_anew(
    rt: &impl AllocGlobal,
    settings: DaySettings<'_>,
    records: &[Record<Global>],
    way: Way<'_>,
) -> Result<String, Fail> {
    let mut manager = a_manager(rt, rt.alloc(), settings)?;
    told_by(rt, &mut manager, records, way)
}

/// Compares what is told about records entered in a way, with the settings of the day, with what is wanted.
fn compare_day(
    rt: &impl AllocGlobal,
    records: &[Record<Global>],
    way: Way<'_>,
    wanted: &str,
) -> Result<(), Fail> {
    check_same(
        "the day",
        told_anew(rt, SETTINGS, records, way)?.as_str(),
        wanted,
    )
}

#[test]
fn a_manager_is_restored_as_it_was(rt: HostRuntime) -> Result<(), Fail> {
    let wanted = told_of_the_day(&rt)?;
    let records = a_day(&rt, rt.alloc())?;
    compare_day(&rt, &records, Way::AtOnce, wanted.as_str())?;
    compare_day(&rt, &records, Way::OneByOne, wanted.as_str())
}

#[test]
fn a_restored_manager_has_steps_holders_and_pending_events(rt: HostRuntime) -> Result<(), Fail> {
    let records = a_day(&rt, rt.alloc())?;
    compare_day(&rt, &records, Way::Picture, TOLD)
}

/// Starts with other settings or with records that were changed: the peers, the time to keep and the limit; the number
/// of a record, its column, and what replaces it; and why the restoring stops.
const STOPS: &str = "\
WATCH1,WATCH2,WATCH3 60 1000 0 - - -> -
WATCH2,WATCH1,WATCH3 60 1000 0 - - -> -
WATCH1,SCHED1,WATCH3 60 1000 0 - - -> request 3 (subscribe): it is not accepted after those before it, with these settings
SCHED1,WATCH2,WATCH3 60 1000 0 - - -> request 2 (subscribe): it is not accepted after those before it, with these settings
WATCH1,WATCH2,WATCH3 71 1000 0 - - -> request 14 (sweep): it is not accepted after those before it, with these settings
WATCH1,WATCH2,WATCH3 60 5 0 - - -> request 6 (set): there is no room for it: in the history, in its step, or in memory
WATCH1,WATCH2,WATCH3 60 1000 1 moment 253402250400 -> request 1 (create): its moment has no date up to the year 9999
WATCH1,WATCH2,WATCH3 60 1000 2 title WATCH1_ -> request 2 (subscribe): the title of who asked is none, or has spaces at its ends
WATCH1,WATCH2,WATCH3 60 1000 3 receiver () -> request 3 (subscribe): the Receiving AE is no title, or has spaces at its ends
WATCH1,WATCH2,WATCH3 60 1000 3 attributes 00 -> request 3 (subscribe): a column that the operation needs is empty, or one that it has no use for isn't
WATCH1,WATCH2,WATCH3 60 1000 4 instance 1.2.3.1 -> request 4 (create): it is not accepted after those before it, with these settings
WATCH1,WATCH2,WATCH3 60 1000 4 attributes 00 -> request 4 (create): the attributes are no data set in Explicit VR Little Endian as one is stored
WATCH1,WATCH2,WATCH3 60 1000 5 transaction 2.01 -> request 5 (change state): the Transaction UID is none, or is padded
WATCH1,WATCH2,WATCH3 60 1000 5 transaction 2.9 -> request 6 (set): it is not accepted after those before it, with these settings
WATCH1,WATCH2,WATCH3 60 1000 5 instance 1.2.3.1~ -> request 5 (change state): the instance UID is none, is padded, or is one that the operation can't be on
WATCH1,WATCH2,WATCH3 60 1000 10 attributes 00 -> request 10 (subscribe): the attributes are no data set in Explicit VR Little Endian as one is stored
WATCH1,WATCH2,WATCH3 60 1000 10 attributes () -> request 10 (subscribe): the keys of the filter can't be read, or are all universal";

/// Replaces a column of a record.
fn spoil(
    rt: &impl AllocGlobal,
    stored: &mut Record<Global>,
    column: &str,
    word: &str,
) -> Result<(), Fail> {
    if column == "moment" {
        stored.moment = number(word)?;
        return Ok(());
    }
    let text = if word == "()" { "" } else { word };
    let bytes = word_bytes(rt.alloc(), text)?;
    match column {
        "title" => stored.title = bytes,
        "instance" => stored.request.instance = Some(bytes),
        "transaction" => stored.request.transaction_uid = Some(bytes),
        "receiver" => stored.request.receiver = Some(bytes),
        "attributes" => stored.request.attributes = Some(bytes),
        _ => return Err("a column".into()),
    }
    Ok(())
}

/// Returns the records of the day, with the one that a row names spoilt.
fn spoilt_day(rt: &impl AllocGlobal, row: &str) -> Result<Vec<Record<Global>>, Fail> {
    let mut records = a_day(rt, rt.alloc())?;
    let number = number_at(row, 3)?;
    for (place, stored) in records.iter_mut().enumerate() {
        if place as u64 + 1 == number {
            spoil(rt, stored, word_at(row, 4), word_at(row, 5))?;
        }
    }
    Ok(records)
}

/// Returns the settings of a row.
fn settings_of(row: &str) -> Result<DaySettings<'_>, Fail> {
    Ok(DaySettings {
        peers: word_at(row, 0),
        keep: word_at(row, 1).parse::<u32>()?,
        offset: 0,
        limit: number_at(row, 2)?,
    })
}

/// Compares what a row says with what is told about its records, with its settings.
fn compare_row(rt: &impl AllocGlobal, row: &str, way: Way<'_>) -> Result<(), Fail> {
    let (start, wanted) = cut(row, " -> ")?;
    let settings = settings_of(start)?;
    let records = spoilt_day(rt, start)?;
    check_same(
        start,
        told_anew(rt, settings, &records, way)?.as_str(),
        wanted,
    )
}

#[test]
fn restoring_stops_at_a_record_that_is_not_accepted(rt: HostRuntime) -> Result<(), Fail> {
    for row in STOPS.lines() {
        compare_row(&rt, row, Way::Stop)?;
    }
    Ok(())
}

/// The same if records may be left out: a plus for each that is entered, a minus for each that is left out, and how
/// many of each there are; or why the restoring stops.
const LEFT_OUT: &str = "\
WATCH1,WATCH2,WATCH3 60 1000 0 - - -> +++++++++++++++ 15 0
WATCH1,SCHED1,WATCH3 60 1000 0 - - -> ++-+++++++++++- 13 2
SCHED1,WATCH2,WATCH3 60 1000 0 - - -> +-+++++-++-++++ 12 3
WATCH1,WATCH2,WATCH3 71 1000 0 - - -> +++++++++++++-+ 14 1
WATCH1,WATCH2,WATCH3 60 1000 4 instance 1.2.3.1 -> +++-++-++++++-+ 12 3
WATCH1,WATCH2,WATCH3 60 1000 5 transaction 2.9 -> +++++-++-++++++ 13 2
WATCH1,WATCH2,WATCH3 60 5 0 - - -> +++++ 5 0 there is no room for it: in the history, in its step, or in memory
WATCH1,WATCH2,WATCH3 60 1000 3 moment 253402250400 -> ++ 2 0 its moment has no date up to the year 9999
WATCH1,SCHED1,WATCH3 60 1000 7 title SCHED1_ -> ++-+++ 5 1 the title of who asked is none, or has spaces at its ends";

#[test]
fn what_is_not_accepted_may_be_left_out_and_is_counted(rt: HostRuntime) -> Result<(), Fail> {
    for row in LEFT_OUT.lines() {
        compare_row(&rt, row, Way::Outcomes)?;
    }
    Ok(())
}

/// Some of these rows with the outcome of all records at once.
const COUNTS: &str = "\
WATCH1,SCHED1,WATCH3 60 1000 0 - - -> 13 2
WATCH1,WATCH2,WATCH3 60 1000 4 instance 1.2.3.1 -> 12 3
WATCH1,WATCH2,WATCH3 60 5 0 - - -> request 6 (set): there is no room for it: in the history, in its step, or in memory
WATCH1,SCHED1,WATCH3 60 1000 7 title SCHED1_ -> request 7 (request cancel): the title of who asked is none, or has spaces at its ends";

#[test]
fn all_records_are_entered_left_out_or_told(rt: HostRuntime) -> Result<(), Fail> {
    for row in COUNTS.lines() {
        compare_row(&rt, row, Way::Counts)?;
    }
    Ok(())
}

/// A filter made with an offset of 60 minutes east, by which its day begins at 23:00 UTC, an hour before midnight; a
/// step that begins between the two; what a server whose offset is 0 tells; and the offset in the record of the filter.
const KEPT: &str =
    r#"0 WATCH1 1709208090 subscribe 1.2.840.10008.5.1.4.34.5.1 - - WATCH1 false - 60 | 40000540 "DT" 0A00 "20240301- "
1709208100 SCHED1 create 1.2.3.1 B 00404005=20240229233000+0000
1.2.3.1 -
1.2.3.2 -
1.2.3.3 -
00080018=1.2.3.1_ 00741000=SCHEDULED_
WATCH1 1 1 StateReport 1.2.3.1
Some(60)"#;

/// Returns the single record of a line.
fn records_of_line(rt: &impl AllocGlobal, line: &str) -> Result<Vec<Record<Global>>, Fail> {
    let mut records = Vec::new(rt.alloc());
    records.push(record_of_line(rt, rt.alloc(), line)?)?;
    Ok(records)
}

#[test]
fn a_filter_keeps_its_offset_under_another_one_of_the_server(rt: HostRuntime) -> Result<(), Fail> {
    let (line, creation, wanted) = cut_twice(KEPT, "\n", "\n")?;
    let mut settings = SETTINGS;
    settings.offset = 0;
    let records = records_of_line(&rt, line)?;
    let told = told_anew(&rt, settings, &records, Way::Then(creation))?;
    check_same("the filter", told.as_str(), wanted)
}
