use crate::steps::step_of;
use fixtures::rows::{check, check_same, cut, number};
use fixtures::words::set_of;
use fixtures::{Refusing, described};
use std::alloc::{Allocator, Global};
use std::fmt::Write;
use std::test::Fail;
use ups_cycle::StepState;
use ups_dataset::DataSet;
use ups_keep::Final;
use ups_life::{Row, Sets, StepUid};
use ups_match::{Keys, Probe};
use ups_rows::{SharedRow, SharedRows};
use ups_steps::{HeldRow, Steps};

/// Returns the UID of the step with a number.
fn uid_of(text: Global, number: u64) -> Result<StepUid, Fail> {
    let number = format!(in text; "{number}")?;
    step_of(text, number.as_str())
}

/// Returns what is held of a step whose Patient ID is a number.
fn held_of<A: Allocator + Copy>(text: Global, alloc: A, id: u64) -> Result<HeldRow<A>, Fail> {
    let words = format!(in text; "00100020={id}")?;
    let row = Row {
        attributes: set_of(alloc, words.as_str())?,
        state: StepState::Scheduled,
        transaction: None,
        final_at: None,
    };
    Ok(HeldRow {
        row: SharedRow::new(alloc, row)?,
        holder: None,
    })
}

/// Adds the step with a number, which is its Patient ID too.
fn push<A: Allocator + Copy>(
    text: Global,
    alloc: A,
    steps: &mut Steps<A>,
    number: u64,
) -> Result<(), Fail> {
    let step = uid_of(text, number)?;
    let held = held_of(text, alloc, number)?;
    if steps.get(step).is_some() {
        return Err("held already".into());
    }
    steps.reserve(1)?;
    steps.push(step, held);
    Ok(())
}

/// Gives the step with a number a Patient ID that is greater by a thousand.
fn put<A: Allocator + Copy>(
    text: Global,
    alloc: A,
    steps: &mut Steps<A>,
    number: u64,
) -> Result<(), Fail> {
    let step = uid_of(text, number)?;
    let held = held_of(text, alloc, number.saturating_add(1_000))?;
    if steps.get(step).is_none() {
        return Err("not held".into());
    }
    steps.put(step, held);
    Ok(())
}

/// Removes the step with a number.
fn remove<A: Allocator + Copy>(
    text: Global,
    steps: &mut Steps<A>,
    number: u64,
) -> Result<(), Fail> {
    let step = uid_of(text, number)?;
    steps.remove(&[Final { moment: 0, step }]);
    Ok(())
}

/// Does what a verb says with the step of a number.
fn act<A: Allocator + Copy>(
    text: Global,
    alloc: A,
    steps: &mut Steps<A>,
    verb: &str,
    number: u64,
) -> Result<(), Fail> {
    match verb {
        "push" => push(text, alloc, steps, number),
        "put" => put(text, alloc, steps, number),
        "remove" => remove(text, steps, number),
        _ => Err("no verb".into()),
    }
}

/// Returns the ends of a range of numbers, as `1001-1064`, or of a single one.
fn ends_of(range: &str) -> Result<(u64, u64), Fail> {
    let (first, last) = range.split_once('-').unwrap_or((range, range));
    Ok((number(first)?, number(last)?))
}

/// Does what a verb says with the steps of a range, one after the other.
fn act_on_each<A: Allocator + Copy>(
    text: Global,
    alloc: A,
    steps: &mut Steps<A>,
    verb: &str,
    range: &str,
) -> Result<(), Fail> {
    let (first, last) = ends_of(range)?;
    for number in first..=last {
        act(text, alloc, steps, verb, number)?;
    }
    Ok(())
}

/// Adds the Patient IDs of a range.
fn put_ids(text: &mut String, range: &str) -> Result<(), Fail> {
    let (first, last) = ends_of(range)?;
    for number in first..=last {
        write!(text, "00100020={number} ")?;
    }
    Ok(())
}

/// Returns the Patient IDs of ranges.
fn ids_of(alloc: Global, ranges: &str) -> Result<String, Fail> {
    let mut text = String::new(alloc);
    for range in ranges.split_whitespace() {
        put_ids(&mut text, range)?;
    }
    Ok(text)
}

/// Returns the Patient ID of each of these rows.
fn answers_of<A: Allocator + Copy>(alloc: A, rows: &SharedRows<A>) -> Result<Sets<A>, Fail> {
    let keys = Keys::of(set_of(alloc, "00100020=")?, 0)?;
    Ok(rows.answers(&keys, &mut Probe::new())?)
}

/// Adds a data set as text.
fn put_set<A: Allocator + Copy>(
    rt: &impl AllocGlobal,
    text: &mut String,
    set: &DataSet<A>,
) -> Result<(), Fail> {
    text.push_str(described(set, rt)?.as_str().trim_end())?;
    text.push(' ')?;
    Ok(())
}

/// Returns data sets as a text.
fn texts_of<A: Allocator + Copy>(
    rt: &impl AllocGlobal,
    sets: &[DataSet<A>],
) -> Result<String, Fail> {
    let mut text = String::new(rt.alloc());
    for set in sets {
        put_set(rt, &mut text, set)?;
    }
    Ok(text)
}

/// Returns the Patient IDs that a query finds in the rows of all steps.
fn found<A: Allocator + Copy>(
    rt: &impl AllocGlobal,
    alloc: A,
    steps: &mut Steps<A>,
) -> Result<String, Fail> {
    let rows = steps.rows(alloc)?;
    let sets = answers_of(alloc, &rows)?;
    texts_of(rt, sets.as_slice())
}

/// What is done with steps of which the rows were taken before, and the Patient IDs that a query finds then. The first
/// part has the places of 1001 to 1064. The last removals leave more places free than not, which closes them up.
const CALLS: &str = "\
push 1001-1063 = 1001-1063
push 1064 = 1001-1064
push 1065 = 1001-1065
push 1066-1150 = 1001-1150
put 1001 = 2001 1002-1150
put 1064 = 2001 1002-1063 2064 1065-1150
put 1065 = 2001 1002-1063 2064 2065 1066-1150
put 1150 = 2001 1002-1063 2064 2065 1066-1149 2150
remove 1002 = 2001 1003-1063 2064 2065 1066-1149 2150
remove 1129 = 2001 1003-1063 2064 2065 1066-1128 1130-1149 2150
push 1151 = 2001 1003-1063 2064 2065 1066-1128 1130-1149 2150 1151
push 1002 = 2001 1003-1063 2064 2065 1066-1128 1130-1149 2150 1151 1002
remove 1003-1063 = 2001 2064 2065 1066-1128 1130-1149 2150 1151 1002
put 1151 = 2001 2064 2065 1066-1128 1130-1149 2150 2151 1002
remove 1066-1128 = 2001 2064 2065 1130-1149 2150 2151 1002
push 1003 = 2001 2064 2065 1130-1149 2150 2151 1002-1003";

/// Does what a row says. If `is_prepared`, rows are prepared before the query.
fn row_is_so(
    rt: &impl AllocGlobal,
    steps: &mut Steps<Global>,
    is_prepared: bool,
    row: &str,
) -> Result<(), Fail> {
    let (line, wanted) = cut(row, " = ")?;
    let (verb, range) = cut(line, " ")?;
    act_on_each(rt.alloc(), rt.alloc(), steps, verb, range)?;
    if is_prepared {
        steps.prepare(rt.alloc())?;
    }
    let found = found(rt, rt.alloc(), steps)?;
    check_same(line, found.as_str(), ids_of(rt.alloc(), wanted)?.as_str())
}

/// Does what the rows say, one after the other.
fn rows_are_so(rt: &impl AllocGlobal, is_prepared: bool) -> Result<(), Fail> {
    let mut steps = Steps::new(rt.alloc());
    for row in CALLS.lines() {
        row_is_so(rt, &mut steps, is_prepared, row)?;
    }
    Ok(())
}

#[test]
fn a_query_sees_each_change_of_a_step_whose_rows_were_taken(rt: HostRuntime) -> Result<(), Fail> {
    rows_are_so(&rt, false)
}

#[test]
fn a_query_sees_each_change_before_which_rows_were_prepared(rt: HostRuntime) -> Result<(), Fail> {
    rows_are_so(&rt, true)
}

/// Adds 576 steps, which are nine parts, and tells of each of three calls whether it leaves more to prepare.
fn prepared_of_nine(rt: &impl AllocGlobal) -> Result<(bool, bool, bool), Fail> {
    let mut steps = Steps::new(rt.alloc());
    act_on_each(rt.alloc(), rt.alloc(), &mut steps, "push", "1001-1576")?;
    let first = steps.prepare(rt.alloc())?;
    let second = steps.prepare(rt.alloc())?;
    let third = steps.prepare(rt.alloc())?;
    Ok((first, second, third))
}

#[test]
fn a_call_prepares_eight_parts_and_tells_that_there_are_more(rt: HostRuntime) -> Result<(), Fail> {
    check(
        "eight, then one, then none",
        prepared_of_nine(&rt)? == (true, false, false),
    )
}

/// Takes the rows of all steps while the growth with this number is refused, and returns whether it succeeds. A query finds
/// all of them afterwards.
fn is_taken<'a>(
    rt: &impl AllocGlobal,
    heap: &'a Refusing<Global>,
    steps: &mut Steps<&'a Refusing<Global>>,
    growth: u64,
) -> Result<bool, Fail> {
    heap.refuse(growth);
    let is_taken = steps.rows(heap).is_ok();
    heap.refuse(0);
    let found = found(rt, heap, steps)?;
    check_same(
        "found",
        found.as_str(),
        ids_of(rt.alloc(), "1001-1130")?.as_str(),
    )?;
    Ok(is_taken)
}

/// The same with a new table, whose rows are prepared if `is_prepared`.
fn is_taken_anew(rt: &impl AllocGlobal, is_prepared: bool, growth: u64) -> Result<bool, Fail> {
    let heap = Refusing::new(rt.alloc());
    let mut steps = Steps::new(&heap);
    act_on_each(rt.alloc(), &heap, &mut steps, "push", "1001-1130")?;
    if is_prepared {
        steps.prepare(&heap)?;
    }
    is_taken(rt, &heap, &mut steps, growth)
}

/// Returns the last growth that a query with a new table needs.
fn last_growth(rt: &impl AllocGlobal, is_prepared: bool) -> Result<u64, Fail> {
    let mut last = 0u64;
    for growth in 1..60 {
        if !is_taken_anew(rt, is_prepared, growth)? {
            last = growth;
        }
    }
    Ok(last)
}

#[test]
fn a_query_finds_all_steps_after_one_for_which_a_growth_was_refused(
    rt: HostRuntime,
) -> Result<(), Fail> {
    let last = last_growth(&rt, false)?;
    check(
        "each of three parts, and what holds them",
        last >= 6 && last < 59,
    )
}

#[test]
fn a_query_makes_no_part_that_was_prepared(rt: HostRuntime) -> Result<(), Fail> {
    let last = last_growth(&rt, true)?;
    check("what holds three parts alone", last >= 1 && last <= 2)
}
