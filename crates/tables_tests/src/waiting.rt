ghost use Rattle.std.specs.Prelude.{◌≤◌, length, OnOk};

use crate::steps::{digit_of, step_of};
use fixtures::Refusing;
use fixtures::rows::{check, check_same, cut, number};
use std::alloc::{Allocator, Global};
use std::fmt::Write;
use std::test::Fail;
use ups_keep::{Due, Final};

/// Returns a step that has been final since a moment.
fn final_of(alloc: Global, words: &str) -> Result<Final, Fail> {
    let (moment, step) = cut(words, " ")?;
    Ok(Final {
        moment: number(moment)?,
        step: step_of(alloc, step)?,
    })
}

/// Makes room for a step, and adds it.
fn add<A: Allocator + Copy>(due: &mut Due<A>, step: Final) -> Result<(), Fail> {
    due.reserve(1)?;
    due.add(step);
    Ok(())
}

/// Does what a line says.
fn act(alloc: Global, due: &mut Due<Global>, line: &str) -> Result<(), Fail> {
    let (verb, words) = cut(line, " ")?;
    match verb {
        "add" => add(due, final_of(alloc, words)?),
        "take" => {
            due.take(&final_of(alloc, words)?);
            Ok(())
        }
        "sweep" => {
            due.sweep(number(words)?);
            Ok(())
        }
        _ => Err("no verb".into()),
    }
}

/// Adds a step as text: the moment since when it is final, and its digit.
fn add_step(text: &mut String, step: &Final) -> Result<(), Fail> {
    let digit = digit_of(step.step);
    write!(text, " {}:{digit}", step.moment)?;
    Ok(())
}

/// Returns the steps that have been final since a moment or longer.
fn steps_up_to<A: Allocator + Copy>(
    alloc: Global,
    due: &Due<A>,
    list: A,
    moment: u64,
) -> Result<String, Fail> {
    let mut text = String::new(alloc);
    for step in &due.up_to(list, moment)? {
        add_step(&mut text, step)?;
    }
    Ok(text)
}

/// What is done, one line after the other, which steps wait then, and which of them are final since the moment 10.
const CALLS: &str = "\
add 10 1 = 10:1 / 10:1
add 12 2 = 10:1 12:2 / 10:1
add 11 3 = 10:1 11:3 12:2 / 10:1
add 10 4 = 10:1 10:4 11:3 12:2 / 10:1 10:4
take 10 4 = 10:1 11:3 12:2 / 10:1
take 10 4 = 10:1 11:3 12:2 / 10:1
take 11 1 = 10:1 11:3 12:2 / 10:1
add 10 4 = 10:1 10:4 11:3 12:2 / 10:1 10:4
sweep 9 = 10:1 10:4 11:3 12:2 / 10:1 10:4
sweep 11 = 12:2 /
add 9 5 = 9:5 12:2 / 9:5
sweep 12 = /";

/// Does what a line says, and returns the steps that wait then.
fn told(alloc: Global, due: &mut Due<Global>, line: &str) -> Result<String, Fail> {
    act(alloc, due, line)?;
    let all = steps_up_to(alloc, due, alloc, u64::MAX)?;
    let old = steps_up_to(alloc, due, alloc, 10)?;
    if due.is_any(10) == old.is_empty() {
        return Err("is_any tells otherwise".into());
    }
    Ok(format!(in alloc; "{all} /{old}")?)
}

/// Does what a row says.
fn row_is_so(alloc: Global, due: &mut Due<Global>, row: &str) -> Result<(), Fail> {
    let (line, wanted) = cut(row, " =")?;
    check_same(line, told(alloc, due, line)?.as_str(), wanted)
}

/// Does what the rows say, one after the other.
fn rows_are_so(alloc: Global, due: &mut Due<Global>) -> Result<(), Fail> {
    for row in CALLS.lines() {
        row_is_so(alloc, due, row)?;
    }
    Ok(())
}

#[test]
fn steps_wait_in_the_order_of_their_ends(rt: HostRuntime) -> Result<(), Fail> {
    rows_are_so(rt.alloc(), &mut Due::new(rt.alloc()))
}

/// Merges `count` steps, the last of which is the oldest, into a list of one; then keeps those that are final since an
/// even moment, and returns them.
fn merged(alloc: Global, count: u64) -> Result<String, Fail> {
    let mut due = Due::new(alloc);
    add(&mut due, final_of(alloc, "50 1")?)?;
    let step = step_of(alloc, "2")?;
    let mut more = Vec::new(alloc);
    for number in 0..count {
        more.push(Final {
            moment: 100 - number.min(100),
            step,
        })?;
    }
    due.reserve(more.len())?;
    due.merge(&more);
    due.retain(|step| step.moment % 2 == 0);
    steps_up_to(alloc, &due, alloc, u64::MAX)
}

/// Fails unless the text of so many merged steps begins and ends as told.
fn check_merged(alloc: Global, count: u64, front: &str, back: &str) -> Result<(), Fail> {
    let text = merged(alloc, count)?;
    check(
        text.as_str(),
        text.as_str().starts_with(front) && text.as_str().ends_with(back),
    )
}

#[test]
fn few_and_many_are_merged_in_order(rt: HostRuntime) -> Result<(), Fail> {
    check_same("few", merged(rt.alloc(), 4)?.as_str(), " 50:1 98:2 100:2")?;
    check_merged(rt.alloc(), 40, " 50:1 62:2 64:2", " 98:2 100:2")
}

/// Makes room and lists the steps while the growth with this number is refused; returns whether both succeed, and the
/// steps in either case.
fn listed_in<'a>(
    alloc: Global,
    heap: &'a Refusing<Global>,
    due: &mut Due<&'a Refusing<Global>>,
    growth: u64,
) -> Result<(bool, String), Fail> {
    add(due, final_of(alloc, "10 1")?)?;
    heap.refuse(growth);
    let is_reserved = due.reserve(100).is_ok();
    let is_listed = due.up_to(heap, 10).is_ok();
    heap.refuse(0);
    Ok((is_reserved && is_listed, steps_up_to(alloc, due, heap, 10)?))
}

/// The same with a new list.
fn listed_lacking(alloc: Global, growth: u64) -> Result<(bool, String), Fail> {
    let heap = Refusing::new(alloc);
    let mut due = Due::new(&heap);
    listed_in(alloc, &heap, &mut due, growth)
}

/// Returns whether both succeed; the steps must stay in either case.
fn are_listed(alloc: Global, growth: u64) -> Result<bool, Fail> {
    let (is_whole, steps) = listed_lacking(alloc, growth)?;
    check_same("waiting", steps.as_str(), " 10:1")?;
    Ok(is_whole)
}

#[test]
fn a_list_stays_where_a_growth_is_refused(rt: HostRuntime) -> Result<(), Fail> {
    let mut refused = 0u64;
    for growth in 1..20 {
        if !are_listed(rt.alloc(), growth)? {
            refused = growth;
        }
    }
    check(
        "the list itself grows once; the one that is returned does without its first growth if that is refused",
        refused >= 1 && refused < 19,
    )
}
