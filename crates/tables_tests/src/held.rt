use crate::steps::{digit_of, step_of};
use fixtures::Refusing;
use fixtures::rows::{check, check_same, cut, number};
use std::alloc::{AllocError, Allocator, Global};
use std::fmt::Write;
use std::test::Fail;
use ups_cycle::StepState;
use ups_dataset::DataSet;
use ups_keep::Final;
use ups_life::{Row, StepUid};
use ups_rows::SharedRow;
use ups_steps::{HeldRow, Steps};

/// Returns what is held of a step that became final at a moment.
fn held_since<A: Allocator + Copy>(alloc: A, moment: u64) -> Result<HeldRow<A>, AllocError> {
    let row = Row {
        attributes: DataSet::new(alloc),
        state: StepState::Completed,
        transaction: None,
        final_at: Some(moment),
    };
    Ok(HeldRow {
        row: SharedRow::new(alloc, row)?,
        holder: None,
    })
}

/// Makes room for a step that is not held, and adds it.
fn push<A: Allocator + Copy>(
    alloc: A,
    steps: &mut Steps<A>,
    step: StepUid,
    moment: u64,
) -> Result<(), Fail> {
    if steps.get(step).is_some() {
        return Err("held already".into());
    }
    steps.reserve(1)?;
    steps.push(step, held_since(alloc, moment)?);
    Ok(())
}

/// Replaces the moment of a step that is held.
fn put<A: Allocator + Copy>(
    alloc: A,
    steps: &mut Steps<A>,
    step: StepUid,
    moment: u64,
) -> Result<(), Fail> {
    if steps.get(step).is_none() {
        return Err("not held".into());
    }
    steps.put(step, held_since(alloc, moment)?);
    Ok(())
}

/// Removes the steps with these numbers.
fn remove(alloc: Global, steps: &mut Steps<Global>, numbers: &str) -> Result<(), Fail> {
    let mut gone = Vec::new(alloc);
    for number in numbers.split(' ') {
        gone.push(Final {
            moment: 0,
            step: step_of(alloc, number)?,
        })?;
    }
    steps.remove(&gone);
    Ok(())
}

/// Does what a line says.
fn act(alloc: Global, steps: &mut Steps<Global>, line: &str) -> Result<(), Fail> {
    let (verb, words) = cut(line, " ")?;
    if verb == "remove" {
        return remove(alloc, steps, words);
    }
    let (step, moment) = cut(words, " ")?;
    let step = step_of(alloc, step)?;
    let moment = number(moment)?;
    match verb {
        "push" => push(alloc, steps, step, moment),
        "put" => put(alloc, steps, step, moment),
        _ => Err("no verb".into()),
    }
}

/// Adds a step as text: the moment since when it is final, and its digit.
fn add_step(text: &mut String, step: StepUid, since: Option<u64>) -> Result<(), Fail> {
    let moment = since.ok_or("a moment")?;
    write!(text, " {moment}:{}", digit_of(step))?;
    Ok(())
}

/// Returns the steps held, in the order of iteration.
fn steps_held<A: Allocator + Copy>(alloc: Global, steps: &Steps<A>) -> Result<String, Fail> {
    let mut text = String::new(alloc);
    for (step, held) in steps.iter() {
        add_step(&mut text, *step, held.row.get().final_at)?;
    }
    Ok(text)
}

/// Returns the steps whose UIDs are listed, each as it is looked up.
fn steps_listed<A: Allocator + Copy>(
    alloc: Global,
    steps: &Steps<A>,
    list: A,
) -> Result<String, Fail> {
    let mut text = String::new(alloc);
    for step in &steps.uids(list)? {
        add_step(&mut text, *step, steps.final_at(*step))?;
    }
    Ok(text)
}

/// What is done, one line after the other, and which steps are held then. Each removal leaves places free, except for
/// the second and the last, which close them up.
const CALLS: &str = "\
push 1 10 = 10:1
push 2 20 = 10:1 20:2
push 3 30 = 10:1 20:2 30:3
push 4 40 = 10:1 20:2 30:3 40:4
remove 2 = 10:1 30:3 40:4
put 1 11 = 11:1 30:3 40:4
remove 1 4 9 = 30:3
push 1 12 = 30:3 12:1
remove 3 = 12:1
push 3 31 = 12:1 31:3
push 5 50 = 12:1 31:3 50:5
remove 3 = 12:1 50:5
remove 1 5 =";

/// Fails unless the list of the steps and their count are those of the text.
fn check_listed(alloc: Global, steps: &Steps<Global>, held: &str) -> Result<(), Fail> {
    check(
        "the count",
        held.split(':').count() == steps.len().saturating_add(1),
    )?;
    check_same("listed", steps_listed(alloc, steps, alloc)?.as_str(), held)
}

/// Does what a line says, and returns the steps that are held then.
fn told(alloc: Global, steps: &mut Steps<Global>, line: &str) -> Result<String, Fail> {
    act(alloc, steps, line)?;
    let held = steps_held(alloc, steps)?;
    check_listed(alloc, steps, held.as_str())?;
    Ok(held)
}

/// Does what a row says.
fn row_is_so(alloc: Global, steps: &mut Steps<Global>, row: &str) -> Result<(), Fail> {
    let (line, wanted) = cut(row, " =")?;
    check_same(line, told(alloc, steps, line)?.as_str(), wanted)
}

/// Does what the rows say, one after the other.
fn rows_are_so(alloc: Global, steps: &mut Steps<Global>) -> Result<(), Fail> {
    for row in CALLS.lines() {
        row_is_so(alloc, steps, row)?;
    }
    Ok(())
}

#[test]
fn steps_stay_in_the_order_of_their_creation(rt: HostRuntime) -> Result<(), Fail> {
    rows_are_so(rt.alloc(), &mut Steps::new(rt.alloc()))
}

/// Makes room and lists the steps while the growth with this number is refused; returns whether both succeed, and the
/// steps in either case.
fn listed_in<'a>(
    alloc: Global,
    heap: &'a Refusing<Global>,
    steps: &mut Steps<&'a Refusing<Global>>,
    growth: u64,
) -> Result<(bool, String), Fail> {
    push(heap, steps, step_of(alloc, "1")?, 10)?;
    heap.refuse(growth);
    let is_reserved = steps.reserve(100).is_ok();
    let is_listed = steps.uids(heap).is_ok();
    heap.refuse(0);
    Ok((is_reserved && is_listed, steps_held(alloc, steps)?))
}

/// The same with a new table.
fn listed_lacking(alloc: Global, growth: u64) -> Result<(bool, String), Fail> {
    let heap = Refusing::new(alloc);
    let mut steps = Steps::new(&heap);
    listed_in(alloc, &heap, &mut steps, growth)
}

/// Returns whether both succeed; the steps must stay in either case.
fn are_listed(alloc: Global, growth: u64) -> Result<bool, Fail> {
    let (is_whole, steps) = listed_lacking(alloc, growth)?;
    check_same("held", steps.as_str(), " 10:1")?;
    Ok(is_whole)
}

#[test]
fn steps_stay_where_a_growth_is_refused(rt: HostRuntime) -> Result<(), Fail> {
    let mut refused = 0u64;
    for growth in 1..20 {
        if !are_listed(rt.alloc(), growth)? {
            refused = growth;
        }
    }
    check(
        "the places grow, and their index",
        refused >= 2 && refused < 19,
    )
}
