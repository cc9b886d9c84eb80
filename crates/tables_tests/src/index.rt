use crate::steps::{digit_of, step_of};
use fixtures::Refusing;
use fixtures::rows::{check, check_same, cut};
use fixtures::words::set_of;
use std::alloc::{AllocError, Allocator, Global};
use std::test::Fail;
use ups_dataset::DataSet;
use ups_index::{Index, Values};
use ups_life::StepUid;
use ups_match::Keys;

/// Makes room for the values of a row, and gives them to a step.
fn put_row<A: Allocator + Copy>(
    alloc: A,
    index: &mut Index<A>,
    step: StepUid,
    row: &DataSet<A>,
) -> Result<(), AllocError> {
    let values = Values::of(alloc, row, 0)?;
    index.reserve(&values)?;
    index.put(step, values);
    Ok(())
}

/// Gives a step the values of a row, which is written as words.
fn put<A: Allocator + Copy>(
    alloc: A,
    index: &mut Index<A>,
    step: StepUid,
    row: &str,
) -> Result<(), Fail> {
    Ok(put_row(alloc, index, step, &set_of(alloc, row)?)?)
}

/// Returns the candidates of a query by keys whose offset is 0, or None if it has no indexed key.
fn candidates<A: Allocator + Copy>(
    alloc: A,
    index: &Index<A>,
    keys: &str,
) -> Result<Option<Vec<StepUid, A>>, Fail> {
    let keys = Keys::of(set_of(alloc, keys)?, 0)?;
    Ok(index.candidates(&keys)?)
}

/// Returns the digits of the candidates of a query, or `every` if it has no indexed key.
fn digits<A: Allocator + Copy>(
    alloc: Global,
    own: A,
    index: &Index<A>,
    keys: &str,
) -> Result<String, Fail> {
    let Some(found) = candidates(own, index, keys)? else {
        return Ok("every".to_string(alloc)?);
    };
    let mut text = String::new(alloc);
    for step in &found {
        text.push(digit_of(*step))?;
    }
    Ok(text)
}

/// What is done to an index, and which steps a query finds then.
const ROWS: &str = "\
put 1 00080018=1.2.3.1 00741202=READS 00100020=P1 00741000=SCHEDULED 00741200=HIGH
put 2 00741202=READS 00100020=P2 00741000=SCHEDULED
put 3 00741202= 00100020=P1 00404005=20240229120000
find 00100020=P1 00741202=READS -> 13
find 00100020=P2 -> 2
find 00100020=P3 ->
find 00741202=READS -> 12
find 00741202=RE* -> every
find 00741202=RE* 00741200=HIGH -> 1
find 00741000=SCHEDULED 00741200=HIGH -> 12
find 00404005=20240229- -> 3
find 00404005=-20240229 -> 3
find 00404005=20240229-20240301 -> 3
find 00404005=20240301- ->
find 00404005=-19691231 ->
find 00080018=1.2.3.1 -> 1
find 00080018=1.2.3.1 00100020=P2 -> 1
find 00080018=1.2.3.4 ->
find 00080018=1.2.3.1\\1.2.3.2 -> every
find 00080018=1.2.3.* 00100020=P2 -> 2
put 2 00741202=REPROC 00404005=19680229
find 00741202=READS -> 1
find 00741202=REPROC -> 2
find 00100020=P2 ->
find 00404005=-19691231 -> 2
find 00404005=-20240229 -> 23
put 4 00741202=READS\\REPROC 00404025=[00080100=R1,00080102=99A]
find 00741202=READS -> 14
find 00741202=REPROC -> 24
find 00404025=[00080100=R1] -> 4
find 00404025=[00080100=R2] -> 
remove 1
remove 9
find 00741202=READS -> 4
find 00080018= -> every
put 1 00741202=READS
find 00741202=READS -> 41
find 00080018= -> every";

/// Does what a line says to an index.
fn act(alloc: Global, index: &mut Index<Global>, line: &str) -> Result<(), Fail> {
    let (verb, words) = cut(line, " ")?;
    match verb {
        "put" => {
            let (number, row) = cut(words, " ")?;
            put(alloc, index, step_of(alloc, number)?, row)
        }
        "remove" => {
            index.remove(step_of(alloc, words)?);
            Ok(())
        }
        _ => Err("no verb".into()),
    }
}

/// Does what a row says, or compares what is found.
fn row_is_so(alloc: Global, index: &mut Index<Global>, row: &str) -> Result<(), Fail> {
    let Some(find) = row.strip_prefix("find ") else {
        return act(alloc, index, row);
    };
    let (keys, due) = cut(find, " ->")?;
    check(
        row,
        digits(alloc, alloc, index, keys)?.as_str() == due.trim_start_matches(' '),
    )
}

/// Does what the rows say, one after the other.
fn rows_are_so(alloc: Global, index: &mut Index<Global>) -> Result<(), Fail> {
    for row in ROWS.lines() {
        row_is_so(alloc, index, row)?;
    }
    Ok(())
}

#[test]
fn a_query_finds_the_steps_that_have_its_first_key(rt: HostRuntime) -> Result<(), Fail> {
    rows_are_so(rt.alloc(), &mut Index::new(rt.alloc(), 0))
}

/// Gives the step with a number a patient, one of three labels and a state.
fn put_numbered(
    rt: &impl AllocGlobal,
    index: &mut Index<Global>,
    number: u32,
    state: &str,
) -> Result<(), Fail> {
    let step = step_of(rt.alloc(), format!(in rt.alloc(); "{number}")?.as_str())?;
    let row = format!(in rt.alloc();
        "00100020=P{} 00741202=L{} 00741000={state}",
        number / 10,
        number % 3
    )?;
    put(rt.alloc(), index, step, row.as_str())
}

/// Removes the step with a number.
fn remove_numbered(
    rt: &impl AllocGlobal,
    index: &mut Index<Global>,
    number: u32,
) -> Result<(), Fail> {
    index.remove(step_of(rt.alloc(), format!(in rt.alloc(); "{number}")?.as_str())?);
    Ok(())
}

/// Gives steps to an index, enough that lists are merged; changes the state of every third, and removes every fourth.
fn fill(rt: &impl AllocGlobal, index: &mut Index<Global>) -> Result<(), Fail> {
    for number in 0..2_000 {
        put_numbered(rt, index, number, "SCHEDULED")?;
    }
    for number in 0..667 {
        put_numbered(rt, index, number * 3, "CANCELED")?;
    }
    for number in 0..500 {
        remove_numbered(rt, index, number * 4)?;
    }
    Ok(())
}

/// The numbers of steps that queries find in a large index.
const MANY: &str = "\
00100020=P7 -> 8
00100020=P8 -> 7
00741202=L0 -> 500
00741202=L1 -> 500
00741000=CANCELED -> 500
00741000=SCHEDULED -> 1000
00741000=IN_PROGRESS -> 0";

/// Fails if a query does not find as many steps as a row says.
fn finds_so_many(rt: &impl AllocGlobal, index: &Index<Global>, row: &str) -> Result<(), Fail> {
    let (keys, due) = cut(row, " -> ")?;
    let Some(found) = candidates(rt.alloc(), index, keys)? else {
        return Err("no indexed key".into());
    };
    let found = found.len();
    check(row, format!(in rt.alloc(); "{found}")?.as_str() == due)
}

/// Fills an index, and compares the numbers of steps that queries find.
fn finds_in_a_large_one(rt: &impl AllocGlobal, index: &mut Index<Global>) -> Result<(), Fail> {
    fill(rt, index)?;
    for row in MANY.lines() {
        finds_so_many(rt, index, row)?;
    }
    Ok(())
}

#[test]
fn a_large_index_finds_as_many(rt: HostRuntime) -> Result<(), Fail> {
    finds_in_a_large_one(&rt, &mut Index::new(rt.alloc(), 0))
}

/// Gives a step to an index, and removes it again.
fn pass_through<'a>(
    alloc: Global,
    heap: &'a Refusing<Global>,
    index: &mut Index<&'a Refusing<Global>>,
    number: u32,
) -> Result<(), Fail> {
    let step = step_of(alloc, format!(in alloc; "{number}")?.as_str())?;
    put(heap, index, step, "00741202=READS 00404005=20240229")?;
    index.remove(step);
    Ok(())
}

/// Gives many steps to an index, one after the other, and removes each.
fn pass_many<'a>(
    alloc: Global,
    heap: &'a Refusing<Global>,
    index: &mut Index<&'a Refusing<Global>>,
) -> Result<(), Fail> {
    for number in 0..2_000 {
        pass_through(alloc, heap, index, number)?;
    }
    Ok(())
}

#[test]
fn an_index_takes_no_memory_for_steps_that_were_removed(rt: HostRuntime) -> Result<(), Fail> {
    let heap = Refusing::new(rt.alloc());
    heap.refuse_above(4_096);
    pass_many(rt.alloc(), &heap, &mut Index::new(&heap, 0))
}

/// Gives a step the values of a row while the growth with this number is refused, and returns whether that succeeds.
fn is_put<'a>(
    heap: &'a Refusing<Global>,
    index: &mut Index<&'a Refusing<Global>>,
    step: StepUid,
    row: &DataSet<&'a Refusing<Global>>,
    growth: u64,
) -> bool {
    heap.refuse(growth);
    let is_put = put_row(heap, index, step, row).is_ok();
    heap.refuse(0);
    is_put
}

/// The same for the second step.
fn second_is_put<'a>(
    alloc: Global,
    heap: &'a Refusing<Global>,
    index: &mut Index<&'a Refusing<Global>>,
    growth: u64,
) -> Result<bool, Fail> {
    let step = step_of(alloc, "2")?;
    let row = set_of(heap, "00741202=READS 00100020=P1 00404005=20240229")?;
    Ok(is_put(heap, index, step, &row, growth))
}

/// Gives one step values, and another while the growth with this number is refused; returns whether that succeeds, and
/// what is found then.
fn put_in<'a>(
    alloc: Global,
    heap: &'a Refusing<Global>,
    index: &mut Index<&'a Refusing<Global>>,
    growth: u64,
) -> Result<(bool, String), Fail> {
    put(heap, index, step_of(alloc, "1")?, "00741202=READS")?;
    let is_put = second_is_put(alloc, heap, index, growth)?;
    Ok((is_put, digits(alloc, heap, index, "00741202=READS")?))
}

/// The same with a new index.
fn put_lacking(alloc: Global, growth: u64) -> Result<(bool, String), Fail> {
    let heap = Refusing::new(alloc);
    let mut index = Index::new(&heap, 0);
    put_in(alloc, &heap, &mut index, growth)
}

/// Returns whether that succeeds; what is found must fit.
fn is_found(alloc: Global, growth: u64) -> Result<bool, Fail> {
    let (is_put, steps) = put_lacking(alloc, growth)?;
    check_same("found", steps.as_str(), if is_put { "12" } else { "1" })?;
    Ok(is_put)
}

#[test]
fn an_index_stays_where_a_growth_is_refused(rt: HostRuntime) -> Result<(), Fail> {
    let mut refused = 0u64;
    for growth in 1..20 {
        if !is_found(rt.alloc(), growth)? {
            refused = growth;
        }
    }
    check(
        "at least two texts and their list grow",
        refused >= 3 && refused < 19,
    )
}
