use fixtures::rows::{check, check_same, cut, cut_twice};
use fixtures::{Refusing, bytes_of, put_item, put_text, tag_of, words};
use std::alloc::{Allocator, Global};
use std::test::Fail;
use ups_dataset::dictionary::*;
use ups_dataset::{DataSet, Tag};
use ups_match::{INDEXED, KeyFault, Keys, Matcher, Probe, indexed_keys_are_those_defined};

/// Returns a set with one value, padded to an even length.
pub(super) fn set_of<A: Allocator + Copy>(
    alloc: A,
    tag: Tag,
    value: &[u8],
) -> Result<DataSet<A>, Fail> {
    let mut set = DataSet::new(alloc);
    put_text(alloc, &mut set, tag, value)?;
    Ok(set)
}

/// Returns whether a set matches keys.
fn asked<A: Allocator + Copy>(keys: DataSet<A>, row: &DataSet<A>) -> Result<bool, Fail> {
    let keys = Keys::of(keys, 0)?;
    let mut probe = Probe::new();
    Ok(probe.matches(&keys, row))
}

/// Returns whether a key matches what is stored under the same tag.
fn matched<A: Allocator + Copy>(
    alloc: A,
    tag: Tag,
    key: &[u8],
    stored: &[u8],
) -> Result<bool, Fail> {
    let row = set_of(alloc, tag, stored)?;
    asked(set_of(alloc, tag, key)?, &row)
}

/// Returns whether a key that is not prepared, for lack of memory, matches a set.
fn asked_unprepared<'a, A: Allocator + Copy>(
    heap: &'a Refusing<A>,
    tag: Tag,
    key: &[u8],
    row: &DataSet<&'a Refusing<A>>,
) -> Result<bool, Fail> {
    let keys = set_of(heap, tag, key)?;
    heap.refuse(1);
    asked(keys, row)
}

/// Returns whether a key that is not prepared, for lack of memory, matches what is stored under the same tag.
fn matched_unprepared<A: Allocator + Copy>(
    alloc: A,
    tag: Tag,
    key: &[u8],
    stored: &[u8],
) -> Result<bool, Fail> {
    let heap = Refusing::new(alloc);
    let row = set_of(&heap, tag, stored)?;
    asked_unprepared(&heap, tag, key, &row)
}

/// Returns whether a key says the same about what is stored under the same tag, prepared and not.
pub(super) fn says_the_same<A: Allocator + Copy>(
    alloc: A,
    tag: Tag,
    key: &[u8],
    stored: &[u8],
) -> Result<bool, Fail> {
    Ok(matched(alloc, tag, key, stored)? == matched_unprepared(alloc, tag, key, stored)?)
}

/// A tag for each rule of PS3.4 section C.2.2.2, values of keys, and stored values. `rows/matching.rows` says which of
/// them match, if there is memory.
const VALUES: &str = r#"# UIDs are lists
00080018: "1.2.3"|"1.2.3"00|"1.2.3\1.2.4"|"1.2.3 \1.2.4"|"1.2.4"|"1.2.5\1.2.4"|"1.2.3\"|"1.2.*"|"1.2.?"|"*" -> "1.2.3"|"1.2.3"00|"1.2.4"|"1.2.33"|"1.2.5"|"1.2.3\1.2.4"|
# Long strings are patterns
00741202: "READS"|"READS "|"READS"00|" READS"|"READ"|"RE?D*"|"*ADS"|"R*"|"**"|"X"|"B*"|"*C"|"A*C"|"A\BC"|"A\B*"|"B"|"?"|c4"*"|c4"?"|c4 -> "READS"|"READS   "|"reads"|"REPROC"|"READS "||"A\BC"|"A\BC "|"A \B \C"|c4d6dc|c4ff|e4
# Names are patterns
00100010: "DOE^J*"|"DOE^J?"|"doe^john"|"*^JOHN"|"ROE*" -> "DOE^JOHN"|"DOE^JOHN\ROE^JANE"
# Codes are patterns
00741000: "SCHEDULED"|"SCHED*"|"IN PROGRESS"|"IN*"|"????" -> "SCHEDULED "|"SCHEDULED"|"IN PROGRESS "
# AE titles are patterns
00741236: "AE1"|"AE?" -> "AE1"|"AE1 "|"AE12"
# Short strings are patterns
00080100: "CT?"|"*T*"|"M*" -> "CT1"|"CT"|"CT\MR"
# A text is one value
00741238: "A*C"|"BC"|"A\BC"|"A?BC"|"*"|"stop"|"stop*" -> "A\BC"|"A\BC  "|"A"|"stopped"
# A short text is one value
00741006: "B*"|"*\B?" -> "A\BC"
# Dates are equal values
00100030: "20240229"|"2024022?"|"20240101-20241231"|"20240101\20240229" -> "20240229"|"20240228"|"20240101\20240229"|"20240229  "
# Decimal strings are equal values
00741004: "50"|"5*" -> "50"|"50.0"|"25\50 "
# Other values are compared whole
0074100a: "tel:1"|"tel:*"|"tel:1\tel:2" -> "tel:1"|"tel:1\tel:2"|"tel:1 "00
# A moment is equal to another
00404005: "20240229120000"|"20240229"|"2024"|"20240229120000+0100"|"20240229120000-0100"|"20240229120000.5"|"20240229120000 "|"20240229120060" -> "20240229120000"|"20240229120001"|"20240229"|"20240229000000"|"20240229000001"|"20240101"|"20240102"|"20240229110000"|"20240229130000"|"20240229120000.500000"|"20240229120000  "|"20240229120059"||"soon"|"20240229\20240301"
# A moment lies in a range of dates and times
00404005: "20240229-"|"-20240229"|"20240229-20240301"|"20240229-202402"|"202402-2024"|"2024-2024"|"20240301-20240229"|"20240229-20240301 "|"20240229120000-0100-"|"20240229120000-0100-20240229130000-0000"|"20240229120000-1999"|"20240229120000-2024"|"20240229120000.5-0100-2025"|"-20240229120000-0100"|"2024+0100-"|"2024+0100-2024+0100" -> "20240229"|"20240228235959.999999"|"99991231"|"20240229235959.999999"|"20240301"|"0001"|"20240301235959"|"20240302"|"20240228235959"|"20240229120000"|"2024"|"20241231235959.999999"|"2025"|"20240229130000"|"20240229125959"|"20250101"|"20240229130000.4"|"20240229130000.5"|"20240229130000.999999"|"20240229130001"|"20231231230000"|"20231231225959"|"20241231225959"|"20241231230000"||"soon"
# Thousands of stars say what one says
00741202: 2a*2000 "B"|"R" 2a*2000 "S"|"R" 2a*2000|2a*2000 "S"|"?" 2a*2000 "S"|"RE?D" 2a*2000 "\S" -> "A\B"|"A\AA"|"READS"|"READ"|"READ\S"|"X\READS "|"S"|"AS"|"READ\READS"
# A long pattern is matched whole
00741202: 412a*600|412a2a*512|412a2a*513 -> 41*600|41*599|41*512"#;

/// Returns whether a key says the same about each of some stored values, prepared and not.
fn key_says_the_same(
    rt: &impl AllocGlobal,
    tag: Tag,
    key: &[u8],
    stored: &str,
) -> Result<bool, Fail> {
    for value in stored.split('|') {
        let value = bytes_of(rt, value)?;
        if !says_the_same(rt.alloc(), tag, key, &value)? {
            return Ok(false);
        }
    }
    Ok(true)
}

/// Returns whether the key written as a text says the same about each of some stored values, prepared and not.
fn text_says_the_same(
    rt: &impl AllocGlobal,
    tag: Tag,
    key: &str,
    stored: &str,
) -> Result<bool, Fail> {
    let key = bytes_of(rt, key)?;
    key_says_the_same(rt, tag, &key, stored)
}

/// Returns whether each key of a line says the same about each of its stored values, prepared and not.
fn keys_say_the_same(rt: &impl AllocGlobal, line: &str) -> Result<bool, Fail> {
    let (digits, keys, stored) = cut_twice(line, ": ", " -> ")?;
    let tag = tag_of(digits)?;
    for key in keys.split('|') {
        if !text_says_the_same(rt, tag, key, stored)? {
            return Ok(false);
        }
    }
    Ok(true)
}

#[test]
fn a_key_says_the_same_prepared_and_not(rt: HostRuntime) -> Result<(), Fail> {
    for line in VALUES.lines() {
        check(
            line,
            line.starts_with("# ") || keys_say_the_same(&rt, line)?,
        )?;
    }
    Ok(())
}

/// Returns a set with an item in a sequence.
fn holding<A: Allocator + Copy>(alloc: A, tag: Tag, item: DataSet<A>) -> Result<DataSet<A>, Fail> {
    let mut set = DataSet::new(alloc);
    put_item(alloc, &mut set, tag, item)?;
    Ok(set)
}

/// Returns a set with a code in a sequence in a sequence.
fn nested<A: Allocator + Copy>(alloc: A, code: &[u8]) -> Result<DataSet<A>, Fail> {
    let item = set_of(alloc, CODE_VALUE, code)?;
    let performer = holding(alloc, HUMAN_PERFORMER_CODE_SEQUENCE, item)?;
    holding(alloc, SCHEDULED_HUMAN_PERFORMERS_SEQUENCE, performer)
}

/// The values of a key in a sequence in a sequence.
const NESTED: &str = "P1|P?|P2||*|P** |**2";

/// Returns whether a key in a sequence in a sequence, prepared while the growth with this number is refused, matches a
/// set.
fn nested_matches<'a>(
    heap: &'a Refusing<Global>,
    key: &[u8],
    growth: u64,
    row: &DataSet<&'a Refusing<Global>>,
) -> Result<bool, Fail> {
    heap.refuse(0);
    let keys = nested(heap, key)?;
    heap.refuse(growth);
    asked(keys, row)
}

/// Returns whether a key in a sequence in a sequence says the same about P1, prepared and not.
fn nested_says_the_same(alloc: Global, key: &[u8]) -> Result<bool, Fail> {
    let heap = Refusing::new(alloc);
    let row = nested(&heap, b"P1")?;
    let found = nested_matches(&heap, key, 0, &row)?;
    Ok(nested_matches(&heap, key, 1, &row)? == found)
}

#[test]
fn a_nested_key_says_the_same_prepared_and_not(rt: HostRuntime) -> Result<(), Fail> {
    for key in NESTED.split('|') {
        check(key, nested_says_the_same(rt.alloc(), key.as_bytes())?)?;
    }
    Ok(())
}

/// Keys that cannot be read, and their fault, which a peer is not told.
const FAULTS: &str = r"00404005=- -> BadRange
00404005=-_ -> BadRange
00404005=soon -> BadRange
00404005=20240230 -> BadRange
00404005=20240229-soon -> BadRange
00404005=soon-20240229 -> BadRange
00404005=20240229--20240301 -> BadRange
00404005=20240229-20240301- -> BadRange
00404005=-- -> BadRange
00404005=20240229_-20240301 -> BadRange
00404005=20240229\20240301 -> BadRange
00404005=2024022? -> BadRange
00404005=2024* -> BadRange
00404025=[00080100=CT1][00080100=-] -> TwoItems
00404025=[00080100=CT1][00080100=-] 00404050=- -> TwoItems
00404025=[00080100=CT1][00080100=-] 00404050=- 00404005=- -> BadRange";

/// Returns the fault of keys, or None if they can be read.
fn fault_of(alloc: Global, keys: &str) -> Result<Option<KeyFault>, Fail> {
    Ok(Keys::of(words::set_of(alloc, keys)?, 0).err())
}

/// Returns keys with the fault that they have.
fn fault_row(rt: &impl AllocGlobal, keys: &str) -> Result<String, Fail> {
    Ok(match fault_of(rt.alloc(), keys)? {
        Some(fault) => format!(in rt.alloc(); "{keys} -> {fault:?}")?,
        None => format!(in rt.alloc(); "{keys} -> none")?,
    })
}

/// Fails if a row does not say the fault of its keys.
fn check_fault(rt: &impl AllocGlobal, row: &str) -> Result<(), Fail> {
    let (keys, _) = cut(row, " -> ")?;
    check_same(row, fault_row(rt, keys)?.as_str(), row)
}

#[test]
fn the_first_fault_is_told(rt: HostRuntime) -> Result<(), Fail> {
    for row in FAULTS.lines() {
        check_fault(&rt, row)?;
    }
    Ok(())
}

/// Returns the offset of keys, whether they match a set, and the number of sets tried then.
fn told_of(keys: &Keys<Global>, row: &DataSet<Global>) -> (i16, bool, u64) {
    let mut probe = Probe::new();
    let is_match = probe.matches(keys, row);
    (keys.offset(), is_match, probe.count())
}

/// Returns the same for a start that is asked for, an hour east of UTC, and one that is stored.
fn told_of_starts(alloc: Global, key: &[u8], stored: &[u8]) -> Result<(i16, bool, u64), Fail> {
    let tag = SCHEDULED_PROCEDURE_STEP_START_DATE_TIME;
    let row = set_of(alloc, tag, stored)?;
    let keys = Keys::of(set_of(alloc, tag, key)?, 60)?;
    Ok(told_of(&keys, &row))
}

#[test]
fn an_offset_is_that_of_the_keys(rt: HostRuntime) -> Result<(), Fail> {
    let told = told_of_starts(rt.alloc(), b"20240229120000+0000", b"20240229130000")?;
    assert_eq!(rt; told, (60, true, 1));
    Ok(())
}

/// Returns whether a copy of keys matches their own attributes.
fn is_copied<A: Allocator + Copy>(keys: &Keys<A>) -> Result<bool, Fail> {
    let copy = keys.copy()?;
    let mut probe = Probe::new();
    Ok(probe.matches(&copy, keys.attributes()))
}

/// Returns whether a copy of these keys is refused if its first growth is.
fn is_refused<'a>(heap: &'a Refusing<Global>, keys: &Keys<&'a Refusing<Global>>) -> bool {
    heap.refuse(1);
    keys.copy().is_err()
}

/// Returns whether keys in a sequence in a sequence are copied, and are not if the first growth of the copy is refused.
fn is_copied_or_refused(heap: &Refusing<Global>) -> Result<bool, Fail> {
    let keys = Keys::of(nested(heap, b"P1")?, 0)?;
    Ok(is_copied(&keys)? && is_refused(heap, &keys))
}

#[test]
fn a_copy_is_made_or_refused(rt: HostRuntime) -> Result<(), Fail> {
    let heap = Refusing::new(rt.alloc());
    assert!(rt; is_copied_or_refused(&heap)?);
    Ok(())
}

// The table of docs/rules/matching.md.
#[test]
fn steps_are_looked_up_in_this_order(rt: HostRuntime) -> Result<(), Fail> {
    indexed_keys_are_those_defined();
    let mut text = String::new(rt.alloc());
    for indexed in INDEXED {
        let part = format!(in rt.alloc(); "{:08x} {:?} ", indexed.tag.number(), indexed.kind)?;
        text.push_str(part.as_str())?;
    }
    assert_eq!(rt;
        text.as_str(),
        "00080018 Value 00100020 Value 00741202 Value 00404025 Code 00741000 Value 00741200 Value "
    );
    Ok(())
}
