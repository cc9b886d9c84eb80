//! Which steps are found, and which UIDs are used.

use super::words::request_of;
use super::*;
use fixtures::described;
use fixtures::rows::{check, cut};
use fixtures::words::set_of;
use ups_match::Keys;

/// Requests that are accepted, one after the other.
const HISTORY: &str = "\
create 1.2.3.1 B 00741202=READS 00404005=20240229120000
create 1.2.3.2 B 00741202=REPROC 00404005=20240301
1 1.2.3.2 00741000=IN_PROGRESS 00081195=2.1";

/// Keys, and what they find.
const FOUND: &str = r"00080018= 00741202=RE?D* -> [00080018=1.2.3.1_ 00741202=READS_ ]
00080018=1.2.3.2\1.2.3.9~ -> [00080018=1.2.3.2_ ]
00404005=20240229- -> [00404005=20240229120000 ][00404005=20240301 ]
00404005=-20240229 -> [00404005=20240229120000 ]
00404005=20240229-202402 -> [00404005=20240229120000 ]
00741000=IN_PROGRESS 00741202= -> [00741000=IN_PROGRESS_ 00741202=REPROC ]
00081195= 00091001= 00404033=<> 00741202= -> [00081195= 00091001= 00404033= 00741202=READS_ ][00081195= 00091001= 00404033= 00741202=REPROC ]
00741202=RE*P*C -> [00741202=REPROC ]
 -> [][]";

/// Other requests that are accepted.
const CREATED: &str = "\
create 1.2.3.1
create 1.2.3.22
set 1.2.3.2 00741204=MR_READ
reserve 1.2.3.4";

/// Requests, whether their step is then used, and whether they create a step that is.
const USED: &str = "\
create 1.2.3.1 -> true true
2 1.2.3.1 -> true false
create 1.2.3.22 -> true true
2 1.2.3.22 -> true false
create 1.2.3.4 -> true true
2 1.2.3.4 -> true false
create 1.2.3.44 -> false false
create 1.2.3.2 -> false false
2 1.2.3.2 -> false false
create 1.2.3 -> false false
2 1.2.3 -> false false
create 1.2.3.1.1 -> false false
2 1.2.3.1.1 -> false false
create 1.2.3.23 -> false false
2 1.2.3.23 -> false false";

/// Returns the entry of a request, at the beginning of 1970.
fn entry_of<'a>(
    heap: &'a Refusing<Global>,
    message: &str,
) -> Result<Entry<&'a Refusing<Global>>, Fail> {
    let ae = title("SCHED1")?;
    Ok(Entry {
        caller: 0,
        ae,
        moment: 0,
        request: request_of(heap, message)?,
    })
}

/// Returns the entries of requests.
fn entries_of<'a>(
    heap: &'a Refusing<Global>,
    messages: &str,
) -> Result<Vec<Entry<&'a Refusing<Global>>, &'a Refusing<Global>>, Fail> {
    let mut entries = Vec::new(heap);
    for message in messages.lines() {
        entries.push(entry_of(heap, message)?)?;
    }
    Ok(entries)
}

/// Finds by keys in UTC, and fails if an entry has a moment after the year 9999.
fn find<A: Allocator + Copy>(
    alloc: A,
    entries: &[Entry<A>],
    keys: &Keys<A>,
) -> Result<Sets<A>, ChangeFault> {
    for entry in entries {
        if entry.moment > MAX_MOMENT {
            return Err(ChangeFault::TooDeep);
        }
    }
    let configuration = Configuration::new(Vec::new(alloc), 60, 0, 1_000_000);
    plain_find(alloc, &configuration, entries, keys)
}

/// Returns data sets as text.
fn all_described<A: Allocator + Copy>(
    sets: &Sets<A>,
    rt: &impl AllocGlobal,
) -> Result<String, Fail> {
    let mut text = String::new(rt.alloc());
    for set in sets.as_slice() {
        text.push('[')?;
        text.push_str(described(set, rt)?.as_str())?;
        text.push(']')?;
    }
    Ok(text)
}

/// Returns the number of growths that finding by keys takes; each that is refused must be reported as lack of memory.
fn growths_of_finding<'a>(
    heap: &'a Refusing<Global>,
    entries: &[Entry<&'a Refusing<Global>>],
    keys: &Keys<&'a Refusing<Global>>,
) -> Result<u64, Fail> {
    for growths in 0..GROWTHS {
        heap.refuse(growths + 1);
        let fault = find(heap, entries, keys).err();
        match (heap.is_armed(), fault) {
            (true, None) => return Ok(growths),
            (false, Some(ChangeFault::Memory)) => (),
            _ => return Err("no lack of memory where a growth is refused".into()),
        }
    }
    Err("there are more growths".into())
}

/// Returns as text what keys find.
fn found_text<'a>(
    rt: &impl AllocGlobal,
    heap: &'a Refusing<Global>,
    entries: &[Entry<&'a Refusing<Global>>],
    keys: &Keys<&'a Refusing<Global>>,
) -> Result<String, Fail> {
    heap.refuse(0);
    let sets = find(heap, entries, keys)?;
    Ok(all_described(&sets, rt)?)
}

/// Returns whether keys find what a text says, with more than 5 growths, and nothing without entries.
fn finds<'a>(
    rt: &impl AllocGlobal,
    heap: &'a Refusing<Global>,
    entries: &[Entry<&'a Refusing<Global>>],
    keys: &Keys<&'a Refusing<Global>>,
    wanted: &str,
) -> Result<bool, Fail> {
    Ok(
        growths_of_finding(heap, entries, keys)? > 5
            && found_text(rt, heap, &entries[..0], keys)?.is_empty()
            && found_text(rt, heap, entries, keys)?.as_str() == wanted,
    )
}

/// Returns whether a row says what its keys find.
fn is_found_so<'a>(
    rt: &impl AllocGlobal,
    heap: &'a Refusing<Global>,
    entries: &[Entry<&'a Refusing<Global>>],
    row: &str,
) -> Result<bool, Fail> {
    let (text, wanted) = cut(row, " -> ")?;
    heap.refuse(0);
    let keys = Keys::of(set_of(heap, text)?, 0)?;
    finds(rt, heap, entries, &keys, wanted)
}

/// Fails with the first row that does not say what is found.
fn check_found<'a>(
    rt: &impl AllocGlobal,
    heap: &'a Refusing<Global>,
    entries: &[Entry<&'a Refusing<Global>>],
) -> Result<(), Fail> {
    for row in FOUND.lines() {
        check(row, is_found_so(rt, heap, entries, row)?)?;
    }
    Ok(())
}

#[test]
fn the_steps_that_match_are_found_in_order_of_creation(rt: HostRuntime) -> Result<(), Fail> {
    let heap = Refusing::new(rt.alloc());
    let entries = entries_of(&heap, HISTORY)?;
    check_found(&rt, &heap, &entries)
}

/// Returns whether the step of a request is used, and whether the request creates one that is; this takes no memory.
fn uses<'a>(
    heap: &'a Refusing<Global>,
    entries: &[Entry<&'a Refusing<Global>>],
    request: &Request<&'a Refusing<Global>>,
) -> Result<(bool, bool), Fail> {
    let step = request.step().ok_or("a step")?;
    heap.refuse(1);
    let (is_used, is_repeated) = (used(entries, step), repeats(entries, request));
    if used(&entries[..0], step) || !heap.is_armed() {
        return Err("nothing is created, or memory is asked for".into());
    }
    Ok((is_used, is_repeated))
}

/// Returns the words for whether a step is used, and whether its creation is repeated.
fn words_for(uses: (bool, bool)) -> &'static str {
    match uses {
        (true, true) => "true true",
        (true, false) => "true false",
        (false, true) => "false true",
        (false, false) => "false false",
    }
}

/// Returns whether a row says if the step of its request is used.
fn is_used_so<'a>(
    heap: &'a Refusing<Global>,
    entries: &[Entry<&'a Refusing<Global>>],
    row: &str,
) -> Result<bool, Fail> {
    let (message, wanted) = cut(row, " -> ")?;
    let request = request_of(heap, message)?;
    Ok(words_for(uses(heap, entries, &request)?) == wanted)
}

/// Fails with the first row that does not say what is used.
fn check_used<'a>(
    heap: &'a Refusing<Global>,
    entries: &[Entry<&'a Refusing<Global>>],
) -> Result<(), Fail> {
    for row in USED.lines() {
        check(row, is_used_so(heap, entries, row)?)?;
    }
    Ok(())
}

#[test]
fn only_reserved_uids_and_those_of_created_steps_are_used(rt: HostRuntime) -> Result<(), Fail> {
    let heap = Refusing::new(rt.alloc());
    let entries = entries_of(&heap, CREATED)?;
    laws::a_row_tells_its_state(entries.as_slice());
    check_used(&heap, &entries)
}
